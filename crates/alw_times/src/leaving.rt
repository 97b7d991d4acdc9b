ghost use Rattle.std.specs.Prelude.{◌≡◌, ◌≤◌, ◌+◌, ◌*◌, ◌^◌, ℕ, false, max, slice_index_or, IfOk, OnOk};
ghost use Rattle.alw_msg.specs.Events.{node_of};
ghost use Rattle.alw_num.specs.Maps.{passes};
ghost use Rattle.alw_times.specs.Times.{time_at, is_busy, start_of, finish_of, passed, left_by, leaves_at, kept, outgoing_at, with_outgoing, sent_one, sent, taken_after, packets_given, woken_one, woken_slot, woken_below, woken_after};
ghost use Rattle.alw_times.specs.Within.{AreWithin, QueuesAreWithin, TimesAreWithin};

use crate::charges::{cost, is_busy, length, way};
use crate::clocks::Clocks;
use crate::costs::Costs;
use crate::happenings::{Span, TimedMoment};
use crate::places::{join_at, pop_at, put, time_at};
use crate::queues::Queue;
use crate::starting::{context_place, link_place};
use alw_image::Image;
use alw_model::Did;
use alw_msg::{Event, Msg, Sends};
use alw_num::{Draws, NoMemory, NodeNo};

impl Clocks {
    /// An event has happened: the times are now those after it, and its start and finish are answered. No
    /// time grows by more than 2^33 beyond the greatest.
    pub fn pass(
        &mut self,
        image: &Image,
        costs: &Costs,
        happened: &TimedMoment,
        sends: &Sends,
    ) -> Result<Span, NoMemory>
        requires { TimesAreWithin (2 ^ 63) self.old }
        ensures start { IfOk result (λ span. span.start ≡ start_of image.now costs.now self.old happened.now) }
        ensures finish { IfOk result (λ span. span.finish ≡ finish_of image.now costs.now self.old happened.now sends.now.messages) }
        ensures passed { OnOk result (self.new ≡ passed image.now costs.now self.old happened.now sends.now.messages) }
        ensures within { OnOk result ((most : ℕ) → TimesAreWithin most self.old → TimesAreWithin (most + 2 ^ 33) self.new) }
    {
        let start = self.start(image, costs, happened.slot, happened.event);
        let finish = start + cost(costs, happened, sends);
        self.leave(image, costs, happened, sends, start, finish)?;
        Ok(Span { start, finish })
    }

    // What an event leaves that has started and finished.
    fn leave(
        &mut self,
        image: &Image,
        costs: &Costs,
        happened: &TimedMoment,
        sends: &Sends,
        start: u64,
        finish: u64,
    ) -> Result<(), NoMemory>
        requires ports { time_at self.old.ports (node_of happened.now.event) ≤ 2 ^ 63 }
        requires start { start ≤ finish }
        requires finish { finish ≤ 2 ^ 63 + 2 ^ 26 }
        ensures left { OnOk result (self.new ≡ left_by image.now costs.now self.old happened.now sends.now.messages start finish) }
        ensures port { OnOk result (time_at self.new.ports (node_of happened.now.event) ≤ max (time_at self.old.ports (node_of happened.now.event)) finish + 2 ^ 25) }
        ensures arrivals { OnOk result ((most : ℕ) → max (time_at self.old.ports (node_of happened.now.event)) finish + 2 ^ 32 + 2 ^ 26 ≤ most → QueuesAreWithin most self.old.arrivals → QueuesAreWithin most self.new.arrivals) }
        ensures wakes { OnOk result ((most : ℕ) → finish + 2 ^ 16 ≤ most → AreWithin most self.old.wakes → AreWithin most self.new.wakes) }
    {
        let event = happened.event;
        let node = event.node();
        self.take(image, event);
        let leave = leaves_at(event, start, finish);
        self.send(image, costs, node, sends, leave)?;
        self.give(node, happened.did, finish)?;
        self.wake(image, costs, happened, finish);
        self.keep(event, start, finish);
        Ok(())
    }

    // An event takes the message or the packet that it waited for.
    fn take(&mut self, image: &Image, event: Event)
        ensures { self.new ≡ taken_after image.now event self.old }
    {
        match event {
            Event::Handle { node } => pop_at(&mut self.packets, usize::from(node.0)),
            Event::Deliver { from, to } => pop_at(&mut self.arrivals, link_place(image, from, to)),
            _ => {}
        }
    }
    // What an event sent is on its way.
    fn send(
        &mut self,
        image: &Image,
        costs: &Costs,
        from: NodeNo,
        sends: &Sends,
        leave: u64,
    ) -> Result<(), NoMemory>
        requires port { time_at self.old.ports from.0 ≤ 2 ^ 63 }
        requires leave { leave ≤ 2 ^ 63 + 2 ^ 26 }
        ensures sent { OnOk result (self.new ≡ with_outgoing self.old from.0 (sent image.now costs.now from.0 leave (outgoing_at self.old from.0) sends.now.messages)) }
        ensures port { OnOk result (time_at self.new.ports from.0 ≤ max (time_at self.old.ports from.0) leave + 2 ^ 25) }
        ensures arrivals { OnOk result ((most : ℕ) → max (time_at self.old.ports from.0) leave + 2 ^ 32 + 2 ^ 26 ≤ most → QueuesAreWithin most self.old.arrivals → QueuesAreWithin most self.new.arrivals) }
    {
        let at = usize::from(from.0);
        let port = time_at(&self.ports, at);
        let port = send_all(&mut self.arrivals, image, costs, from, sends, leave, port)?;
        put(&mut self.ports, at, port);
        Ok(())
    }

    // A delivery that trapped leaves a packet.
    fn give(&mut self, node: NodeNo, did: Did, finish: u64) -> Result<(), NoMemory>
        ensures { OnOk result (self.new ≡ record self.old { packets = packets_given did node.0 finish self.old.packets }) }
    {
        match did {
            Did::Packet => join_at(&mut self.packets, usize::from(node.0), finish),
            _ => Ok(()),
        }
    }

    // A delivery wakes the slots that it made Ready.
    fn wake(&mut self, image: &Image, costs: &Costs, happened: &TimedMoment, finish: u64)
        requires { finish ≤ 2 ^ 63 + 2 ^ 26 }
        ensures woken { self.new ≡ woken_after image.now costs.now happened.now finish self.old }
        ensures within { (most : ℕ) → finish + 2 ^ 16 ≤ most → AreWithin most self.old.wakes → AreWithin most self.new.wakes }
    {
        if let Event::Deliver { to, .. } = happened.event {
            let at = usize::from(to.0);
            let draws = Draws {
                state: time_at(&self.draws, at),
            };
            let draws = wake_slots(&mut self.wakes, draws, image, costs, happened, to, finish);
            put(&mut self.draws, at, draws.state);
        }
    }

    // What an event kept busy is free when it finishes.
    fn keep(&mut self, event: Event, start: u64, finish: u64)
        ensures { self.new ≡ kept event start finish self.old }
    {
        put(&mut self.starts, usize::from(event.node().0), start);
        self.latest = self.latest.max(finish);
        match event {
            Event::Instr { node } | Event::Handle { node } => {
                put(&mut self.processors, usize::from(node.0), finish)
            }
            Event::Deliver { to, .. } => put(&mut self.controllers, usize::from(to.0), finish),
            Event::Evict { node, .. } => put(&mut self.controllers, usize::from(node.0), finish),
        }
    }
}

// When what an event sends leaves: the handler acts when it starts.
fn leaves_at(event: Event, start: u64, finish: u64) -> u64
    ensures { result ≡ leaves_at event start finish }
{
    match event {
        Event::Handle { .. } => start,
        _ => finish,
    }
}

// Messages go out one after the other, behind a port that is free at a time; when it is free then.
fn send_all(
    arrivals: &mut Vec<Queue>,
    image: &Image,
    costs: &Costs,
    from: NodeNo,
    sends: &Sends,
    leave: u64,
    port: u64,
) -> Result<u64, NoMemory>
    requires port { port ≤ 2 ^ 63 }
    requires leave { leave ≤ 2 ^ 63 + 2 ^ 26 }
    ensures sent { IfOk result (λ free. record { port = free; arrivals = arrivals.new.items } ≡ sent image.now costs.now from.0 leave (record { port = port; arrivals = arrivals.old.items }) sends.now.messages) }
    ensures port { IfOk result (λ free. free ≤ max port leave + 2 ^ 25) }
    ensures within { OnOk result ((most : ℕ) → max port leave + 2 ^ 32 + 2 ^ 26 ≤ most → QueuesAreWithin most arrivals.old.items → QueuesAreWithin most arrivals.new.items) }
{
    let _few = sends.free(); // for its clauses
    let mut free = port;
    for i in 0..sends.len() {
        let (to, msg) = sends.at(i);
        free = send_one(arrivals, image, costs, from, to, &msg, leave, free)?;
    }
    Ok(free)
}

// One message goes out.
fn send_one(
    arrivals: &mut Vec<Queue>,
    image: &Image,
    costs: &Costs,
    from: NodeNo,
    to: NodeNo,
    msg: &Msg,
    leave: u64,
    port: u64,
) -> Result<u64, NoMemory>
    requires { max port leave ≤ 2 ^ 63 + 2 ^ 27 }
    ensures sent { IfOk result (λ free. record { port = free; arrivals = arrivals.new.items } ≡ sent_one image.now costs.now from.0 leave (record { port = port; arrivals = arrivals.old.items }) (to.0, msg.now)) }
    ensures port { IfOk result (λ free. free ≤ max port leave + 2 ^ 17) }
    ensures within { OnOk result ((most : ℕ) → max port leave + 2 ^ 32 + 2 ^ 25 ≤ most → QueuesAreWithin most arrivals.old.items → QueuesAreWithin most arrivals.new.items) }
{
    let link = link_place(image, from, to);
    if to == from {
        join_at(arrivals, link, leave)?;
        Ok(port)
    } else {
        let free = port.max(leave) + length(costs, msg.kind);
        join_at(arrivals, link, free + way(image, costs, from, to))?;
        Ok(free)
    }
}

// The slots of a node whose flags are set are woken, with what is drawn; the draws that are left.
fn wake_slots(
    wakes: &mut Vec<u64>,
    draws: Draws,
    image: &Image,
    costs: &Costs,
    happened: &TimedMoment,
    node: NodeNo,
    finish: u64,
) -> Draws
    requires { finish ≤ 2 ^ 63 + 2 ^ 26 }
    ensures woken { record { state = result.state; wakes = wakes.new.items } ≡ woken_below costs.now (passes is_busy happened.now.taken) happened.now.woken (node.0 * image.now.contexts) finish image.now.contexts (record { state = draws.state; wakes = wakes.old.items }) }
    ensures within { (most : ℕ) → finish + 2 ^ 16 ≤ most → AreWithin most wakes.old.items → AreWithin most wakes.new.items }
{
    let mut left = draws;
    for slot in 0..contexts(image) {
        left = wake_slot(wakes, left, image, costs, happened, node, slot, finish);
    }
    left
}

// A slot is woken where its flag is set.
fn wake_slot(
    wakes: &mut Vec<u64>,
    draws: Draws,
    image: &Image,
    costs: &Costs,
    happened: &TimedMoment,
    node: NodeNo,
    slot: u8,
    finish: u64,
) -> Draws
    requires { finish ≤ 2 ^ 63 + 2 ^ 26 }
    ensures woken { record { state = result.state; wakes = wakes.new.items } ≡ woken_slot costs.now (passes is_busy happened.now.taken) happened.now.woken (node.0 * image.now.contexts) finish slot (record { state = draws.state; wakes = wakes.old.items }) }
    ensures within { (most : ℕ) → finish + 2 ^ 16 ≤ most → AreWithin most wakes.old.items → AreWithin most wakes.new.items }
{
    if is_set(&happened.woken, slot) {
        let refused = is_busy(happened.taken);
        wake_one(
            wakes,
            draws,
            costs,
            refused,
            context_place(image, node, slot),
            finish,
        )
    } else {
        draws
    }
}

// The flag of a slot, which isn't set where there is none.
fn is_set(flags: &[bool], slot: u8) -> bool
    ensures { result ≡ slice_index_or flags.now slot false }
{
    match flags.get(usize::from(slot)) {
        Some(flag) => *flag,
        None => false,
    }
}

// One context is woken, after a BUSY with a number that is drawn.
fn wake_one(
    wakes: &mut Vec<u64>,
    draws: Draws,
    costs: &Costs,
    refused: bool,
    place: usize,
    time: u64,
) -> Draws
    requires { time ≤ 2 ^ 63 + 2 ^ 26 }
    ensures woken { record { state = result.state; wakes = wakes.new.items } ≡ woken_one costs.now refused time place (record { state = draws.state; wakes = wakes.old.items }) }
    ensures within { (most : ℕ) → time + 2 ^ 16 ≤ most → AreWithin most wakes.old.items → AreWithin most wakes.new.items }
{
    let mut left = draws;
    if refused {
        let number = left.draw() % u32::from(costs.retry.max(1));
        put(wakes, place, time + u64::from(number));
    } else {
        put(wakes, place, time);
    }
    left
}

// The contexts of each node.
fn contexts(image: &Image) -> u8
    ensures contexts { result ≡ image.now.contexts }
    ensures few { result ≤ 4 }
{
    let _ = image.nodes(); // for its clause
    image.contexts()
}
