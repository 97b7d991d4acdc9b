ghost use Rattle.std.specs.Prelude.{◌≡◌, ◌<◌, ◌++◌, ◌∷◌, ◌^◌, [], true, false, is_some, option_map, IfSome, IfOk, OnOk, IsTrue};
ghost use Rattle.alw_msg.specs.declared.events.Event.TheVariants.{Instr};
ghost use Rattle.alw_msg.specs.Events.{node_of};
ghost use Rattle.alw_image.specs.Images.{node_count};
ghost use Rattle.alw_model.specs.Counts.{is_turn};
ghost use Rattle.alw_tally.specs.declared.moments.Moment.{Moment};
ghost use Rattle.alw_mesh.specs.Histories.{grown, last_sends, may_be_next};
ghost use Rattle.alw_mesh.specs.Moments.{moment_in};
ghost use Rattle.alw_times.specs.Happening.{kind_of};
ghost use Rattle.alw_times.specs.Within.{TimesAreWithin};
ghost use Rattle.alw_waits.specs.Waits.{told_by};
ghost use Rattle.alw_timing.specs.Timing.{TimesAreKept};
ghost use Rattle.alw_timing.specs.Takes.{halts_with, EventIsKept};

use crate::looks::{Look, look_at, woken_since};
use crate::timing::Timekeeper;
use alw_image::Image;
use alw_mesh::{Machine, Moment};
use alw_model::Did;
use alw_msg::{Event, Kind, Msg};
use alw_num::{NoMemory, NodeNo};
use alw_times::{Costs, Span, TimedMoment};
use alw_waits::{Waited, Waits};
use sparc_table::Outcome;

impl Timekeeper {
    /// An event that may be next happens, and its times are kept. It answers whether a context halts with it.
    /// A turn and a delivery have a compiled way of their own each.
    #[inline(always)]
    pub fn take(&mut self, machine: &mut Machine, event: Event) -> Result<bool, NoMemory>
        requires may { IsTrue (may_be_next machine.old event) }
        requires kept { (start : Timekeeper) × TimesAreKept start machine.old self.old }
        ensures machine { OnOk result (machine.new ≡ grown machine.old event) }
        ensures kept { OnOk result ((start : Timekeeper) → TimesAreKept start machine.old self.old → TimesAreKept start machine.new self.new) }
        ensures halts { IfOk result (λ halts. halts ≡ halts_with (moment_in machine.old event).stepped.did) }
    {
        match event {
            Event::Instr { node } => self.happen(machine, Event::Instr { node }),
            Event::Deliver { from, to } => self.happen(machine, Event::Deliver { from, to }),
            other => self.happen(machine, other),
        }
    }

    // The same, in one way for all events.
    #[inline(always)]
    pub(crate) fn happen(&mut self, machine: &mut Machine, event: Event) -> Result<bool, NoMemory>
        requires may { IsTrue (may_be_next machine.old event) }
        requires kept { (start : Timekeeper) × TimesAreKept start machine.old self.old }
        ensures machine { OnOk result (machine.new ≡ grown machine.old event) }
        ensures kept { OnOk result ((start : Timekeeper) → TimesAreKept start machine.old self.old → TimesAreKept start machine.new self.new) }
        ensures halts { IfOk result (λ halts. halts ≡ halts_with (moment_in machine.old event).stepped.did) }
    {
        let _run = machine.journal(); // for its clause
        let waits = self.times.waits.is_some();
        let look = look_at(machine, &self.times.clocks, event, waits);
        let moment = machine.take(event)?;
        let plain = plain_turn(machine, event, &moment, waits);
        if let Some(node) = plain {
            self.turn(machine, node, &look)?;
            return Ok(halts_with(moment.did));
        }
        self.pass(machine, event, &look, &moment)?;
        Ok(halts_with(moment.did))
    }

    // The times after a turn that sent nothing, where no waits are told.
    #[inline(always)]
    fn turn(&mut self, machine: &Machine, node: NodeNo, look: &Look) -> Result<(), NoMemory>
        requires { TimesAreWithin (2 ^ 63) self.old.times.clocks }
        ensures { OnOk result ((moment : Moment) → is_turn moment.did ≡ true → last_sends machine.now ≡ [] → is_some self.old.times.waits ≡ false →
            EventIsKept (Instr node) machine.now moment look.now self.old self.new) }
    {
        let span = self
            .times
            .clocks
            .turn(machine.image(), &self.costs, node, look.slot, look.last);
        keep(&mut self.times.spans, span)?;
        Ok(())
    }

    // The times after an event that has happened, and what is told beside them.
    #[inline(always)]
    fn pass(
        &mut self,
        machine: &Machine,
        event: Event,
        look: &Look,
        moment: &Moment,
    ) -> Result<(), NoMemory>
        requires here { node_of event < node_count machine.now.image }
        requires within { TimesAreWithin (2 ^ 63) self.old.times.clocks }
        ensures { OnOk result (EventIsKept event machine.now moment.now look.now self.old self.new) }
    {
        let happened = TimedMoment {
            event,
            slot: look.slot,
            last: look.last,
            taken: kind_of(&moment.taken),
            did: moment.did,
            woken: woken_since(machine, event, &look.ready),
        };
        let span = self.times.clocks.pass(
            machine.image(),
            &self.costs,
            &happened,
            machine.last_sent(),
        )?;
        let told = Waited {
            asked: look.asked,
            taken: moment.taken,
            arrival: look.arrival,
            span,
        };
        tell(
            &mut self.times.waits,
            machine.image(),
            &self.costs,
            &happened,
            &told,
        )?;
        keep(&mut self.times.spans, span)?;
        Ok(())
    }
}

// The node of an event that was a quiet turn, and sent nothing, where no waits are told.
#[inline(always)]
fn plain_turn(machine: &Machine, event: Event, moment: &Moment, waits: bool) -> Option<NodeNo>
    ensures { IfSome result (λ node. (event ≡ Instr node) × (is_turn moment.now.did ≡ true) × (last_sends machine.now ≡ []) × (waits ≡ false)) }
{
    match (event, moment.did) {
        (Event::Instr { node }, Did::Turn { .. })
            if moment.quiet && !waits && machine.last_sent().is_empty() => { Some(node) }
        _ => None,
    }
}

// A turn halts its context.
#[inline(always)]
fn halts_with(did: Did) -> bool
    ensures { result ≡ halts_with did }
{
    matches!(
        did,
        Did::Turn {
            outcome: Outcome::Halt,
            ..
        }
    )
}

// Waits are told of an event that has happened, where they are.
fn tell(
    waits: &mut Option<Waits>,
    image: &Image,
    costs: &Costs,
    happened: &TimedMoment,
    told: &Waited,
) -> Result<(), NoMemory>
    ensures { OnOk result (waits.new ≡ option_map (λ so_far. told_by image.now costs.now so_far happened.now told.now happened.now.event) waits.old) }
{
    match waits {
        Some(waits) => waits.pass(image, costs, happened, told),
        None => Ok(()),
    }
}

// A span more, where they are told.
fn keep(spans: &mut Option<Vec<Span>>, span: Span) -> Result<(), NoMemory>
    ensures { OnOk result (option_map (λ spans. spans.items) spans.new ≡ option_map (λ spans. spans.items ++ span ∷ []) spans.old) }
{
    if let Some(spans) = spans {
        spans.push(span)?;
    }
    Ok(())
}

// The kind of a message that was taken.
fn kind_of(taken: &Option<Msg>) -> Option<Kind>
    ensures { result ≡ kind_of taken.now }
{
    match taken {
        Some(msg) => Some(msg.kind),
        None => None,
    }
}
