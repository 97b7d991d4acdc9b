ghost use Rattle.std.specs.Prelude.{◌≡◌, ◌≤◌, ◌+◌, ◌*◌, ◌^◌, ℕ};
ghost use Rattle.alw_model.specs.Machine.{link_place};
ghost use Rattle.alw_times.specs.Times.{woken_at, arrival_of, begin_by, start_by, is_due};
ghost use Rattle.alw_times.specs.Within.{TimesAreWithin};

use crate::charges::work_before;
use crate::clocks::Clocks;
use crate::costs::Costs;
use crate::places::{first_at, is_later_at, time_at};
use alw_image::Image;
use alw_msg::Event;
use alw_num::NodeNo;

impl Clocks {
    /// When an event would start, where this slot of its node would run.
    #[inline(always)]
    pub fn start(&self, image: &Image, costs: &Costs, slot: Option<u8>, event: Event) -> u64
        requires { TimesAreWithin (2 ^ 63) self.now }
        ensures start { result ≡ start_by image.now costs.now self.now slot event }
        ensures within { (most : ℕ) → TimesAreWithin most self.now → result ≤ most + 2 ^ 16 }
    {
        let begin = self.begin(image, slot, event);
        let acts = work_before(costs, event) + begin;
        time_at(&self.starts, usize::from(event.node().0)).max(acts)
    }

    /// Nothing at an event's node comes before the event: no packet has come by the start of an
    /// instruction.
    #[inline(always)]
    pub fn is_due(&self, image: &Image, costs: &Costs, slot: Option<u8>, event: Event) -> bool
        requires { TimesAreWithin (2 ^ 63) self.now }
        ensures { result ≡ is_due image.now costs.now self.now slot event }
    {
        match event {
            Event::Instr { node } => {
                let start = self.start(image, costs, slot, event);
                is_later_at(&self.packets, usize::from(node.0), start)
            }
            _ => true,
        }
    }

    /// When the message that an event takes arrived, or the packet that it handles came.
    #[inline(always)]
    pub fn arrival(&self, image: &Image, event: Event) -> u64
        ensures { result ≡ arrival_of image.now self.now event }
    {
        match event {
            Event::Handle { node } => first_at(&self.packets, usize::from(node.0)),
            Event::Deliver { from, to } => first_at(&self.arrivals, link_place(image, from, to)),
            _ => 0,
        }
    }

    // When what an event waits for is there.
    #[inline(always)]
    fn begin(&self, image: &Image, slot: Option<u8>, event: Event) -> u64
        ensures { result ≡ begin_by image.now self.now slot event }
    {
        let at = usize::from(event.node().0);
        match event {
            Event::Instr { node } => {
                time_at(&self.processors, at).max(self.woken_at(image, node, slot))
            }
            Event::Handle { .. } => time_at(&self.processors, at).max(self.arrival(image, event)),
            Event::Deliver { .. } => time_at(&self.controllers, at).max(self.arrival(image, event)),
            Event::Evict { .. } => time_at(&self.controllers, at),
        }
    }

    // When what the slot that runs waited for came.
    #[inline(always)]
    fn woken_at(&self, image: &Image, node: NodeNo, slot: Option<u8>) -> u64
        ensures { result ≡ woken_at image.now self.now node.0 slot }
    {
        match slot {
            Some(slot) => time_at(&self.wakes, context_place(image, node, slot)),
            None => 0,
        }
    }
}

/// The number of a link.
pub fn link_place(image: &Image, from: NodeNo, to: NodeNo) -> usize
    ensures { result ≡ link_place image.now from.0 to.0 }
{
    usize::from(from.0) * usize::from(image.nodes()) + usize::from(to.0)
}

/// The number of the context of a slot.
pub fn context_place(image: &Image, node: NodeNo, slot: u8) -> usize
    ensures { result ≡ node.0 * image.now.contexts + slot }
{
    usize::from(node.0) * usize::from(image.contexts()) + usize::from(slot)
}
