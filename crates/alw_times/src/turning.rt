ghost use Rattle.std.specs.Prelude.{◌≡◌, ◌+◌, ◌^◌, ℕ, []};
ghost use Rattle.alw_msg.specs.declared.events.Event.TheVariants.{Instr};
ghost use Rattle.alw_times.specs.declared.happenings.TimedMoment.{TimedMoment};
ghost use Rattle.alw_times.specs.Happening.{IsTurnOf};
ghost use Rattle.alw_times.specs.Times.{start_of, finish_of, passed, kept};
ghost use Rattle.alw_times.specs.Within.{TimesAreWithin};

use crate::charges::turn_cost;
use crate::clocks::Clocks;
use crate::costs::Costs;
use crate::happenings::Span;
use crate::places::put;
use alw_image::Image;
use alw_msg::Event;
use alw_num::NodeNo;

impl Clocks {
    /// A turn has happened at a node, and sent nothing: the times are those after it, as `pass` leaves them, and its
    /// start and finish are answered. Of all times only the node's own and the greatest change.
    #[inline(always)]
    pub fn turn(
        &mut self,
        image: &Image,
        costs: &Costs,
        node: NodeNo,
        slot: Option<u8>,
        last: u8,
    ) -> Span
        requires { TimesAreWithin (2 ^ 63) self.old }
        ensures start { (happened : TimedMoment) → IsTurnOf node slot last happened → result.start ≡ start_of image.now costs.now self.old happened }
        ensures finish { (happened : TimedMoment) → IsTurnOf node slot last happened → result.finish ≡ finish_of image.now costs.now self.old happened [] }
        ensures passed { (happened : TimedMoment) → IsTurnOf node slot last happened → self.new ≡ passed image.now costs.now self.old happened [] }
        ensures within { (most : ℕ) → TimesAreWithin most self.old → TimesAreWithin (most + 2 ^ 33) self.new }
    {
        let start = self.start(image, costs, slot, Event::Instr { node });
        let finish = start + turn_cost(costs, last, slot);
        self.run(node, start, finish);
        Span { start, finish }
    }

    // A node's processor is taken from a start to a finish.
    #[inline(always)]
    fn run(&mut self, node: NodeNo, start: u64, finish: u64)
        ensures { self.new ≡ kept (Instr node) start finish self.old }
    {
        put(&mut self.starts, usize::from(node.0), start);
        put(&mut self.processors, usize::from(node.0), finish);
        self.latest = self.latest.max(finish);
    }
}
