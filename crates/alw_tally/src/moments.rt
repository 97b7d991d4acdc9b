ghost use Rattle.std.specs.Prelude.{◌≡◌, option_to_list};
ghost use Rattle.std.specs.Option.{option_or};
ghost use Rattle.alw_msg.specs.Events.{node_of};
ghost use Rattle.alw_model.specs.Runs.{turn_in};
ghost use Rattle.alw_tally.specs.Counted.{trap_by};

use alw_image::Image;
use alw_model::{Did, TrapAt};
use alw_msg::{Entry, Msg};
use sparc_table::Outcome;

/// One event of a run, as the definitions' moment has it, but for the node before it.
#[derive(Clone, Copy, PartialEq, Eq)]
pub struct Moment {
    pub entry: Entry,
    /// The message that it took: a delivery takes one.
    pub taken: Option<Msg>,
    /// What its node did.
    pub did: Did,
    /// Whether it is known to have been a quiet turn within the limit, behind which no other end holds than
    /// before it. Where it is false nothing is known.
    pub quiet: bool,
}

/// The turn that an event was, if it was one, as its context and its outcome.
#[inline(always)]
pub fn turn_of(image: &Image, moment: &Moment) -> Option<(u32, Outcome)>
    ensures { option_to_list result ≡ turn_in image.now (node_of moment.now.entry.event) moment.now.did }
{
    match moment.did {
        Did::Turn { slot, outcome } => {
            let contexts = u32::from(image.contexts());
            let context = u32::from(moment.entry.event.node().0) * contexts + u32::from(slot);
            Some((context, outcome))
        }
        _ => None,
    }
}

/// Notes where a trapping turn stands, if the event was one and none is noted: `entry` is the event's
/// place in the journal, `pc` the PC of the slot that ran before its turn.
#[inline(always)]
pub fn note_trap(trap: &mut Option<TrapAt>, entry: u32, moment: &Moment, pc: u32)
    ensures { trap.new ≡ option_or trap.old (trap_by entry (node_of moment.now.entry.event) pc moment.now.did) }
{
    let Did::Turn {
        slot,
        outcome: Outcome::Trap { tt },
    } = moment.did
    else {
        return;
    };
    if trap.is_none() {
        *trap = Some(TrapAt {
            entry,
            node: moment.entry.event.node().0,
            slot,
            pc,
            tt,
        });
    }
}
