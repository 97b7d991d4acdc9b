ghost use Rattle.std.specs.Prelude.{◌≡◌, ◌<◌, ◌^◌, ℕ, List, length, IfOk};
ghost use Rattle.alw_msg.specs.Stretches.{stretches, turns_in, AreLongest};

use alw_num::{NoMemory, Sequence};
use std::alloc::Global;

/// The numbers of the contexts that took a turn, in order.
pub type Turns = Sequence<u32>;

/// Turns in stretches, each of one context: the context and how many turns it has.
pub type Stretches = Sequence<(u32, u32)>;

/// The longest stretches of turns of one context, in order.
pub fn stretches(alloc: Global, turns: &[u32]) -> Result<Stretches, NoMemory>
    requires { length turns.now < 2 ^ 32 }
    ensures { IfOk result (λ list. list ≡ stretches turns.now) }
{
    let mut list = Stretches::empty(alloc);
    let Some((first, rest)) = turns.split_first() else {
        return Ok(list);
    };
    let mut context = *first;
    let mut count = 1;
    for next in rest {
        if *next == context {
            count += 1;
        } else {
            list.push((context, count))?;
            context = *next;
            count = 1;
        }
    }
    list.push((context, count))?;
    Ok(list)
}

/// Stretches are the turns, in order, and each is as long as it can be: none is empty, and no two
/// neighbours are of one context.
#[tactic(auto, using(crate::proofs::StretchLaws::same_turns, crate::proofs::StretchLaws::are_longest))]
pub fn stretches_are_longest()
    ensures turns { (turns : List ℕ) → turns_in (stretches turns) ≡ turns }
    ensures longest { (turns : List ℕ) → AreLongest (stretches turns) }
{}
