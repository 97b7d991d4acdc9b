ghost use Rattle.std.specs.Prelude.{◌≡◌};
ghost use Rattle.alw_answers.specs.Outputs.{Gives};
ghost use Rattle.alw_answers.specs.Refusals.{IsNoImage};
ghost use Rattle.alw_checks.specs.Searching.{Searches, is_never_stuck, ending_of_search, ending_of_outcomes};

use alw_answers::{Ending, Output, Refusal};
use alw_endings::{Outcomes, StuckRun, outcomes_of, outcomes_text};
use alw_image::read_image;
use std::alloc::Global;

/// Searches every order of turns of the image that bytes spell, up to so many places, and tells what it can
/// come to.
pub fn search_bytes(alloc: Global, most: u32, bytes: &[u8]) -> Result<Output, Refusal>
    ensures { Gives (Searches most bytes.now) (IsNoImage bytes.now) result }
{
    let image = read_image(alloc, bytes)?;
    let told = outcomes_of(alloc, &image, most)?;
    let text = outcomes_text(alloc, &told)?;
    Ok(Output::of_text(alloc, text, ending_of_outcomes(&told)))
}

// How a search ends by what it told.
fn ending_of_outcomes(told: &Outcomes) -> Ending
    ensures { result ≡ ending_of_outcomes told.now }
{
    if told.traps.is_empty() {
        ending_of_search(told.is_complete && is_never_stuck(&told.stuck))
    } else {
        Ending::MayTrap
    }
}

// How a search ends that told no trap.
fn ending_of_search(ends: bool) -> Ending
    ensures { result ≡ ending_of_search ends }
{
    if ends {
        Ending::Fine
    } else {
        Ending::MayNotEnd
    }
}

// An end can be reached from each place.
fn is_never_stuck(stuck: &StuckRun) -> bool
    ensures { result ≡ is_never_stuck stuck.now }
{
    matches!(stuck, StuckRun::No)
}
