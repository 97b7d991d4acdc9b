//! What is told of an image is of runs of the machine.
#![tactic(auto)]

ghost use Rattle.law_endings.specs.Runs.{EveryEndIsOfARun, EveryRunComesToTold};

/// With one context a node, under all parameters: each outcome and each trap that is told is one of a legal journal
/// that takes the turns told with it, with this memory and the words of each context, or with this trap; or the
/// limit alone stands against these turns. Behind the turns that are told to get stuck no legal journal ends.
#[tactic(auto, using(crate::proofs::Ends::every_end_is_of_a_run))]
pub fn told_ends_are_of_runs()
    ensures { EveryEndIsOfARun }
{}

/// And each legal journal that has ended comes to what is told with its turns, under whatever parameters and with however
/// many contexts a node: to an outcome with this memory and the words of each context, or to this trap.
#[tactic(auto, using(crate::proofs::Ends::every_run_comes_to_told))]
pub fn runs_come_to_what_is_told()
    ensures { EveryRunComesToTold }
{}
