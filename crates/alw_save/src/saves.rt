ghost use Rattle.std.specs.Prelude.{◌≡◌, ◌++◌, IfOk, OnOk};
ghost use Rattle.alw_mesh.specs.Histories.{state_of};
ghost use Rattle.alw_save.specs.Checkpoints.{Saves, checkpoint_text, save_title, state_part};

use crate::cuts::machine_at;
use crate::faults::CutErr;
use crate::states::put_state;
use alw_mesh::Machine;
use alw_num::NoMemory;
use alw_text::Text;
use alw_trace::{Trace, put_front};
use std::alloc::Global;

/// The checkpoint of the entries of a trace that a cut at a stamp keeps: their trace, and the state behind
/// them. The refusals are those of `cut`.
pub fn save(alloc: Global, trace: &Trace, at: u32) -> Result<Text, CutErr>
    ensures { Saves trace.now at result }
{
    let machine = machine_at(alloc, trace, at)?;
    Ok(checkpoint(alloc, &machine)?)
}

/// The checkpoint of a machine: the trace of its journal, and its state.
#[tactic(auto, unfolding(crate::specs::Checkpoints::checkpoint_text))]
pub fn checkpoint(alloc: Global, machine: &Machine) -> Result<Text, NoMemory>
    ensures { IfOk result (λ text. text ≡ checkpoint_text machine.now.image machine.now.parameters machine.now.journal) }
{
    let mut text = Text::empty(alloc);
    put_title(&mut text)?;
    put_front(
        alloc,
        &mut text,
        machine.image(),
        machine.params(),
        machine.journal(),
    )?;
    let state = state_text(alloc, machine)?;
    text.put(state.bytes())?;
    Ok(text)
}

#[tactic(auto, unfolding(crate::specs::Checkpoints::save_title))]
fn put_title(text: &mut Text) -> Result<(), NoMemory>
    ensures { OnOk result (text.new ≡ text.old ++ save_title) }
{
    text.put(b"ALEWIFE SAVE 1\n")
}

/// What stands behind the last entry of a machine's checkpoint.
pub fn state_text(alloc: Global, machine: &Machine) -> Result<Text, NoMemory>
    ensures { IfOk result (λ text. text ≡ state_part machine.now.image (state_of machine.now)) }
{
    let mut text = Text::empty(alloc);
    put_state(alloc, &mut text, machine)?;
    text.put(b"end\n")?;
    Ok(text)
}
