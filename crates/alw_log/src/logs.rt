ghost use Rattle.std.specs.Prelude.{◌≡◌, ◌++◌, IfOk, OnOk};
ghost use Rattle.alw_model.specs.Machine.{machine_start};
ghost use Rattle.alw_log.specs.Logs.{head_text, lines_from, lines_of, log_of, title};

use crate::contexts::put_contexts;
use crate::entries::put_entry;
use alw_mesh::{Machine, Watch};
use alw_model::Ended;
use alw_msg::Entry;
use alw_num::NoMemory;
use alw_report::{put_ended_line, put_heading, put_params, put_sizes};
use alw_text::Text;
use std::alloc::Global;

/// The log of a machine's run up to an end. The run is taken again from its start, and a line is written at
/// each event: nothing is kept of an event but its line.
#[tactic(auto, unfolding(crate::specs::Logs::log_of))]
pub fn log(alloc: Global, machine: &Machine, ended: &Ended) -> Result<Text, NoMemory>
    ensures { IfOk result (λ text. text ≡ log_of machine.now.image machine.now.parameters machine.now.journal ended.now) }
{
    let mut head = Text::empty(alloc);
    put_head(&mut head, machine)?;
    let mut text = put_events(alloc, head, machine)?;
    put_contexts(&mut text, machine)?;
    put_ended_line(&mut text, ended)?;
    text.put(b"end\n")?;
    Ok(text)
}

// The lines up to the first event.
#[tactic(auto, unfolding(crate::specs::Logs::head_text))]
fn put_head(text: &mut Text, machine: &Machine) -> Result<(), NoMemory>
    ensures { OnOk result (text.new ≡ text.old ++ head_text machine.now.image machine.now.parameters machine.now.journal) }
{
    let image = machine.image();
    put_title(text)?;
    put_sizes(text, image.sizes())?;
    put_params(text, machine.params())?;
    put_heading(text, b"events", machine.journal().len())?;
    Ok(())
}

#[tactic(auto, unfolding(crate::specs::Logs::title))]
fn put_title(text: &mut Text) -> Result<(), NoMemory>
    ensures { OnOk result (text.new ≡ text.old ++ title) }
{
    text.put(b"ALEWIFE LOG 1\n")
}

// The events of a machine's journal, taken again from its start.
fn put_events(alloc: Global, text: Text, machine: &Machine) -> Result<Text, NoMemory>
    ensures { IfOk result (λ all. all ≡ text ++ lines_from machine.now.image machine.now.parameters (machine_start machine.now.image) machine.now.journal) }
{
    let mut lines = Lines { text };
    machine.again(alloc, &mut lines)?;
    Ok(lines.text)
}

// A text to which the line of each event is appended.
#[derive(Drop)]
struct Lines {
    text: Text,
}

impl Watch for Lines {
    ghost told = { λ start h now. now.text ≡ start.text ++ lines_of h };

    fn event(&mut self, machine: &mut Machine, entry: Entry) -> Result<(), NoMemory> {
        put_entry(&mut self.text, machine, entry)?;
        Ok(())
    }
}
