ghost use Rattle.std.specs.Prelude.{◌≡◌, ◌++◌, IfOk, OnOk};
ghost use Rattle.alw_timing.specs.Texts.{turn_costs, message_costs, home_costs, handler_costs, retry_costs, costs_line, head_text, cycles_title, cycles_line, moments_title, moment_lines, moment_line, entries_text, cycles_text, moments_text};

use crate::tables::{put_nodes, put_totals};
use alw_image::{Image, Params};
use alw_mesh::Machine;
use alw_model::Ended;
use alw_msg::{Entry, Event};
use alw_num::NoMemory;
use alw_report::{put_ended_line, put_heading, put_params, put_sizes};
use alw_text::{Spell, Text, put_number};
use alw_times::{Clocks, Costs, Span};
use alw_trace::put_event;
use alw_waits::Waits;
use std::alloc::Global;

/// The text of a run's cycles: `ALEWIFE CYCLES 1`.
#[tactic(auto, unfolding(crate::specs::Texts::cycles_text))]
pub fn cycles_text(
    alloc: Global,
    machine: &Machine,
    ended: &Ended,
    costs: &Costs,
    clocks: &Clocks,
    waits: &Waits,
) -> Result<Text, NoMemory>
    ensures { IfOk result (λ text. text ≡ cycles_text machine.now.image machine.now.parameters costs.now ended.now clocks.now.latest waits.now) }
{
    let cycles = clocks.cycles();
    let mut text = Text::empty(alloc);
    put_cycles_title(&mut text)?;
    put_head(&mut text, machine.image(), machine.params(), costs)?;
    put_ended_line(&mut text, ended)?;
    put_cycles(&mut text, cycles)?;
    put_totals(&mut text, waits)?;
    put_nodes(&mut text, machine.image().nodes(), cycles, waits.spent())?;
    text.put(b"end\n")?;
    Ok(text)
}

/// The text of a run's moments: `ALEWIFE MOMENTS 1`.
#[tactic(auto, unfolding(crate::specs::Texts::moments_text))]
pub fn moments_text(
    alloc: Global,
    machine: &Machine,
    costs: &Costs,
    spans: &[Span],
) -> Result<Text, NoMemory>
    ensures { IfOk result (λ text. text ≡ moments_text machine.now.image machine.now.parameters costs.now machine.now.journal spans.now) }
{
    let mut text = Text::empty(alloc);
    put_moments_title(&mut text)?;
    put_head(&mut text, machine.image(), machine.params(), costs)?;
    put_entries(&mut text, machine, spans)?;
    text.put(b"end\n")?;
    Ok(text)
}

#[tactic(auto, unfolding(crate::specs::Texts::cycles_title))]
fn put_cycles_title(text: &mut Text) -> Result<(), NoMemory>
    ensures { OnOk result (text.new ≡ text.old ++ cycles_title) }
{
    text.put(b"ALEWIFE CYCLES 1\n")
}

#[tactic(auto, unfolding(crate::specs::Texts::cycles_line))]
fn put_cycles(text: &mut Text, cycles: u64) -> Result<(), NoMemory>
    ensures { OnOk result (text.new ≡ text.old ++ cycles_line cycles) }
{
    put_number(text, b"cycles ", cycles)?;
    text.put(b"\n")?;
    Ok(())
}

#[tactic(auto, unfolding(crate::specs::Texts::moments_title))]
fn put_moments_title(text: &mut Text) -> Result<(), NoMemory>
    ensures { OnOk result (text.new ≡ text.old ++ moments_title) }
{
    text.put(b"ALEWIFE MOMENTS 1\n")
}

// Sizes, parameters and costs.
#[tactic(auto, unfolding(crate::specs::Texts::head_text))]
fn put_head(text: &mut Text, image: &Image, params: &Params, costs: &Costs) -> Result<(), NoMemory>
    ensures { OnOk result (text.new ≡ text.old ++ head_text image.now params.now costs.now) }
{
    put_sizes(text, image.sizes())?;
    put_params(text, params)?;
    put_costs(text, costs)?;
    Ok(())
}

#[tactic(auto, unfolding(crate::specs::Texts::costs_line))]
fn put_costs(text: &mut Text, costs: &Costs) -> Result<(), NoMemory>
    ensures { OnOk result (text.new ≡ text.old ++ costs_line costs.now) }
{
    put_turn_costs(text, costs)?;
    put_message_costs(text, costs)?;
    put_home_costs(text, costs)?;
    put_handler_costs(text, costs)?;
    put_retry_costs(text, costs)?;
    Ok(())
}

#[tactic(auto, unfolding(crate::specs::Texts::turn_costs))]
fn put_turn_costs(text: &mut Text, costs: &Costs) -> Result<(), NoMemory>
    ensures { OnOk result (text.new ≡ text.old ++ turn_costs costs.now) }
{
    put_number(text, b"costs hit ", u64::from(costs.hit))?;
    put_number(text, b" switch ", u64::from(costs.switch))
}

#[tactic(auto, unfolding(crate::specs::Texts::message_costs))]
fn put_message_costs(text: &mut Text, costs: &Costs) -> Result<(), NoMemory>
    ensures { OnOk result (text.new ≡ text.old ++ message_costs costs.now) }
{
    put_number(text, b" hop ", u64::from(costs.hop))?;
    put_number(text, b" send ", u64::from(costs.send))?;
    put_number(text, b" data ", u64::from(costs.data))
}

#[tactic(auto, unfolding(crate::specs::Texts::home_costs))]
fn put_home_costs(text: &mut Text, costs: &Costs) -> Result<(), NoMemory>
    ensures { OnOk result (text.new ≡ text.old ++ home_costs costs.now) }
{
    put_number(text, b" home ", u64::from(costs.home))?;
    put_number(text, b" fill ", u64::from(costs.fill))
}

#[tactic(auto, unfolding(crate::specs::Texts::handler_costs))]
fn put_handler_costs(text: &mut Text, costs: &Costs) -> Result<(), NoMemory>
    ensures { OnOk result (text.new ≡ text.old ++ handler_costs costs.now) }
{
    put_number(text, b" trap ", u64::from(costs.trap))?;
    put_number(text, b" inv ", u64::from(costs.inv))
}

#[tactic(auto, unfolding(crate::specs::Texts::retry_costs))]
fn put_retry_costs(text: &mut Text, costs: &Costs) -> Result<(), NoMemory>
    ensures { OnOk result (text.new ≡ text.old ++ retry_costs costs.now) }
{
    put_number(text, b" retry ", u64::from(costs.retry))?;
    put_number(text, b" seed ", costs.seed)?;
    text.put(b"\n")
}

// The entries of a machine's journal, each with its times.
#[tactic(auto, unfolding(crate::specs::Texts::entries_text))]
fn put_entries(text: &mut Text, machine: &Machine, spans: &[Span]) -> Result<(), NoMemory>
    ensures { OnOk result (text.new ≡ text.old ++ entries_text machine.now.journal spans.now) }
{
    put_heading(text, b"entries", machine.journal().len())?;
    put_moments(text, machine.journal().members(), spans)
}

// A line for each entry that has a span.
fn put_moments(text: &mut Text, entries: &[Entry], spans: &[Span]) -> Result<(), NoMemory>
    ensures { OnOk result (text.new ≡ text.old ++ moment_lines entries.now spans.now) }
{
    let mut rest = spans;
    for entry in entries {
        let Some((span, behind)) = rest.split_first() else {
            return Ok(());
        };
        put_moment(text, *span, entry.event)?;
        rest = behind;
    }
    Ok(())
}

// When an event started, when it finished, and what it is.
#[tactic(auto, unfolding(crate::specs::Texts::moment_line))]
fn put_moment(text: &mut Text, span: Span, event: Event) -> Result<(), NoMemory>
    ensures { OnOk result (text.new ≡ text.old ++ moment_line span event) }
{
    text.put_decimal(span.start)?;
    put_number(text, b" ", span.finish)?;
    put_event(text, event)?;
    text.put(b"\n")?;
    Ok(())
}
