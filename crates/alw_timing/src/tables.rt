ghost use Rattle.std.specs.Prelude.{◌≡◌, ◌++◌, OnOk};
ghost use Rattle.alw_timing.specs.Texts.{total_line, home_text, end_text, wait_line, mode_lines, home_lines, waits_text, totals_text, waiting_of, busy_text, waited_text, node_line, node_lines, nodes_text};

use alw_num::{Mode, NoMemory};
use alw_report::{mode_name, put_heading};
use alw_text::{Spell, Text, put_number};
use alw_waits::{EndedBy, Spent, Total, Waits};

/// The totals of accesses, deliveries and misses.
#[tactic(auto, unfolding(crate::specs::Texts::totals_text))]
pub fn put_totals(text: &mut Text, waits: &Waits) -> Result<(), NoMemory>
    ensures { OnOk result (text.new ≡ text.old ++ totals_text waits.now) }
{
    put_total(text, b"accesses", waits.accesses())?;
    put_total(text, b"queued", waits.queued())?;
    put_waits(text, waits)?;
    Ok(())
}

// A total, behind its name.
#[tactic(auto, unfolding(crate::specs::Texts::total_line))]
fn put_total(text: &mut Text, name: &[u8], total: Total) -> Result<(), NoMemory>
    ensures { OnOk result (text.new ≡ text.old ++ total_line name.now total) }
{
    text.put(name)?;
    put_number(text, b" count ", total.count)?;
    put_number(text, b" sum ", total.sum)?;
    put_number(text, b" most ", total.most)?;
    text.put(b"\n")?;
    Ok(())
}

// The twelve ways in which a miss ends.
#[tactic(auto, unfolding(crate::specs::Texts::waits_text))]
fn put_waits(text: &mut Text, waits: &Waits) -> Result<(), NoMemory>
    ensures { OnOk result (text.new ≡ text.old ++ waits_text waits.now) }
{
    text.put(b"waits 12\n")?;
    put_home(text, waits, true)?;
    put_home(text, waits, false)?;
    Ok(())
}

#[tactic(auto, unfolding(crate::specs::Texts::home_lines))]
fn put_home(text: &mut Text, waits: &Waits, is_here: bool) -> Result<(), NoMemory>
    ensures { OnOk result (text.new ≡ text.old ++ home_lines waits.now is_here) }
{
    put_mode(text, waits, is_here, Mode::Read)?;
    put_mode(text, waits, is_here, Mode::Write)?;
    Ok(())
}

#[tactic(auto, unfolding(crate::specs::Texts::mode_lines))]
fn put_mode(text: &mut Text, waits: &Waits, is_here: bool, mode: Mode) -> Result<(), NoMemory>
    ensures { OnOk result (text.new ≡ text.old ++ mode_lines waits.now is_here mode) }
{
    put_wait(text, waits, is_here, mode, EndedBy::Hardware)?;
    put_wait(text, waits, is_here, mode, EndedBy::Handler)?;
    put_wait(text, waits, is_here, mode, EndedBy::Refusal)?;
    Ok(())
}

// Misses that ended so.
#[tactic(auto, unfolding(crate::specs::Texts::wait_line))]
fn put_wait(
    text: &mut Text,
    waits: &Waits,
    is_here: bool,
    mode: Mode,
    ended: EndedBy,
) -> Result<(), NoMemory>
    ensures { OnOk result (text.new ≡ text.old ++ wait_line waits.now is_here mode ended) }
{
    text.put(home_name(is_here))?;
    text.put(b" ")?;
    text.put(mode_name(mode).as_bytes())?;
    text.put(b" ")?;
    put_total(text, end_name(ended), waits.ended(is_here, mode, ended))?;
    Ok(())
}

fn home_name(is_here: bool) -> &'static [u8]
    ensures { result.now ≡ home_text is_here }
{
    if is_here { b"here" } else { b"elsewhere" }
}

fn end_name(ended: EndedBy) -> &'static [u8]
    ensures { result.now ≡ end_text ended }
{
    match ended {
        EndedBy::Hardware => b"hardware",
        EndedBy::Handler => b"handler",
        EndedBy::Refusal => b"busy",
    }
}

/// What the cycles of each node went to.
#[tactic(auto, unfolding(crate::specs::Texts::nodes_text))]
pub fn put_nodes(text: &mut Text, nodes: u16, cycles: u64, spent: &[Spent]) -> Result<(), NoMemory>
    ensures { OnOk result (text.new ≡ text.old ++ nodes_text nodes cycles spent.now) }
{
    put_heading(text, b"nodes", u32::from(nodes))?;
    put_node_lines(text, cycles, spent)
}

// A line for each node.
fn put_node_lines(text: &mut Text, cycles: u64, spent: &[Spent]) -> Result<(), NoMemory>
    ensures { OnOk result (text.new ≡ text.old ++ node_lines cycles 0 spent.now) }
{
    let mut node = 0;
    for each in spent {
        put_node(text, cycles, node, *each)?;
        node += 1;
    }
    Ok(())
}

#[tactic(auto, unfolding(crate::specs::Texts::node_line))]
fn put_node(text: &mut Text, cycles: u64, node: u64, spent: Spent) -> Result<(), NoMemory>
    ensures { OnOk result (text.new ≡ text.old ++ node_line cycles node spent) }
{
    text.put_decimal(node)?;
    put_busy(text, spent)?;
    put_waited(text, waiting(cycles, spent), spent)?;
    Ok(())
}

#[tactic(auto, unfolding(crate::specs::Texts::busy_text))]
fn put_busy(text: &mut Text, spent: Spent) -> Result<(), NoMemory>
    ensures { OnOk result (text.new ≡ text.old ++ busy_text spent) }
{
    put_number(text, b" turns ", spent.turns)?;
    put_number(text, b" misses ", spent.misses)?;
    put_number(text, b" switches ", spent.switches)?;
    put_number(text, b" handlers ", spent.handlers)
}

// What a node's processor waited, and what its controller took.
#[tactic(auto, unfolding(crate::specs::Texts::waited_text))]
fn put_waited(text: &mut Text, waiting: u64, spent: Spent) -> Result<(), NoMemory>
    ensures { OnOk result (text.new ≡ text.old ++ waited_text waiting spent) }
{
    put_number(text, b" waiting ", waiting)?;
    put_number(text, b" controller ", spent.controller)?;
    text.put(b"\n")?;
    Ok(())
}

// What is left of a run's cycles where a node's processor did nothing.
fn waiting(cycles: u64, spent: Spent) -> u64
    ensures { result ≡ waiting_of cycles spent }
{
    cycles
        .saturating_sub(spent.turns)
        .saturating_sub(spent.misses)
        .saturating_sub(spent.switches)
        .saturating_sub(spent.handlers)
}
