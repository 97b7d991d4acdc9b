ghost use Rattle.std.specs.Prelude.{◌≡◌, ◌<◌, ◌++◌, OnOk};
ghost use Rattle.alw_image.specs.Images.{node_count, line_count};
ghost use Rattle.alw_memory.specs.Views.{IsViewOf};
ghost use Rattle.alw_model.specs.LimitLess.{Directory};
ghost use Rattle.alw_model.specs.LineInvariant.{same_line};
ghost use Rattle.alw_mesh.specs.Histories.{state_of};
ghost use Rattle.alw_save.specs.Lines.{home_states, home_line};
ghost use Rattle.alw_save.specs.States.{begins_so, is_read_only, is_as_begun, home_text, homes_text};

use crate::pieces::put_body;
use alw_memory::HomeView;
use alw_mesh::Machine;
use alw_num::{Line, LineNo, Meta, NoMemory, NodeNo, State};
use alw_report::{meta_name, put_pointers, state_name};
use alw_text::{Text, put_number};

/// The home lines of a node that differ from their start, ascending.
pub fn put_homes(text: &mut Text, machine: &Machine, n: NodeNo) -> Result<(), NoMemory>
    requires { n.0 < node_count machine.now.image }
    ensures { OnOk result (text.new ≡ text.old ++ homes_text machine.now.image (state_of machine.now) n.0) }
{
    let per_node = u32::from(machine.image().per_node());
    let first = u32::from(n.0) * per_node;
    for place in 0..per_node {
        put_changed(text, machine, LineNo(first + place))?;
    }
    Ok(())
}

// A home line, where it differs from its start.
fn put_changed(text: &mut Text, machine: &Machine, line: LineNo) -> Result<(), NoMemory>
    requires { line.0 < line_count machine.now.image }
    ensures { OnOk result (text.new ≡ text.old ++ home_text machine.now.image (state_of machine.now) line.0) }
{
    let image = machine.image();
    let home = machine.home(line);
    if is_as_begun(&image.body(line), image.always(line), &home) {
        return Ok(());
    }
    put_home(text, line, &home)
}

// An entry is as at the start, where its line begins with these bytes and may be listed as Trap-Always.
fn is_as_begun(body: &Line, always: bool, home: &HomeView) -> bool
    ensures { (entry : Directory) → IsViewOf home.now entry → result ≡ is_as_begun body.now always entry }
{
    is_read_only(home.state)
        && begins_so(always, home.meta)
        && home.hw.count() == 0
        && home.sw.count() == 0
        && home.acks == 0
        && is_same(&home.body, body)
}

fn is_read_only(state: State) -> bool
    ensures { result ≡ is_read_only state }
{
    matches!(state, State::RO)
}

// The meta state with which a line begins, which may be listed as Trap-Always.
fn begins_so(always: bool, meta: Meta) -> bool
    ensures { result ≡ begins_so always meta }
{
    match meta {
        Meta::Normal => !always,
        Meta::TrapAlways => always,
        Meta::Progress | Meta::TrapWrite => false,
    }
}

fn is_same(one: &Line, other: &Line) -> bool
    ensures { result ≡ same_line one.now other.now }
{
    one.a == other.a && one.b == other.b && one.c == other.c && one.d == other.d
}

// The entry of a home line.
fn put_home(text: &mut Text, line: LineNo, home: &HomeView) -> Result<(), NoMemory>
    ensures { OnOk result ((entry : Directory) → IsViewOf home.now entry → text.new ≡ text.old ++ home_line line.0 entry) }
{
    put_states(text, line, home)?;
    put_pointers(text, home.hw, home.sw, home.acks)?;
    put_body(text, &home.body)?;
    text.put(b"\n")?;
    Ok(())
}

// The line and its states.
#[tactic(auto, unfolding(crate::specs::Lines::home_states))]
fn put_states(text: &mut Text, line: LineNo, home: &HomeView) -> Result<(), NoMemory>
    ensures { OnOk result ((entry : Directory) → IsViewOf home.now entry → text.new ≡ text.old ++ home_states line.0 entry) }
{
    put_number(text, b"home ", u64::from(line.0))?;
    text.put(b" ")?;
    text.put(state_name(home.state).as_bytes())?;
    text.put(b" ")?;
    text.put(meta_name(home.meta).as_bytes())?;
    Ok(())
}
