ghost use Rattle.std.specs.Prelude.{◌≡◌, ◌<◌, ◌≤◌, ◌+◌, ◌*◌, ◌^◌, ◌++◌, map, length, slice_index, IfOk, OnOk};
ghost use Rattle.sparc_place.specs.Sizes.{size_of};
ghost use Rattle.sparc_place.specs.Plans.{layout_of};
ghost use Rattle.sparc_assemble.specs.Assembly.{gathered, start_at, word_in, body_at, is_zero, data_line, starts_of, some_starts, always_at, parts_of};
ghost use Rattle.sparc_assemble.specs.Fillings.{filled_of, address_in, address_if};

use crate::addresses::Addresses;
use crate::fillings::Filling;
use crate::memory::Memory;
use alw_image::{Bodies, Code, LineList, Parts, Starts};
use alw_num::{LINE_BYTES, Line, LineNo, MOST_NODES, NoMemory, NodeNo, Sequence};
use sparc_place::Plan;
use std::alloc::Global;

// The word whose first byte stands at a place.
fn word_from(memory: &Memory, place: usize) -> u32
    requires { place < 2 ^ 60 }
    ensures { result ≡ word_in (slice_index memory.now) place }
{
    u32::from_be_bytes([
        memory.at(place),
        memory.at(place + 1),
        memory.at(place + 2),
        memory.at(place + 3),
    ])
}

// The bytes of a line of shared data.
fn body_at(memory: &Memory, number: u32) -> Line
    ensures { result ≡ body_at (slice_index memory.now) number }
{
    let from = LINE_BYTES as usize * number as usize;
    Line {
        a: word_from(memory, from),
        b: word_from(memory, from + 4),
        c: word_from(memory, from + 8),
        d: word_from(memory, from + 12),
    }
}

// All bytes of a line are 0.
fn is_zero(line: &Line) -> bool
    ensures { result ≡ is_zero line.now }
{
    line.a == 0 && line.b == 0 && line.c == 0 && line.d == 0
}

// The lines of shared data whose bytes aren't all 0.
fn bodies_of(alloc: Global, memory: &Memory, count: u32) -> Result<Bodies, NoMemory>
    ensures { IfOk result (λ bodies. bodies ≡ gathered (data_line (slice_index memory.now)) count) }
{
    let mut bodies = Bodies::empty(alloc);
    for number in 0..memory.lines(count) {
        let body = body_at(memory, number);
        if is_zero(&body) {
            continue;
        }
        bodies.push((LineNo(number), body))?;
    }
    Ok(bodies)
}

// The Trap-Always lines.
fn always_of(alloc: Global, plan: &Plan, count: u32) -> Result<LineList, NoMemory>
    ensures { IfOk result (λ lines. lines ≡ gathered (always_at (layout_of plan.now).always) count) }
{
    let mut lines = LineList::empty(alloc);
    for number in 0..count {
        if !plan.is_always(number) {
            continue;
        }
        lines.push(number)?;
    }
    Ok(lines)
}

// The address at which a context starts, or 0 where no line starts any.
fn address_if(given: bool, addresses: &Addresses, node: u16, slot: u8) -> Option<u32>
    ensures { result ≡ address_if given addresses.now node slot }
{
    if given {
        addresses.at(node, slot)
    } else {
        Some(0)
    }
}

// Appends the starts of a node.
fn node_starts(
    given: bool,
    addresses: &Addresses,
    node: u16,
    slots: u32,
    starts: &mut Starts,
) -> Result<(), NoMemory>
    requires few { slots ≤ 4 }
    requires room { length starts.old < 2 ^ 31 }
    ensures starts { OnOk result (starts.new ≡ starts.old ++ gathered (start_at (address_if given addresses.now) node) slots) }
    ensures size { OnOk result (length starts.new ≤ length starts.old + slots) }
{
    for slot in 0..slots {
        let Some(address) = address_if(given, addresses, node, slot as u8) else {
            continue;
        };
        starts.push((NodeNo(node), slot as u8, address))?;
    }
    Ok(())
}

// The starts of all contexts.
fn starts_of(
    alloc: Global,
    given: bool,
    addresses: &Addresses,
    nodes: u32,
    slots: u32,
) -> Result<Starts, NoMemory>
    requires nodes { nodes ≤ MOST_NODES }
    requires slots { slots ≤ 4 }
    ensures { IfOk result (λ starts. starts ≡ starts_of (address_if given addresses.now) nodes slots) }
{
    let mut starts = Starts::empty(alloc);
    for node in 0..nodes {
        node_starts(given, addresses, node as u16, slots, &mut starts)?;
    }
    Ok(starts)
}

// The same, where each context starts at 0 if no line starts any.
fn some_starts(
    alloc: Global,
    addresses: &Addresses,
    nodes: u32,
    slots: u32,
) -> Result<Starts, NoMemory>
    requires nodes { nodes ≤ MOST_NODES }
    requires slots { slots ≤ 4 }
    ensures { IfOk result (λ starts. starts ≡ some_starts (starts_of (address_in addresses.now) nodes slots) nodes slots) }
{
    let starts = starts_of(alloc, true, addresses, nodes, slots)?;
    if !starts.is_empty() {
        return Ok(starts);
    }
    starts_of(alloc, false, addresses, nodes, slots)
}

// The words of a program.
fn code_of(alloc: Global, words: &Sequence<(u32, u32)>) -> Result<Code, NoMemory>
    ensures { IfOk result (λ code. code ≡ map (λ word. word.0) words.now) }
{
    let mut code = Code::empty(alloc);
    for i in 0..words.len() {
        let (word, _number) = words.at(i);
        code.push(word)?;
    }
    Ok(code)
}

/// The source lines of a program's words.
pub(crate) fn lines_of(alloc: Global, words: &Sequence<(u32, u32)>) -> Result<LineList, NoMemory>
    ensures { IfOk result (λ lines. lines ≡ map (λ word. word.1) words.now) }
{
    let mut lines = LineList::empty(alloc);
    for i in 0..words.len() {
        let (_word, number) = words.at(i);
        lines.push(number)?;
    }
    Ok(lines)
}

/// The parts of the image that lines have laid down and filled in.
pub(crate) fn parts_of(alloc: Global, plan: &Plan, filling: &Filling) -> Result<Parts, NoMemory>
    ensures { IfOk result (λ parts. parts ≡ parts_of (layout_of plan.now) (filled_of filling.now)) }
{
    let sizes = plan.sizes();
    let count = sizes.lines();
    let code = code_of(alloc, &filling.words)?;
    let bodies = bodies_of(alloc, &filling.memory, count)?;
    let starts = some_starts(alloc, &filling.starts, sizes.nodes(), sizes.slots())?;
    let always = always_of(alloc, plan, count)?;
    Ok(Parts {
        width: sizes.width.unwrap_or(1),
        height: sizes.height.unwrap_or(1),
        contexts: sizes.contexts.unwrap_or(1),
        per_node: sizes.per_node.unwrap_or(1),
        code,
        bodies,
        starts,
        always,
    })
}
