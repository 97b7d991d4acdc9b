ghost use Rattle.std.specs.Prelude.{◌≡◌, ◌<◌, ◌≤◌, ◌*◌, ◌+◌, ◌^◌, ◌↔◌, length, IsTrue, None};
ghost use Rattle.alw_image.specs.Images.{IsImage, node_count, line_count, context_count, context_started};
ghost use Rattle.alw_image.specs.Faults.{is_within, is_above, fits_body, fits_start, fits_line, body_key, line_key, table_fault, tables_fault};
ghost use Rattle.alw_image.specs.Sizes.{HasSizes, has_sizes, has_sides, has_counts};

use crate::faults::ImageErr;
use crate::headers::is_within;
use crate::images::context_of;
use crate::parts::Parts;
use alw_num::{Line, LineNo, MOST_NODES, MOST_SIDE, NodeNo};

// How many nodes, contexts of each and code words a start is tested against.
#[derive(Clone, Copy, PartialEq, Eq)]
struct Mesh {
    nodes: u32,
    contexts: u8,
    words: u32,
}

// The parts are an image's.
pub fn is_image(parts: &Parts) -> bool
    ensures { IsTrue result ↔ IsImage parts.now }
{
    if !has_sizes(parts) {
        return false;
    }
    tables_fault(parts, 0, 0, 0).is_none()
}

// The sizes are within their ranges, and the tables have no more members than the machine has lines
// and contexts.
fn has_sizes(parts: &Parts) -> bool
    ensures { result ≡ has_sizes parts.now }
{
    has_sides(parts) && has_counts(parts)
}

// The sizes of the mesh and of a node are within their ranges.
fn has_sides(parts: &Parts) -> bool
    ensures { result ≡ has_sides parts.now }
{
    let most = u32::from(MOST_SIDE);
    is_within(1, most, u32::from(parts.width))
        && is_within(1, most, u32::from(parts.height))
        && is_within(1, 4, u32::from(parts.contexts))
        && is_within(1, 4096, u32::from(parts.per_node))
}

// The tables have as many members as they may.
fn has_counts(parts: &Parts) -> bool
    requires { IsTrue (has_sides parts.now) }
    ensures { result ≡ has_counts parts.now }
{
    let nodes = u32::from(parts.width) * u32::from(parts.height);
    let lines = nodes * u32::from(parts.per_node);
    let contexts = nodes * u32::from(parts.contexts);
    is_within(1, 65536, parts.code.len())
        && is_within(0, lines, parts.bodies.len())
        && is_within(1, contexts, parts.starts.len())
        && is_within(0, lines, parts.always.len())
}

// The first member of the three tables, which stand at these places, that is out of range or out of
// order.
pub fn tables_fault(
    parts: &Parts,
    bodies_at: u32,
    starts_at: u32,
    always_at: u32,
) -> Option<ImageErr>
    requires sizes { IsTrue (has_sizes parts.now) }
    requires bodies { bodies_at + 20 * length parts.now.bodies < 2 ^ 32 }
    requires starts { starts_at + 8 * length parts.now.starts < 2 ^ 32 }
    requires always { always_at + 4 * length parts.now.always < 2 ^ 32 }
    ensures { result ≡ tables_fault parts.now bodies_at starts_at always_at }
{
    let nodes = u32::from(parts.width) * u32::from(parts.height);
    let lines = nodes * u32::from(parts.per_node);
    if let Some(fault) = bodies_fault(parts.bodies.members(), lines, bodies_at) {
        return Some(fault);
    }
    let mesh = Mesh {
        nodes,
        contexts: parts.contexts,
        words: parts.code.len(),
    };
    if let Some(fault) = starts_fault(parts.starts.members(), mesh, starts_at) {
        return Some(fault);
    }
    always_fault(parts.always.members(), lines, always_at)
}

// The first data line that is out of range or out of order.
fn bodies_fault(bodies: &[(LineNo, Line)], lines: u32, at: u32) -> Option<ImageErr>
    requires { at + 20 * length bodies.now < 2 ^ 32 }
    ensures { result ≡ table_fault (fits_body lines) body_key 20 at None bodies.now }
{
    let mut here = at;
    let mut before = None;
    for body in bodies {
        if !fits_body(body, lines) {
            return Some(ImageErr::Range { at: here });
        }
        if !is_above(before, body.0.0) {
            return Some(ImageErr::Order { at: here });
        }
        before = Some(body.0.0);
        here += 20;
    }
    None
}

// The first start that is out of range or out of order.
fn starts_fault(starts: &[(NodeNo, u8, u32)], mesh: Mesh, at: u32) -> Option<ImageErr>
    requires nodes { mesh.nodes ≤ MOST_NODES }
    requires words { mesh.words ≤ 65536 }
    requires room { at + 8 * length starts.now < 2 ^ 32 }
    ensures { result ≡ table_fault (fits_start mesh.nodes mesh.contexts mesh.words) (λ start. start.0.0 * mesh.contexts + start.1) 8 at None starts.now }
{
    let mut here = at;
    let mut before = None;
    for start in starts {
        if !fits_start(start, mesh) {
            return Some(ImageErr::Range { at: here });
        }
        let context = context_of(start, mesh.contexts);
        if !is_above(before, context) {
            return Some(ImageErr::Order { at: here });
        }
        before = Some(context);
        here += 8;
    }
    None
}

// The first Trap-Always line that is out of range or out of order.
fn always_fault(always: &[u32], lines: u32, at: u32) -> Option<ImageErr>
    requires { at + 4 * length always.now < 2 ^ 32 }
    ensures { result ≡ table_fault (fits_line lines) line_key 4 at None always.now }
{
    let mut here = at;
    let mut before = None;
    for line in always {
        if *line >= lines {
            return Some(ImageErr::Range { at: here });
        }
        if !is_above(before, *line) {
            return Some(ImageErr::Order { at: here });
        }
        before = Some(*line);
        here += 4;
    }
    None
}

// A data line exists, and its bytes aren't all 0.
fn fits_body(entry: &(LineNo, Line), lines: u32) -> bool
    ensures { result ≡ fits_body lines entry.now }
{
    entry.0.0 < lines && entry.1 != Line::ZERO
}

// A start is of a context that exists, at a code word.
fn fits_start(start: &(NodeNo, u8, u32), mesh: Mesh) -> bool
    requires { mesh.words ≤ 65536 }
    ensures { result ≡ fits_start mesh.nodes mesh.contexts mesh.words start.now }
{
    u32::from(start.0.0) < mesh.nodes
        && start.1 < mesh.contexts
        && start.2 % 4 == 0
        && start.2 < 4 * mesh.words
}

// A key is above the one before it, if there is one.
fn is_above(before: Option<u32>, key: u32) -> bool
    ensures { result ≡ is_above before key }
{
    match before {
        Some(before) => before < key,
        None => true,
    }
}
