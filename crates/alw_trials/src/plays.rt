use alw_image::{Bodies, Code, Image, LineList, Params, Parts, Starts};
use alw_mesh::Machine;
use alw_msg::{Entry, Event};
use alw_num::NodeNo;
use std::alloc::Global;
use std::test::Fail;

/// A worked run as text, so that a proof of a test has no more of it than a few strings.
///
/// `sizes` has the width of a row of nodes, contexts, lines, hardware pointers, sets and event limit;
/// `code` its words in hexadecimal; `starts` a node, a slot and an address for each context. There is no data,
/// and no Trap-Always line. `rows` are events, parted by ', ': each its stamp, and `I node`, `D from to`,
/// `H node` or `E node set`.
#[derive(Clone, Copy)]
pub struct Play {
    pub sizes: &'static str,
    pub code: &'static str,
    pub starts: &'static str,
    pub rows: &'static str,
}

// The word of a row at this place, from 0. Empty where the row has none there.
fn word(row: &str, place: usize) -> &str {
    row.split(' ').nth(place).unwrap_or("")
}

// The number that a word spells, in this base.
fn number_in(base: u32, word: &str) -> u32 {
    let mut number = 0u32;
    for byte in word.as_bytes() {
        let digit = match *byte {
            b'0'..=b'9' => *byte - b'0',
            b'a'..=b'f' => *byte - b'a' + 10,
            _ => 0,
        };
        number = number.wrapping_mul(base).wrapping_add(u32::from(digit));
    }
    number
}

// The number at a place of a row.
fn number(row: &str, place: usize) -> u32 {
    number_in(10, word(row, place))
}

fn short(row: &str, place: usize) -> u16 {
    (number(row, place) % 65_536) as u16
}

fn byte(row: &str, place: usize) -> u8 {
    (number(row, place) % 256) as u8
}

fn node(row: &str, place: usize) -> NodeNo {
    NodeNo(short(row, place))
}

// The words of a program.
fn code_of(alloc: Global, text: &str) -> Result<Code, Fail> {
    let mut code = Code::empty(alloc);
    for word in text.split(' ') {
        if code.len() < 100 {
            code.push(number_in(16, word))?;
        }
    }
    Ok(code)
}

// The starts of contexts.
fn starts_of(alloc: Global, text: &str) -> Result<Starts, Fail> {
    let mut starts = Starts::empty(alloc);
    for start in text.split(", ") {
        if starts.len() < 100 {
            starts.push((node(start, 0), byte(start, 1), number(start, 2)))?;
        }
    }
    Ok(starts)
}

// The parts of the image of a run.
fn parts_of(alloc: Global, play: &Play) -> Result<Parts, Fail> {
    let code = code_of(alloc, play.code)?;
    let starts = starts_of(alloc, play.starts)?;
    Ok(Parts {
        width: byte(play.sizes, 0),
        height: 1,
        contexts: byte(play.sizes, 1),
        per_node: short(play.sizes, 2),
        code,
        bodies: Bodies::empty(alloc),
        starts,
        always: LineList::empty(alloc),
    })
}

// The image of a run.
fn image_of(alloc: Global, play: &Play) -> Result<Image, Fail> {
    Ok(Image::from_parts(parts_of(alloc, play)?).ok_or("no image")?)
}

// The parameters of a run.
fn params_of(play: &Play) -> Result<Params, Fail> {
    let (pointers, sets, limit) = (
        short(play.sizes, 3),
        number(play.sizes, 4),
        number(play.sizes, 5),
    );
    Ok(Params::new(pointers, sets, limit, 0).ok_or("no parameters")?)
}

/// The machine of a run, at its start.
pub fn started(alloc: Global, play: &Play) -> Result<Machine, Fail> {
    let image = image_of(alloc, play)?;
    Ok(Machine::start(alloc, &image, &params_of(play)?)?)
}

/// The event of a row.
pub fn event_of(row: &str) -> Option<Event> {
    match word(row, 1) {
        "I" => Some(Event::Instr { node: node(row, 2) }),
        "D" => Some(Event::Deliver {
            from: node(row, 2),
            to: node(row, 3),
        }),
        "H" => Some(Event::Handle { node: node(row, 2) }),
        "E" => Some(Event::Evict {
            node: node(row, 2),
            set: number(row, 3),
        }),
        _ => None,
    }
}

/// The event of a row with its stamp.
pub fn entry_of(row: &str) -> Option<Entry> {
    Some(Entry {
        stamp: number(row, 0),
        event: event_of(row)?,
    })
}

// The event of a row may be next, and gets its stamp.
fn takes(machine: &mut Machine, row: &str) -> Result<bool, Fail> {
    let entry = entry_of(row).ok_or("no entry")?;
    if !machine.may(entry.event) {
        return Ok(false);
    }
    machine.step(entry.event)?;
    Ok(machine.journal().members().last() == Some(&entry))
}

/// A machine goes through rows. Fails at the first that isn't as the machine has it.
pub fn goes(machine: &mut Machine, rows: &str) -> Result<(), Fail> {
    for row in rows.split(", ") {
        if !takes(machine, row)? {
            return Err(row.into());
        }
    }
    Ok(())
}
