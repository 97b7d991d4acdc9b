use crate::images::{LINK_TO_ITSELF, ONE_NODE, Sizes, image_of};
use alw_cells::{Cursor, Log, NodeCell, Stepped};
use alw_image::{Image, Params, Starts};
use alw_msg::{Entry, Event, Kind, Msg};
use alw_num::NodeNo;
use std::alloc::Global;
use std::test::Fail;

const NODE: NodeNo = NodeNo(0);

// The image of a machine of one node.
fn lone_image(alloc: Global) -> Result<Image, Fail> {
    let sizes = Sizes {
        per_node: 4,
        ..ONE_NODE
    };
    let starts = Starts::from_slice(alloc, &[(NODE, 0, 0)])?;
    image_of(alloc, sizes, &LINK_TO_ITSELF, starts, &[])
}

// The first node of a machine, at its start.
fn first_cell(alloc: Global, image: &Image, params: &Params) -> Result<NodeCell, Fail> {
    let count = u16::from(image.width()) * u16::from(image.height());
    if count == 0 {
        return Err("no node".into());
    }
    Ok(NodeCell::start(alloc, image, params, NODE)?)
}

// The only node of a machine, at its start.
fn lone_cell(alloc: Global) -> Result<NodeCell, Fail> {
    let params = Params::new(4, 64, 100, 0).ok_or("no parameters")?;
    first_cell(alloc, &lone_image(alloc)?, &params)
}

// Steps a cell, and gives what it sends back to it, until it is idle: how many events that are.
fn run_alone(cell: &mut NodeCell) -> Result<u32, Fail> {
    for count in 0..100 {
        let own = cell.number();
        if let Some(msg) = cell.give_out(own) {
            cell.take_in(own, msg)?;
        }
        if cell.step(0)? == Stepped::Idle {
            return Ok(count);
        }
    }
    Err("it goes on".into())
}

// The next entry of a log.
fn next_of(reading: &mut Cursor<'_>) -> Option<Entry> {
    reading.next()
}

// What the last entry that was read takes.
fn taken_of(reading: &Cursor<'_>) -> Option<Msg> {
    reading.taken()
}

// What it sends as its message i.
fn sent_of(reading: &Cursor<'_>, i: u32) -> Option<(NodeNo, Msg)> {
    reading.sent(i)
}

// A cell hasn't trapped, and has nothing to give out.
fn is_at_rest(cell: &NodeCell) -> bool {
    !cell.has_trapped() && cell.first_out().is_none()
}

// The log of a cell.
fn log_of(cell: NodeCell) -> Log {
    cell.into_log()
}

// A turn of the node.
fn turn(stamp: u32) -> Entry {
    let event = Event::Instr { node: NODE };
    Entry { stamp, event }
}

// Its link to itself brings it a message.
fn comes(stamp: u32) -> Entry {
    let (from, to) = (NODE, NODE);
    let event = Event::Deliver { from, to };
    Entry { stamp, event }
}

// Its request and the answer go over its link to itself, and its log tells what it sent and took.
#[test]
fn a_node_works_on_what_it_sends_itself(rt: HostRuntime) -> Result<(), Fail> {
    let mut cell = lone_cell(rt.alloc())?;
    assert_eq!(rt; run_alone(&mut cell)?, 10);
    assert!(rt; is_at_rest(&cell));
    let log = log_of(cell);
    assert_eq!(rt; log.len(), 10);
    let mut reading = log.cursor();
    assert_eq!(rt; taken_of(&reading), None);
    assert_eq!(rt; next_of(&mut reading), Some(turn(1)));
    assert_eq!(rt; next_of(&mut reading), Some(turn(2)));
    assert_eq!(rt; sent_of(&reading, 0), None);
    assert_eq!(rt; next_of(&mut reading), Some(turn(3)));
    let (to, request) = sent_of(&reading, 0).ok_or("no request")?;
    assert_eq!(rt; (to, request.kind), (NODE, Kind::WREQ));
    assert_eq!(rt; sent_of(&reading, 1), None);
    assert_eq!(rt; next_of(&mut reading), Some(comes(4)));
    assert_eq!(rt; taken_of(&reading), Some(request));
    Ok(())
}
