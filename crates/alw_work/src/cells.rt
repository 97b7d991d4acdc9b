ghost use Rattle.std.specs.Prelude.{◌≡◌, ◌<◌, ◌^◌, vec_len, IfOk, OnOk};
ghost use Rattle.alw_work.specs.Seats.{AreCells, CellsAreAlone, CellsAreSplit, CellFinishes, CellsAreFinished};

use alw_cells::{CellParts, DidLists, Logs, NodeCell, Stepped, Worked};
use alw_image::{Image, Params};
use alw_node::{Nodes, Program};
use alw_num::{Draws, NoMemory, NodeNo};
use std::alloc::Global;
use std::sync::Arc;

/// The cells of all nodes at the start of an image.
pub fn start_all(alloc: Global, image: &Image, params: &Params) -> Result<Vec<NodeCell>, NoMemory>
    ensures cells { IfOk result (λ cells. AreCells image.now params.now cells.items) }
    ensures alone { IfOk result (λ cells. CellsAreAlone cells.items) }
{
    let program = Arc::new(alloc, Program::of(image.code())?)?;
    let count = image.nodes();
    let mut cells = Vec::with_capacity(alloc, usize::from(count))?;
    for n in 0..count {
        let cell = NodeCell::start_shared(alloc, image, params, NodeNo(n), &program)?;
        let _stands = cell.log(); // for its clause
        cells.push_reserved(cell);
    }
    Ok(cells)
}

/// Steps the cells one after the other, each until it is idle.
pub fn finish_all(cells: &mut Vec<NodeCell>, state: u64) -> Result<(), NoMemory>
    ensures { OnOk result (CellsAreFinished cells.old.items cells.new.items) }
{
    let mut draws = Draws { state };
    for n in 0..cells.len() {
        finish(&mut cells[n], &mut draws)?;
    }
    Ok(())
}

/// What the cells were of, in order.
pub fn split_all(alloc: Global, cells: Vec<NodeCell>) -> Result<Worked, NoMemory>
    requires { vec_len cells < 2 ^ 32 }
    ensures { IfOk result (λ worked. CellsAreSplit cells.items worked) }
{
    let mut logs = Logs::empty(alloc);
    let mut nodes = Nodes::empty(alloc);
    let mut did_lists = DidLists::empty(alloc);
    for cell in cells {
        let CellParts { node, log, dids } = cell.split();
        logs.push(log)?;
        nodes.push(node)?;
        did_lists.push(dids)?;
    }
    Ok(Worked {
        logs,
        nodes,
        dids: did_lists,
    })
}

// Steps a cell until it is idle. Each step has a greater stamp, and none is past the limit.
fn finish(cell: &mut NodeCell, draws: &mut Draws) -> Result<(), NoMemory>
    ensures { OnOk result (CellFinishes cell.old cell.new) }
{
    loop {
        let _stands = cell.log(); // for its clause
        match cell.step(draws.draw())? {
            Stepped::Did { .. } => {}
            Stepped::Idle => return Ok(()),
        }
    }
}
