ghost use Rattle.std.specs.Prelude.{◌≡◌, ◌<◌, ◌≤◌, ◌+◌, ◌*◌, ◌^◌, ◌++◌, length, map, IfOk, OnOk};
ghost use Rattle.std.specs.List.{range_with_len, AllByRecursion};
ghost use Rattle.sparc_table.specs.Table.{Fits};
ghost use Rattle.sparc_asm.specs.Words.{instr_word};
ghost use Rattle.alw_num.specs.Draws.{drawn_times};
ghost use Rattle.alw_image.specs.Numbers.{HasWords};
ghost use Rattle.alw_gen.specs.Workloads.{block, block_length, blocks, start_of_node, workload_of, most_operations, IsMesh};

use crate::operations::{ending, operation};
use alw_image::{Bodies, Code, Image, LineList, Parts, Starts};
use alw_num::{Draws, MOST_NODES, NoMemory, NodeNo};
use sparc_asm::instr_word;
use sparc_table::Instr;
use std::alloc::Global;

// Lines of shared data of each node.
const LINES: u16 = 4;

/// The workload of a seed: on each node of a mesh of `width` columns and `height` rows (1 to 16 each) one
/// context does `size` drawn operations, loads, stores, SWAPs and LDSTUBs of words that all nodes share,
/// prints its sum and halts. `size` is 1 to what `most_operations` answers.
pub fn workload(
    alloc: Global,
    seed: u64,
    width: u8,
    height: u8,
    size: u32,
) -> Result<Image, NoMemory>
    requires { IsMesh (width, height) size }
    ensures image { IfOk result (λ image. image ≡ workload_of seed width height size) }
    ensures words { IfOk result (λ image. HasWords image) }
{
    let parts = parts_of(alloc, seed, width, height, size)?;
    Ok(Image::checked(parts))
}

/// The most operations of each node of a workload: 255 on a mesh of at most 8 columns and 8 rows, and 63 on
/// a wider or higher one, whose code would else have more words than an image may.
pub fn most_operations(width: u8, height: u8) -> u32
    ensures { result ≡ most_operations width height }
{
    if width <= 8 && height <= 8 { 255 } else { 63 }
}

// The parts of a workload.
#[tactic(auto, unfolding(crate::specs::Workloads::workload_of))]
fn parts_of(alloc: Global, seed: u64, width: u8, height: u8, size: u32) -> Result<Parts, NoMemory>
    requires { IsMesh (width, height) size }
    ensures { IfOk result (λ parts. parts ≡ workload_of seed width height size) }
{
    let nodes = u32::from(width) * u32::from(height);
    Ok(Parts {
        width,
        height,
        contexts: 1,
        per_node: LINES,
        code: code_of(alloc, seed, nodes, size)?,
        bodies: Bodies::empty(alloc),
        starts: starts_of(alloc, nodes, size)?,
        always: LineList::empty(alloc),
    })
}

// The code of so many nodes.
fn code_of(alloc: Global, seed: u64, nodes: u32, size: u32) -> Result<Code, NoMemory>
    requires some { 1 ≤ nodes }
    requires few { nodes ≤ MOST_NODES }
    requires size { size ≤ 255 }
    requires room { length (blocks (4 * nodes) size nodes seed) ≤ 65536 }
    ensures { IfOk result (λ code. code ≡ map instr_word (blocks (4 * nodes) size nodes seed)) }
{
    let mut code = Code::empty(alloc);
    let mut draws = Draws { state: seed };
    for _node in 0..nodes {
        put_block(&mut code, &mut draws, u32::from(LINES) * nodes, size)?;
    }
    Ok(code)
}

// Appends what one node does.
fn put_block(code: &mut Code, draws: &mut Draws, lines: u32, size: u32) -> Result<(), NoMemory>
    requires some { 1 ≤ lines }
    requires few { lines ≤ 1024 }
    requires size { size ≤ 255 }
    requires room { length code.old + block_length size ≤ 65536 }
    ensures code { OnOk result (code.new ≡ code.old ++ map instr_word (block lines size draws.old.state)) }
    ensures draws { OnOk result (draws.new.state ≡ drawn_times size draws.old.state) }
{
    for _operation in 0..size {
        put(code, &operation(lines, draws.draw()))?;
    }
    put(code, &ending())
}

// Appends the words of instructions.
fn put(code: &mut Code, instructions: &[Instr]) -> Result<(), NoMemory>
    requires fits { AllByRecursion Fits instructions.now }
    requires room { length code.old + length instructions.now < 2 ^ 32 }
    ensures { OnOk result (code.new ≡ code.old ++ map instr_word instructions.now) }
{
    for instr in instructions {
        code.push(instr_word(instr))?;
    }
    Ok(())
}

// The starts of so many nodes, each at its own block.
fn starts_of(alloc: Global, nodes: u32, size: u32) -> Result<Starts, NoMemory>
    requires nodes { nodes ≤ MOST_NODES }
    requires size { size ≤ 255 }
    ensures { IfOk result (λ starts. starts ≡ map (start_of_node size) (range_with_len 0 nodes)) }
{
    let mut starts = Starts::empty(alloc);
    for node in 0..nodes {
        starts.push((NodeNo(node as u16), 0, 4 * (4 * size + 3) * node))?;
    }
    Ok(starts)
}
