ghost use Rattle.std.specs.Prelude.{◌≡◌, ◌<◌, ◌^◌};
ghost use Rattle.alw_work.specs.Turns.{Turns, TakesSteps};

use crate::gates::Gate;
use crate::paces::Pace;
use crate::ready::{Counting, Ready};
use crate::seats::{Locked, Naming};
use crate::signs::Signs;
use alw_num::{Draws, NoMemory, NodeNo};
use alw_ruled::Link;
use std::alloc::Global;
use std::sync::{Mutex, Wait};
use std::thread;
use std::thread::Threads;

// A worker ends after so many visits in a row at nodes that were idle.
const MOST_IDLE: u32 = 1024;

// The most turns that a worker takes at a node before it gives the node back.
const MOST_TURNS: u32 = 16;

// The most instructions that run in a row behind a turn.
const MOST_RUN: u32 = 64;

// A worker that was held back so often in a row gives way to other threads.
const MOST_HELD: u32 = 16;

// What a visit of a node came to: the node did something, or nothing; or it was too far ahead, and wasn't
// looked at.
#[derive(Clone, Copy)]
enum VisitEnd {
    Acted,
    Idle,
    Held,
}

/// Steps so many nodes on so many threads, until each worker has ended. Where a thread can't be made its
/// worker works when the others have ended.
pub fn work<I: Naming + Counting + Send + Sync, R: Threads + Wait + Sync, G: Gate>(
    rt: &R,
    alloc: Global,
    locks: &[Mutex<Locked<I>>],
    links: &[Link],
    nodes: u16,
    workers: u32,
    gate: &G,
) -> Result<(), NoMemory>
    requires some { 0 < nodes }
    requires counted { nodes ≡ I.nodes }
    requires links { links.now ≡ I.links }
{
    let (ready, _filler) = Ready::<I>::start(rt, alloc, u32::from(nodes))?;
    let signs = Signs::none(alloc, nodes, workers)?;
    let (queue, told) = (&ready, &signs);
    let ends = thread::map_indices(
        rt,
        alloc,
        workers as usize,
        &|k: usize| -> Result<(), NoMemory>
            requires { (k < 2 ^ 32) × (links.now ≡ I.links) }
        {
            worker::<I, R, G>(
                rt,
                locks,
                links,
                queue,
                told,
                gate,
                k as u32,
                u32::from(nodes),
            )
        },
    )?;
    for end in &ends {
        (*end)?;
    }
    Ok(())
}

// Worker number k of a machine of so many nodes. It takes a node that no worker has, takes turns at it with picks of
// its own draws, and gives it back. It ends after enough visits in a row at idle nodes, where no node is left to it,
// after a trap, and where memory is refused. A node that is held back isn't idle: another goes on. Where it has met
// enough of these it gives way, since a thread that the system holds back may have that other. It has no number then.
fn worker<I: Naming + Counting, R: Wait, G: Gate>(
    rt: &R,
    locks: &[Mutex<Locked<I>>],
    links: &[Link],
    ready: &Ready<I>,
    signs: &Signs,
    gate: &G,
    k: u32,
    nodes: u32,
) -> Result<(), NoMemory>
    requires { links.now ≡ I.links }
{
    let mut pass = ready.pass(rt)?;
    let mut draws = Draws {
        state: u64::from(k),
    };
    let mut pace = Pace::start(nodes);
    let mut idle = 0u32;
    let mut held = 0u32;
    for _ in rt.forever() {
        if idle >= MOST_IDLE || signs.has_stopped() {
            return Ok(());
        }
        let Some(node) = ready.take(rt, &mut pass) else {
            return Ok(());
        };
        let Some(lock) = locks.get(usize::from(node.0)) else {
            return Ok(());
        };
        match visit(
            rt,
            lock,
            links,
            signs,
            gate,
            (k, node),
            &mut draws,
            &mut pace,
        )? {
            VisitEnd::Acted => {
                idle = 0;
                held = 0;
            }
            VisitEnd::Idle => idle += 1,
            VisitEnd::Held => {
                idle = 0;
                held = held.saturating_add(1);
            }
        }
        ready.give(rt, &mut pass);
        if held >= MOST_HELD {
            held = 0;
            thread::yield_now();
        }
    }
    Ok(())
}

// Turns of a worker at a node, one after the other, each before instructions in a row: until one is idle, or there
// were enough of them or of instructions, or the node is too far ahead of another, or all are to stop. The gate is
// passed before the lock is taken, so that a worker that waits there holds none. The lock is held for all the turns:
// the queue gave the node to this worker alone, so nobody waits for it, while an unlock waits until all that a turn
// stored is written.
fn visit<I: Naming, R: Wait, G: Gate>(
    rt: &R,
    lock: &Mutex<Locked<I>>,
    links: &[Link],
    signs: &Signs,
    gate: &G,
    place: (u32, NodeNo),
    draws: &mut Draws,
    pace: &mut Pace,
) -> Result<VisitEnd, NoMemory>
    requires { links.now ≡ I.links }
{
    let (worker, node) = place;
    gate.pass(worker, u32::from(node.0));
    let mut seat = lock.lock(rt);
    if signs.is_held(node, seat.clock()) {
        return Ok(VisitEnd::Held);
    }
    let mut did = VisitEnd::Idle;
    let mut left = pace.most();
    let mut rests = false;
    for _ in 0..MOST_TURNS {
        if !turn(rt, &mut seat, links, signs, draws.draw())? {
            rests = !seat.has_more();
            break;
        }
        did = VisitEnd::Acted;
        if signs.has_stopped() || signs.is_ahead(seat.clock()) {
            break;
        }
        left = left.saturating_sub(run(&mut seat, signs, left.min(MOST_RUN))?);
        if left == 0 {
            break;
        }
    }
    if rests {
        signs.rests(node);
    } else {
        signs.goes_on(node, seat.clock());
    }
    pace.pass(seat.take_moved());
    Ok(did)
}

// At most so many instructions in a row at a node. Answers how many. Want of memory stops all workers.
#[inline(always)]
fn run<I: Naming>(seat: &mut Locked<I>, signs: &Signs, most: u32) -> Result<u32, NoMemory>
    ensures { TakesSteps most seat.old seat.new result }
{
    let ran = seat.run(most);
    if ran.is_err() {
        signs.stop();
    }
    ran
}

// One turn at a node. Answers whether the node did anything. Want of memory stops all workers.
#[inline(always)]
fn turn<I: Naming, R: Wait>(
    rt: &R,
    seat: &mut Locked<I>,
    links: &[Link],
    signs: &Signs,
    pick: u32,
) -> Result<bool, NoMemory>
    requires { links.now ≡ I.links }
    ensures { Turns pick seat.old seat.new result }
{
    let turned = seat.turn(rt, links, signs, pick);
    if turned.is_err() {
        signs.stop();
    }
    turned
}
