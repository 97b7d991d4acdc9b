use crate::images::{ONE_NODE, Sizes, image_of};
use alw_cells::{Logs, links_agree};
use alw_config::Form;
use alw_image::{Image, Params, Starts};
use alw_num::NodeNo;
use alw_threads::work_bytes;
use alw_work::{Counting, Gate, OpenGate, Ready, run_workers};
use std::alloc::{AllocGlobal, Global};
use std::sync::Wait;
use std::sync::atomic::{AtomicBool, AtomicU32, Ordering};
use std::test::Fail;
use std::thread;
use std::thread::Threads;

// A context stores 0 to the first address of shared data, loads from it, and prints what it loaded.
const STORE_LOAD_PRINT: [u32; 5] = [
    0x0310_0000,
    0xd220_4000,
    0xd000_4000,
    0x91d0_2001,
    0x91d0_2000,
];

// An image of four nodes, each of which does the same.
const FOUR_NODES: [u8; 84] = [
    0x41, 0x4c, 0x45, 0x57, 0x00, 0x01, 0x02, 0x02, 0x01, 0x00, 0x00, 0x01, 0x00, 0x00, 0x00, 0x06,
    0x00, 0x00, 0x00, 0x00, 0x00, 0x00, 0x00, 0x04, 0x00, 0x00, 0x00, 0x00, 0x03, 0x10, 0x00, 0x00,
    0x82, 0x10, 0x60, 0x00, 0xc0, 0x20, 0x40, 0x00, 0xd0, 0x00, 0x40, 0x00, 0x91, 0xd0, 0x20, 0x01,
    0x91, 0xd0, 0x20, 0x00, 0x00, 0x00, 0x00, 0x00, 0x00, 0x00, 0x00, 0x00, 0x00, 0x01, 0x00, 0x00,
    0x00, 0x00, 0x00, 0x00, 0x00, 0x02, 0x00, 0x00, 0x00, 0x00, 0x00, 0x00, 0x00, 0x03, 0x00, 0x00,
    0x00, 0x00, 0x00, 0x00,
];

// How often two workers have to meet at a gate.
const MEETINGS: u32 = 3;

// A gate of two workers, which each passes only when the other has come to it as often, or behind so many tries.
// Who is alone doesn't come through.
#[derive(Drop)]
struct MeetingGate {
    first: AtomicU32,
    second: AtomicU32,
    was_alone: AtomicBool,
}

impl Gate for MeetingGate {
    fn pass(&self, worker: u32, _node: u32) {
        let (own, other) = if worker == 0 {
            (&self.first, &self.second)
        } else {
            (&self.second, &self.first)
        };
        let came = own.load(Ordering::SeqCst);
        if came >= MEETINGS || self.was_alone.load(Ordering::SeqCst) {
            return;
        }
        own.store(came + 1, Ordering::SeqCst);
        for _ in 0..1_000_000 {
            if other.load(Ordering::SeqCst) > came {
                return;
            }
            thread::yield_now();
        }
        self.was_alone.store(true, Ordering::SeqCst);
    }
}

// A gate that holds worker 0 in its first pass until worker 1 has passed, or for so many tries.
#[derive(Drop)]
struct HoldingGate {
    has_held: AtomicBool,
    has_passed: AtomicBool,
    was_passed: AtomicBool,
}

impl Gate for HoldingGate {
    fn pass(&self, worker: u32, _node: u32) {
        if worker == 1 {
            self.has_passed.store(true, Ordering::SeqCst);
        }
        if worker != 0 || self.has_held.swap(true, Ordering::SeqCst) {
            return;
        }
        for _ in 0..1_000_000 {
            if self.has_passed.load(Ordering::SeqCst) {
                self.was_passed.store(true, Ordering::SeqCst);
                return;
            }
            thread::yield_now();
        }
    }
}

// Such a gate, before the first pass.
fn holding_gate() -> HoldingGate {
    HoldingGate {
        has_held: AtomicBool::new(false),
        has_passed: AtomicBool::new(false),
        was_passed: AtomicBool::new(false),
    }
}

// A queue of one node.
struct One;

impl Counting for One {
    ghost nodes = { 1 };
}

// Each node stores to one line, loads from it and prints.
fn writers(alloc: Global, width: u8, height: u8) -> Result<Image, Fail> {
    let mut starts = Starts::empty(alloc);
    for node in 0..u16::from(width.min(16)) * u16::from(height.min(16)) {
        if starts.len() < 256 {
            starts.push((NodeNo(node), 0, 0))?;
        }
    }
    let sizes = Sizes {
        width,
        height,
        ..ONE_NODE
    };
    image_of(alloc, sizes, &STORE_LOAD_PRINT, starts, &[])
}

// What so many workers log of an image.
fn logs_of(
    rt: &(impl Threads + Wait + Sync + AllocGlobal),
    image: &Image,
    params: &Params,
    workers: u32,
    gate: &impl Gate,
) -> Result<Logs, Fail> {
    Ok(run_workers(rt, rt.alloc(), image, params, workers, gate)?.logs)
}

// The fewest events that a node logged.
fn fewest_events(logs: &Logs) -> u32 {
    let mut fewest = u32::MAX;
    for n in 0..logs.len() {
        fewest = fewest.min(logs.at_ref(n).len());
    }
    fewest
}

// A worker passes while another one is held in its first pass.
#[test]
fn two_workers_run_at_once(rt: HostRuntime) -> Result<(), Fail> {
    let image = writers(rt.alloc(), 2, 1)?;
    let params = Params::new(4, 64, 100, 0).ok_or("no parameters")?;
    let gate = holding_gate();
    let logs = logs_of(&rt, &image, &params, 2, &gate)?;
    assert!(rt; gate.was_passed.load(Ordering::SeqCst));
    assert!(rt; links_agree(&logs));
    Ok(())
}

// In a run by the command two workers come to the gate at once, again and again.
#[test]
fn a_run_has_two_workers_at_once(rt: HostRuntime) -> Result<(), Fail> {
    let params = Params::new(4, 64, 1000, 0).ok_or("no parameters")?;
    let gate = MeetingGate {
        first: AtomicU32::new(0),
        second: AtomicU32::new(0),
        was_alone: AtomicBool::new(false),
    };
    let ran = work_bytes(
        &rt,
        rt.alloc(),
        2,
        &params,
        Form::Summary,
        &FOUR_NODES,
        &gate,
    );
    assert!(rt; ran.is_ok());
    assert!(rt; !gate.was_alone.load(Ordering::SeqCst));
    assert_eq!(rt; gate.first.load(Ordering::SeqCst), MEETINGS);
    assert_eq!(rt; gate.second.load(Ordering::SeqCst), MEETINGS);
    Ok(())
}

// Each of four nodes goes on behind its first miss, which takes a message of node 0, and what one logs as sent another
// logs as taken.
#[test]
fn four_workers_step_four_nodes(rt: HostRuntime) -> Result<(), Fail> {
    let image = writers(rt.alloc(), 2, 2)?;
    let params = Params::new(4, 64, 1000, 16).ok_or("no parameters")?;
    let logs = logs_of(&rt, &image, &params, 4, &OpenGate)?;
    assert_eq!(rt; logs.len(), 4);
    assert!(rt; links_agree(&logs));
    assert!(rt; fewest_events(&logs) > 2);
    Ok(())
}

// A queue of one node has it for one pass at a time.
#[test]
fn a_node_is_with_one_worker_at_a_time(rt: HostRuntime) -> Result<(), Fail> {
    let (ready, _filler) = Ready::<One>::start(&rt, rt.alloc(), 1)?;
    let mut first = ready.pass(&rt)?;
    let mut second = ready.pass(&rt)?;
    assert_eq!(rt; ready.take(&rt, &mut first), Some(NodeNo(0)));
    assert_eq!(rt; ready.take(&rt, &mut second), None);
    ready.give(&rt, &mut first);
    assert_eq!(rt; ready.take(&rt, &mut second), Some(NodeNo(0)));
    ready.give(&rt, &mut second);
    ready.end(&rt, first);
    ready.end(&rt, second);
    Ok(())
}
