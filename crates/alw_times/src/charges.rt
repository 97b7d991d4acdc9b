ghost use Rattle.std.specs.Prelude.{◌≡◌, ◌<◌, ◌≤◌, ◌+◌, ◌-◌, ◌*◌, ◌^◌, cond, length};
ghost use Rattle.alw_num.specs.Maps.{passes};
ghost use Rattle.alw_msg.specs.Kinds.{to_memory};
ghost use Rattle.alw_image.specs.Images.{hops_between};
ghost use Rattle.alw_times.specs.Times.{turn_cost, cost_of, length_of, work_before, is_busy};

use crate::costs::Costs;
use crate::happenings::TimedMoment;
use alw_image::Image;
use alw_msg::{Event, Kind, Sends};
use alw_num::NodeNo;

/// How long an event is under way before it acts.
pub fn work_before(costs: &Costs, event: Event) -> u64
    ensures work { result ≡ work_before costs.now event }
    ensures few { result < 2 ^ 16 }
{
    match event {
        Event::Handle { .. } => u64::from(costs.trap),
        _ => 0,
    }
}

/// What an event costs from its start on.
pub fn cost(costs: &Costs, happened: &TimedMoment, sends: &Sends) -> u64
    ensures cost { result ≡ cost_of costs.now happened.now sends.now.messages }
    ensures few { result ≤ 2 ^ 24 }
{
    match happened.event {
        Event::Instr { .. } => turn_cost(costs, happened.last, happened.slot),
        Event::Handle { .. } => writing_cost(costs, sends),
        Event::Deliver { .. } => delivery_cost(costs, happened.taken),
        Event::Evict { .. } => u64::from(costs.fill),
    }
}

// What the handler takes for messages behind the first.
fn writing_cost(costs: &Costs, sends: &Sends) -> u64
    ensures cost { result ≡ costs.now.inv * (length sends.now.messages - 1) }
    ensures few { result ≤ 2 ^ 24 }
{
    let _few = sends.free(); // for its clause
    u64::from(costs.inv) * u64::from(sends.len().saturating_sub(1))
}

/// What an instruction takes in a slot, where another one may have run last.
pub fn turn_cost(costs: &Costs, last: u8, slot: Option<u8>) -> u64
    ensures cost { result ≡ turn_cost costs.now last slot }
    ensures few { result < 2 ^ 17 }
{
    match slot {
        Some(slot) => {
            let switch = if slot == last { 0 } else { costs.switch };
            u64::from(costs.hit) + u64::from(switch)
        }
        None => u64::from(costs.hit),
    }
}

// What a delivery takes, at memory or at a cache.
fn delivery_cost(costs: &Costs, taken: Option<Kind>) -> u64
    ensures cost { result ≡ cond (passes to_memory taken) costs.now.home costs.now.fill }
    ensures few { result < 2 ^ 16 }
{
    match taken {
        Some(kind) if kind.is_to_memory() => u64::from(costs.home),
        _ => u64::from(costs.fill),
    }
}

/// A delivery brings a BUSY.
pub fn is_busy(taken: Option<Kind>) -> bool
    ensures { result ≡ passes is_busy taken }
{
    matches!(taken, Some(Kind::BUSY))
}

/// How long a message holds the port.
pub fn length(costs: &Costs, kind: Kind) -> u64
    ensures length { result ≡ length_of costs.now kind }
    ensures few { result < 2 ^ 17 }
{
    let data = if kind.carries_body() { costs.data } else { 0 };
    u64::from(costs.send) + u64::from(data)
}

/// How long a message takes its way, behind the port.
pub fn way(image: &Image, costs: &Costs, from: NodeNo, to: NodeNo) -> u64
    ensures way { result ≡ costs.now.hop * hops_between image.now from.0 to.0 }
    ensures few { result ≤ 2 ^ 32 + 2 ^ 24 }
{
    u64::from(costs.hop) * image.hops(from, to)
}
