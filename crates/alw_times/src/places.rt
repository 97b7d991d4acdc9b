ghost use Rattle.std.specs.Prelude.{◌≡◌, slice_set, [], ◌∷◌, ◌++◌, OnOk, OnErr};
ghost use Rattle.alw_msg.specs.Lists.{behind};
ghost use Rattle.alw_times.specs.Times.{time_at, queue_at, first_time, is_later};

use crate::queues::Queue;
use alw_num::NoMemory;

/// A time by its place, and 0 where there is none.
pub fn time_at(times: &[u64], place: usize) -> u64
    ensures { result ≡ time_at times.now place }
{
    match times.get(place) {
        Some(time) => *time,
        None => 0,
    }
}

/// A time becomes this one.
pub fn put(times: &mut Vec<u64>, place: usize, time: u64)
    ensures { times.new.items ≡ slice_set times.old.items place time }
{
    if place < times.len() {
        times[place] = time;
    }
}

/// The first time of a queue, and 0 where there is none.
pub fn first_at(queues: &[Queue], place: usize) -> u64
    ensures { result ≡ first_time (queue_at queues.now place) }
{
    match queues.get(place) {
        Some(queue) => queue.first(),
        None => 0,
    }
}

/// A queue has no time up to this one.
pub fn is_later_at(queues: &[Queue], place: usize, time: u64) -> bool
    ensures { result ≡ is_later (queue_at queues.now place) time }
{
    match queues.get(place) {
        Some(queue) => queue.is_later(time),
        None => true,
    }
}

/// Takes the first time of a queue off.
pub fn pop_at(queues: &mut Vec<Queue>, place: usize)
    ensures { queues.new.items ≡ slice_set queues.old.items place (behind (queue_at queues.old.items place)) }
{
    if place < queues.len() {
        queues[place].pop();
    }
}

/// A time joins a queue.
pub fn join_at(queues: &mut Vec<Queue>, place: usize, time: u64) -> Result<(), NoMemory>
    ensures ok { OnOk result (queues.new.items ≡ slice_set queues.old.items place (queue_at queues.old.items place ++ time ∷ [])) }
    ensures err { OnErr result (queues.new.items ≡ queues.old.items) }
{
    if place < queues.len() {
        queues[place].push(time)?;
    }
    Ok(())
}
