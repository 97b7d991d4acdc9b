ghost use Rattle.std.specs.Prelude.{◌≡◌, ◌<◌, ◌≤◌, [], ◌∷◌, length, IfNone, IfSome, IfOk};
ghost use Rattle.std.specs.BinaryHeap.{IsHeap, heap_items, heap_len, heap_capacity};
ghost use Rattle.alw_msg.specs.Lists.{front};
ghost use Rattle.alw_merge.specs.Heads.{IsLeast, HaveJoined, NoneBefore, heap_cmp, heads_in};
ghost use Rattle.alw_merge.specs.Heads as heads;

use alw_num::NoMemory;
use std::alloc::Global;
use std::cmp::Reverse;
use std::collections::{BinaryHeap, VecDeque};
use std::marker::Model;

// How far apart the heads of one log are whose stamps follow on each other: a stamp is above 32 bits.
const NEXT_STAMP: u64 = 1 << 32;

/// The heads of logs as numbers, of which the least comes first. A log whose next stamp follows on the last
/// is due behind those that are, in the order of the merge; heads that are further off wait in a heap. So
/// where many logs go on stamp by stamp, a head costs the same for any number of them. Contracts see the
/// heads, in some order, and how many there may be.
#[derive(Drop)]
pub struct Heads {
    most: u32,
    latest: u64,
    due: VecDeque<u64>,
    top: Option<u64>,
    heap: BinaryHeap<Reverse<u64>>,
}

impl Model for Heads {
    ghost use Rattle.std.specs.Prelude.{◌++◌};
    ghost use Rattle.std.specs.VecDeque.{deque_capacity};
    ghost use Rattle.std.specs.BinaryHeap.{heap_items, heap_capacity};
    ghost use Rattle.alw_merge.specs.Heads.{Waiting, heads_in, HeadsAreKept};

    ghost Value = { Waiting };

    ghost view = { λ h. record { heads = h.due.items ++ heads_in (heap_items h.heap); most = h.most } };

    ghost invariant = { λ h. HeadsAreKept h.most h.latest h.due.items (deque_capacity h.due) h.top (heap_items h.heap) (heap_capacity h.heap) };
}

impl Heads {
    /// No heads, with room for so many.
    pub fn room(alloc: Global, most: u32) -> Result<Heads, NoMemory>
        ensures { IfOk result (λ heads. heads ≡ record { heads = []; most = most }) }
    {
        Ok(Heads {
            most,
            latest: 0,
            due: VecDeque::with_capacity(alloc, most as usize)?,
            top: None,
            heap: BinaryHeap::with_capacity(alloc, most as usize)?,
        })
    }

    /// The least head. None exactly where there is none.
    #[inline(always)]
    pub fn least(&self) -> Option<u64>
        ensures none { IfNone result (self.now.heads ≡ []) }
        ensures least { IfSome result (λ head. IsLeast head self.now.heads) }
    {
        let first = front_of(&self.due);
        if is_due(first, self.top) {
            return first;
        }
        self.top
    }

    /// Takes the least head off.
    #[inline(always)]
    pub fn pop(&mut self, head: u64)
        requires { IsLeast head self.old.heads }
        ensures rest { HaveJoined self.new.heads (head ∷ []) self.old.heads }
        ensures most { self.new.most ≡ self.old.most }
    {
        let first = front_of(&self.due);
        if is_due(first, self.top) {
            let _first = self.due.pop_front();
            return;
        }
        let _top = take_top(&mut self.heap);
        self.top = top_of(&self.heap);
    }

    /// One head more, of the log whose last head was another. It takes no memory.
    #[inline(always)]
    pub fn push(&mut self, head: u64, last: u64)
        requires { length self.old.heads < self.old.most }
        ensures joins { HaveJoined self.old.heads (head ∷ []) self.new.heads }
        ensures most { self.new.most ≡ self.old.most }
    {
        if head < self.latest || head.wrapping_sub(last) > NEXT_STAMP {
            put(&mut self.heap, head);
            self.top = top_of(&self.heap);
            return;
        }
        self.due.push_back_reserved(head);
        self.latest = head;
    }
}

// Whether the first of those that are due comes before the top of the heap.
#[inline(always)]
fn is_due(first: Option<u64>, top: Option<u64>) -> bool
    ensures { result ≡ heads.is_due first top }
{
    match (first, top) {
        (Some(first), Some(top)) => first <= top,
        (first, _) => first.is_some(),
    }
}

// The first of those that are due.
#[inline(always)]
fn front_of(due: &VecDeque<u64>) -> Option<u64>
    ensures { result ≡ front due.now.items }
{
    due.front().copied()
}

// The least of the heap.
#[tactic(auto, using(crate::proofs::Leasts::none_in))]
#[inline(always)]
fn top_of(heap: &BinaryHeap<Reverse<u64>>) -> Option<u64>
    ensures top { result ≡ front (heads_in (heap_items heap.now)) }
    ensures least { IsHeap heap_cmp (heap_items heap.now) → IfSome result (λ top. NoneBefore top (heads_in (heap_items heap.now))) }
{
    let Reverse(top) = heap.peek()?;
    Some(*top)
}

// Takes the least of the heap off.
#[tactic(auto, using(crate::proofs::Leasts::top_taken))]
#[inline(always)]
fn take_top(heap: &mut BinaryHeap<Reverse<u64>>) -> Option<u64>
    ensures top { result ≡ front (heads_in (heap_items heap.old)) }
    ensures rest { IfSome result (λ top. HaveJoined (heads_in (heap_items heap.new)) (top ∷ []) (heads_in (heap_items heap.old))) }
    ensures order { IsHeap heap_cmp (heap_items heap.old) → IsHeap heap_cmp (heap_items heap.new) }
    ensures capacity { heap_capacity heap.new ≡ heap_capacity heap.old }
{
    let Reverse(top) = heap.pop()?;
    Some(top)
}

// A head joins a heap that has room for it.
#[tactic(auto, using(crate::proofs::Leasts::one_put))]
fn put(heap: &mut BinaryHeap<Reverse<u64>>, head: u64)
    requires { heap_len heap.old < heap_capacity heap.old }
    ensures joins { HaveJoined (heads_in (heap_items heap.old)) (head ∷ []) (heads_in (heap_items heap.new)) }
    ensures order { IsHeap heap_cmp (heap_items heap.old) → IsHeap heap_cmp (heap_items heap.new) }
    ensures capacity { heap_capacity heap.old ≤ heap_capacity heap.new }
{
    match heap.push(Reverse(head)) {
        Ok(()) => {}
        Err(_) => unreachable!(),
    }
}
