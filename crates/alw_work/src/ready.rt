ghost use Rattle.std.specs.Prelude.{◌≡◌, ◌<◌, ◌≤◌, ◌^◌, ◌+◌, None, Some, IfOk, IsSome, MatchOption, length};
ghost use Rattle.crossbeam_queue.specs.Passes.{view, IsPassOf, ruled_capacity};
ghost use Rattle.alw_work.specs.Ready.{Holder, HasFilled};

use alw_num::{NoMemory, NodeNo};
use crossbeam_queue::protocol::{Lesson, Outcome, Protocol};
use crossbeam_queue::{Pass, RuledArrayQueue};
use std::alloc::Global;
use std::marker::{Brand, Model, PhantomData};
use std::sync::Wait;

/// The number of nodes of a queue. Its rule is known by its type alone, so the type names the number.
pub trait Counting {
    ghost use Rattle.std.specs.Prelude.{ℕ};

    ghost nodes: { ℕ };
}

impl Counting for Brand {
    ghost nodes = { 0 };
}

// What a pass knows: the number that it holds, or, of the pass that fills the queue, the next number that
// goes in. No value of it is made.
enum Hand {
    Has(Option<u16>),
    Fills(u16),
}

// The rule: each number that was put in stands once over the queue and the passes, and no other number
// stands there.
struct Fair<I: Counting> {
    of: PhantomData<I>,
}

impl<I: Counting> Protocol<u16, Hand> for Fair<I> {
    ghost use Rattle.std.specs.Prelude.{None};
    ghost use Rattle.alw_work.specs.declared.ready.Hand.TheVariants.{Has};
    ghost use Rattle.alw_work.specs.Ready.{IsFair};

    ghost holds = { IsFair I.nodes };

    ghost first = { Has None };
}

// A number at the front of the queue goes to a pass, which then holds it.
struct Takes<I: Counting> {
    of: PhantomData<I>,
}

impl<I: Counting> Outcome<u16, Hand> for Takes<I> {
    ghost use Rattle.std.specs.Prelude.{◌≡◌, ◌<◌, Some};
    ghost use Rattle.alw_work.specs.declared.ready.Hand.TheVariants.{Has};

    ghost then = { λ before number after. (after ≡ Has (Some number)) × (number < I.nodes) };
}

impl<I: Counting> Lesson<u16, Hand> for Takes<I> {
    ghost use Rattle.std.specs.Prelude.{⊤};

    ghost fact = { λ before items. ⊤ };
}

// The number that a pass holds goes to the back of the queue, which has room for it.
struct Gives<I: Counting> {
    of: PhantomData<I>,
}

impl<I: Counting> Outcome<u16, Hand> for Gives<I> {
    ghost use Rattle.std.specs.Prelude.{◌≡◌, None};
    ghost use Rattle.alw_work.specs.declared.ready.Hand.TheVariants.{Has};

    ghost then = { λ before number after. after ≡ Has None };
}

impl<I: Counting> Lesson<u16, Hand> for Gives<I> {
    ghost use Rattle.std.specs.Prelude.{◌<◌, length};

    ghost fact = { λ before items. length items < I.nodes };
}

// The next number goes into a queue that is being filled, which has room for it.
struct Adds<I: Counting> {
    of: PhantomData<I>,
}

impl<I: Counting> Outcome<u16, Hand> for Adds<I> {
    ghost use Rattle.std.specs.Prelude.{◌≡◌, ◌+◌};
    ghost use Rattle.alw_work.specs.declared.ready.Hand.TheVariants.{Fills};

    ghost then = { λ before number after. after ≡ Fills (number + 1) };
}

impl<I: Counting> Lesson<u16, Hand> for Adds<I> {
    ghost use Rattle.std.specs.Prelude.{◌<◌, length};

    ghost fact = { λ before items. length items < I.nodes };
}

type Queue<I> = RuledArrayQueue<u16, Hand, Fair<I>>;

/// The numbers of the nodes that no worker holds, in a queue that workers share. Over the queue and its
/// passes each number below the number of nodes stands once, and no other number stands there.
#[derive(Drop)]
pub struct Ready<I: Counting> {
    queue: Queue<I>,
}

impl<I: Counting> Model for Ready<I> {
    ghost use Rattle.std.specs.Prelude.{◌≡◌};
    ghost use Rattle.alw_work.specs.Ready.{QueueName};

    ghost Value = { QueueName };

    ghost view = { λ r. r.queue.table.shared.table_id };

    ghost invariant = { λ r. r.queue.cap ≡ I.nodes };
}

/// A worker's pass to a queue, which holds at most one number. A contract sees which queue it is of, and the
/// number.
#[derive(Drop)]
pub struct ReadyPass {
    pass: Pass<u16, Hand>,
    node: Option<u16>,
}

impl Model for ReadyPass {
    ghost use Rattle.std.specs.Prelude.{◌≡◌, []};
    ghost use Rattle.alw_work.specs.declared.ready.Hand.TheVariants.{Has};
    ghost use Rattle.alw_work.specs.Ready.{Holder};

    ghost Value = { Holder };

    ghost view = { λ p. record { queue = p.pass.table_id; node = p.node } };

    ghost invariant = { λ p. (p.pass.me.1 ≡ []) × (p.pass.me.0.client ≡ Has p.node) };
}

/// The pass that filled a queue, with which nothing else can be done. A contract sees which queue it is of,
/// and how many numbers it put in: 0 to that number less 1, in order.
#[derive(Drop)]
pub struct Filler {
    pass: Pass<u16, Hand>,
}

impl Model for Filler {
    ghost use Rattle.alw_work.specs.Ready.{Filled, filled_by};

    ghost Value = { Filled };

    ghost view = { λ f. record { queue = f.pass.table_id; count = filled_by f.pass.me.0.client } };
}

impl<I: Counting> Ready<I> {
    /// A queue, and the pass that filled it with the numbers 0 to `nodes` - 1, in order.
    pub fn start<R: Wait>(rt: &R, alloc: Global, nodes: u32) -> Result<(Ready<I>, Filler), NoMemory>
        requires some { (0 < nodes) × (nodes < 2 ^ 16) }
        requires counted { nodes ≡ I.nodes }
        ensures { IfOk result (λ made. made.1 ≡ record { queue = made.0; count = nodes }) }
    {
        let (queue, mut pass) = Queue::<I>::ruled(alloc, nodes as usize)?;
        fill(rt, &queue, &mut pass, nodes as u16);
        Ok((Ready { queue }, Filler { pass }))
    }

    /// A pass that holds no number.
    pub fn pass<R: Wait>(&self, _rt: &R) -> Result<ReadyPass, NoMemory>
        ensures { IfOk result (λ pass. pass ≡ record { queue = self.now; node = None }) }
    {
        Ok(ReadyPass {
            pass: self.queue.pass(),
            node: None,
        })
    }

    /// The pass takes the number at the front, or none. No clause says when none comes: the library's queue
    /// gives none where it was empty at some moment of the call.
    pub fn take<R: Wait>(&self, rt: &R, pass: &mut ReadyPass) -> Option<NodeNo>
        requires queue { pass.old.queue ≡ self.now }
        requires empty { pass.old.node ≡ None }
        ensures { MatchOption result
            (pass.new ≡ pass.old)
            (λ node. (pass.new ≡ record pass.old { node = Some node.0 }) × (node.0 < I.nodes)) }
    {
        let number = self.queue.pop_as::<Takes<I>, R>(rt, &mut pass.pass)?;
        pass.node = Some(number);
        Some(NodeNo(number))
    }

    /// The number that the pass holds goes to the back. There is room: a number that is held isn't in the
    /// queue.
    pub fn give<R: Wait>(&self, rt: &R, pass: &mut ReadyPass)
        requires queue { pass.old.queue ≡ self.now }
        requires holds { IsSome pass.old.node }
        ensures { pass.new ≡ record pass.old { node = None } }
    {
        let Some(number) = pass.node else {
            unreachable!()
        };
        let Ok(()) = self
            .queue
            .push_as::<Gives<I>, R>(rt, &mut pass.pass, number)
        else {
            unreachable!()
        };
        pass.node = None;
    }

    /// Gives a pass back. It holds no number, so none is lost with it.
    pub fn end<R: Wait>(&self, _rt: &R, pass: ReadyPass)
        requires queue { pass.queue ≡ self.now }
        requires empty { pass.node ≡ None }
    {
        let ReadyPass { pass: _, node: _ } = pass;
    }
}

// Puts all numbers into an empty queue, in order, by its first pass.
fn fill<I: Counting, R: Wait>(rt: &R, queue: &Queue<I>, filler: &mut Pass<u16, Hand>, nodes: u16)
    requires queue { IsPassOf queue.now filler.old × (ruled_capacity queue.now ≡ I.nodes) }
    requires first { (filler.old.id ≡ 0) × HasFilled 0 (view filler.old) }
    requires counted { nodes ≡ I.nodes }
    ensures queue { IsPassOf queue.now filler.new }
    ensures filled { HasFilled I.nodes (view filler.new) }
{
    for number in 0..nodes {
        let Ok(()) = queue.push_as::<Adds<I>, R>(rt, filler, number) else {
            unreachable!()
        };
    }
}
