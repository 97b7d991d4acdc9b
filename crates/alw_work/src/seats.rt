ghost use Rattle.std.specs.Prelude.{◌≡◌, ◌<◌, IsTrue};
ghost use Rattle.alw_image.specs.Images.{node_count};
ghost use Rattle.alw_work.specs.Works as works;
ghost use Rattle.alw_work.specs.Seats.{IsCellOf, StandsAt, TrapIsMarked, CellIsOfNode, Works};
ghost use Rattle.alw_work.specs.Ties.{AreTiedOuts, AreTiedIns, IsSameButCome, IsSameButGiven};
ghost use Rattle.alw_work.specs.Turns.{StepsOnce, IsSameButCell, CellActs, Turns, PicksNoOther, TakesSteps};

use crate::ends::{In, Out};
use crate::moves::{fetch, offer};
use crate::signs::Signs;
use alw_cells::{Did, NodeCell, Stepped};
use alw_num::{NoMemory, NodeNo};
use alw_ruled::Link;
use sparc_table::Outcome;
use std::marker::{Brand, Model, PhantomData};
use std::sync::Wait;

/// The image and the parameters of a run, and the names of its links: that from node a to node b stands at
/// place a * N + b. A locked value is known by its type alone, so the type names all three.
pub trait Naming {
    ghost use Rattle.std.specs.Prelude.{List};
    ghost use Rattle.alw_image.specs.declared.parts.Parts.{Parts};
    ghost use Rattle.alw_image.specs.Parameters.{Parameters};
    ghost use Rattle.alw_ruled.specs.Ends.{LinkName};

    ghost image: { Parts };

    ghost parameters: { Parameters };

    ghost links: { List LinkName };
}

impl Naming for Brand {
    ghost use Rattle.std.specs.Prelude.{[]};

    ghost image = { record { width = 0; height = 0; contexts = 0; per_node = 0; code = []; bodies = []; starts = []; always = [] } };

    ghost parameters = { record { pointers = 0; sets = 0; limit = 0; evict = 0 } };

    ghost links = { [] };
}

/// What stands behind a lock: a node's cell, the sender's ends of its links to all nodes and the receiver's
/// ends of those from all nodes. Its type keeps that the cell is of the named image's node of this number,
/// and that the ends are those of the links at its own places and tied to its log.
#[derive(Drop)]
pub struct Locked<I: Naming> {
    number: NodeNo,
    nodes: u16,
    cell: NodeCell,
    outs: Vec<Out>,
    ins: Vec<In>,
    late: Option<NodeNo>,
    trapped: bool,
    has_moved: bool,
    of: PhantomData<I>,
}

impl<I: Naming> Model for Locked<I> {
    ghost use Rattle.std.specs.Prelude.{◌≡◌};
    ghost use Rattle.alw_image.specs.Images.{node_count};
    ghost use Rattle.alw_work.specs.Seats.{Seat, IsSeat};
    ghost use Rattle.alw_work.specs.Ties.{AreTiedOuts, AreTiedIns};

    ghost Value = { Seat };

    ghost view = { λ s. record { number = s.number.0; cell = s.cell; trapped = s.trapped } };

    ghost invariant = { λ s. (s.nodes ≡ node_count I.image) × IsSeat I.image I.parameters s.number.0 s.cell s.trapped
        × AreTiedOuts I.links s.nodes s.number.0 s.cell s.outs.items × AreTiedIns I.links s.nodes s.number.0 s.cell s.ins.items };
}

impl<I: Naming> Locked<I> {
    /// A cell at its start with the ends of its links, on its way behind a lock.
    pub fn of(number: NodeNo, nodes: u16, cell: NodeCell, outs: Vec<Out>, ins: Vec<In>) -> Locked<I>
        requires nodes { nodes ≡ node_count I.image }
        requires cell { IsCellOf I.image I.parameters number.0 cell }
        requires outs { AreTiedOuts I.links nodes number.0 cell outs.items }
        requires ins { AreTiedIns I.links nodes number.0 cell ins.items }
    {
        Locked {
            number,
            nodes,
            cell,
            outs,
            ins,
            late: None,
            trapped: false,
            has_moved: false,
            of: PhantomData,
        }
    }

    /// One turn of a worker: what has come is taken in, the cell takes one step, and what it sent goes
    /// onto the links. So the log grows by at most one event, which the step took. Answers whether the cell
    /// did anything: it didn't where no main event might happen on what had come (`NodeCell::step`). A
    /// trapping turn stops all workers.
    #[inline(always)]
    pub fn turn<R: Wait>(
        &mut self,
        rt: &R,
        links: &[Link],
        signs: &Signs,
        pick: u32,
    ) -> Result<bool, NoMemory>
        requires { links.now ≡ I.links }
        ensures { Turns pick self.old self.new result }
    {
        self.take_in(rt, links, signs)?;
        let has_acted = self.act(pick)?;
        if self.trapped {
            signs.stop();
        }
        self.give_out(rt, links, signs);
        Ok(has_acted)
    }

    /// Takes instructions in a row, as long as each is the one event that the node may take, and nothing that
    /// was sent waits to be given out: at most so many. What comes meanwhile is taken in by the next turn.
    /// Answers how many there were. Where memory is refused the last of them is whole, and nothing happened
    /// behind it.
    #[inline(always)]
    pub fn run(&mut self, most: u32) -> Result<u32, NoMemory>
        ensures { TakesSteps most self.old self.new result }
    {
        let mut steps = 0;
        while steps < most && self.may_run() {
            self.act(0)?;
            steps += 1;
        }
        Ok(steps)
    }

    // The node may take one event, an instruction, and nothing that was sent waits to be given out.
    #[inline(always)]
    fn may_run(&self) -> bool
        ensures { IsTrue result → PicksNoOther self.now.cell }
    {
        !self.trapped && self.cell.first_out().is_none() && self.cell.is_alone()
    }

    // Takes in what has come. Mostly no link is marked.
    #[inline(always)]
    fn take_in<R: Wait>(&mut self, rt: &R, links: &[Link], signs: &Signs) -> Result<(), NoMemory>
        requires { links.now ≡ I.links }
        ensures come { IsSameButCome self.old.cell self.new.cell }
        ensures rest { IsSameButCell self.old self.new }
    {
        let (number, nodes) = (self.number, self.nodes);
        let senders = signs.take(number);
        if senders.is_empty() {
            return Ok(());
        }
        self.has_moved = true;
        fetch(
            rt,
            links,
            number,
            nodes,
            &mut self.cell,
            &mut self.ins,
            senders,
            signs,
        )
    }

    // Takes one step.
    #[inline(always)]
    fn act(&mut self, pick: u32) -> Result<bool, NoMemory>
        ensures { CellActs pick self.old self.new result }
    {
        step(&mut self.cell, &mut self.trapped, pick)
    }

    // Gives out what was sent. Mostly nothing waits.
    #[inline(always)]
    fn give_out<R: Wait>(&mut self, rt: &R, links: &[Link], signs: &Signs)
        requires { links.now ≡ I.links }
        ensures given { IsSameButGiven self.old.cell self.new.cell }
        ensures rest { IsSameButCell self.old self.new }
    {
        if self.late.is_none() && self.cell.first_out().is_none() {
            return;
        }
        let (number, nodes) = (self.number, self.nodes);
        self.has_moved = true;
        self.late = offer(
            rt,
            links,
            number,
            nodes,
            &mut self.cell,
            &mut self.outs,
            self.late,
            signs,
        );
    }

    /// The node's clock.
    #[inline(always)]
    pub fn clock(&self) -> u32
        ensures { result ≡ self.now.cell.node.state.clock }
    {
        self.cell.node().clock()
    }

    /// Something that was sent waits to be given out. No clause says so.
    #[inline(always)]
    pub fn has_more(&self) -> bool {
        self.late.is_some() || self.cell.first_out().is_some()
    }

    /// A message may have come or was given out since the last call. No clause says so.
    #[inline(always)]
    pub fn take_moved(&mut self) -> bool
        ensures { self.new ≡ self.old }
    {
        let has_moved = self.has_moved;
        self.has_moved = false;
        has_moved
    }

    /// The number, the cell, whether it took a trapping turn, and the ends of its links, once the lock is
    /// gone.
    pub fn open(self) -> (NodeNo, NodeCell, bool, Vec<Out>, Vec<In>)
        ensures cell { StandsAt I.image I.parameters result.0.0 result.1 }
        ensures trapped { TrapIsMarked result.2 result.1 }
        ensures outs { AreTiedOuts I.links (node_count I.image) result.0.0 result.1 result.3.items }
        ensures ins { AreTiedIns I.links (node_count I.image) result.0.0 result.1 result.4.items }
    {
        let Locked {
            number,
            nodes: _,
            cell,
            outs,
            ins,
            late: _,
            trapped,
            has_moved: _,
            of: _,
        } = self;
        let _stands = cell.log(); // for its clause
        (number, cell, trapped, outs, ins)
    }
}

// A trapping turn.
#[inline(always)]
fn is_trap(did: Did) -> bool
    ensures { result ≡ works.is_trap did }
{
    matches!(
        did,
        Did::Turn {
            outcome: Outcome::Trap { .. },
            ..
        }
    )
}

// One step, which is marked where it is a trapping turn. Answers whether the cell did anything.
#[inline(always)]
fn step(cell: &mut NodeCell, trapped: &mut bool, pick: u32) -> Result<bool, NoMemory>
    ensures same { CellIsOfNode cell.old cell.new }
    ensures marked { TrapIsMarked trapped.old cell.old → TrapIsMarked trapped.new cell.new }
    ensures works { Works cell.old cell.new }
    ensures steps { StepsOnce pick cell.old trapped.old cell.new trapped.new result }
{
    let _stands = cell.log(); // for its clause
    match cell.step(pick)? {
        Stepped::Did { did, .. } => {
            *trapped |= is_trap(did);
            Ok(true)
        }
        Stepped::Idle => Ok(false),
    }
}
