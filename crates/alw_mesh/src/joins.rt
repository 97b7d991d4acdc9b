ghost use Rattle.std.specs.Prelude.{◌≡◌, IfOk};
ghost use Rattle.alw_model.specs.Machine.{IsLegal, state};
ghost use Rattle.alw_model.specs.Runs.{moments};
ghost use Rattle.alw_model.specs.Ends as ends;
ghost use Rattle.alw_mesh.specs.Histories.{joined_of};
ghost use Rattle.alw_mesh.specs.Joins.{AreOfJournal, PartsAreJoined};

use crate::machines::{Machine, blank};
use crate::meshes::Mesh;
use crate::walks::tell_all;
use crate::watches::Watch;
use alw_image::{Image, Params};
use alw_links::Links;
use alw_model::{Counts, TrapAt};
use alw_msg::{Entry, Journal, Prints, Turns};
use alw_node::Nodes;
use alw_num::NoMemory;
use alw_tally::Tally;
use std::alloc::Global;

/// What a machine is joined from: the journal that it took, its nodes by number, its links with what is on
/// the way, and the turns, prints and counts of the journal.
#[derive(Drop)]
pub struct JoinedParts {
    pub journal: Journal,
    pub nodes: Nodes,
    pub links: Links,
    pub turns: Turns,
    pub prints: Prints,
    pub counts: Counts,
}

impl Machine {
    /// The machine that has these parts. It has taken no step yet. Nothing is stepped again, but where a
    /// context has trapped: then the entries are, to find the first trapping turn. What was moved in is given
    /// up where memory is refused.
    pub fn joined(
        alloc: Global,
        image: &Image,
        params: &Params,
        parts: JoinedParts,
    ) -> Result<Machine, NoMemory>
        requires { AreOfJournal image.now params.now parts }
        ensures { IfOk result (λ machine. machine ≡ joined_of image.now params.now parts.journal) }
    {
        let _exists = image.nodes(); // for its clause
        let _allowed = params.limit(); // for its clause
        let JoinedParts {
            journal,
            nodes,
            links,
            turns,
            prints,
            counts,
        } = parts;
        let mesh = Mesh::joined(alloc, image, params, nodes, links)?;
        let trap = trap_of(alloc, image, params, &journal, &mesh)?;
        let tally = Tally::of(turns, prints, counts, trap);
        Machine::of(alloc, mesh, journal, tally)
    }

    // The machine of these parts, which has taken no step.
    fn of(alloc: Global, mesh: Mesh, journal: Journal, tally: Tally) -> Result<Machine, NoMemory>
        requires { PartsAreJoined mesh journal tally.told }
        ensures { IfOk result (λ machine. machine ≡ joined_of mesh.image mesh.parameters journal) }
    {
        let count = u32::from(mesh.count());
        let (sent, mut ready) = blank(alloc, count)?;
        ready.renew_all(&mesh);
        Ok(Machine {
            mesh,
            joined: journal.len(),
            journal,
            sent,
            tally,
            ready,
        })
    }

    // The first trapping turn so far.
    fn trap(&self) -> Option<TrapAt>
        ensures { result ≡ ends.first_trap 0 (moments self.now.image self.now.parameters self.now.journal) }
    {
        self.tally.trap()
    }
}

// The first trapping turn of a legal journal, which leaves these nodes: none where no context has
// trapped.
fn trap_of(
    alloc: Global,
    image: &Image,
    params: &Params,
    journal: &Journal,
    mesh: &Mesh,
) -> Result<Option<TrapAt>, NoMemory>
    requires legal { IsLegal image.now params.now journal.now }
    requires machine { mesh.now.machine ≡ state image.now params.now journal.now }
    ensures { IfOk result (λ trap. trap ≡ ends.first_trap 0 (moments image.now params.now journal.now)) }
{
    if mesh.any_trapped() {
        first_trap(alloc, image, params, journal)
    } else {
        Ok(None)
    }
}

// The first trapping turn of a legal journal, by taking its events again, up to that turn.
fn first_trap(
    alloc: Global,
    image: &Image,
    params: &Params,
    journal: &Journal,
) -> Result<Option<TrapAt>, NoMemory>
    requires { IsLegal image.now params.now journal.now }
    ensures { IfOk result (λ trap. trap ≡ ends.first_trap 0 (moments image.now params.now journal.now)) }
{
    let mut machine = Machine::begin(alloc, image, params)?;
    let mut first = FirstTrap { trap: None };
    tell_all(&mut machine, journal, &mut first)?;
    Ok(first.trap)
}

// The first trapping turn of a run.
#[derive(Drop)]
struct FirstTrap {
    trap: Option<TrapAt>,
}

impl Watch for FirstTrap {
    ghost told = { λ start h now. now.trap ≡ ends.first_trap 0 (moments h.image h.parameters h.journal) };

    fn event(&mut self, machine: &mut Machine, entry: Entry) -> Result<(), NoMemory> {
        machine.take(entry.event)?;
        self.trap = machine.trap();
        Ok(())
    }
}
