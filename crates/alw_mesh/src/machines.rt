ghost use Rattle.std.specs.Prelude.{◌≡◌, ◌≤◌, ◌&&◌, [], not, length, IfOk, IsTrue};
ghost use Rattle.alw_mesh.specs.Histories.{begun, Starts, Steps, may_be_next, entry_of, ArePartsOf};
ghost use Rattle.alw_mesh.specs.Moments.{Takes};

use crate::errors::{FitErr, StepErr, fit};
use crate::meshes::Mesh;
use crate::parts::MachineParts;
use crate::stepping::Happening;
use alw_image::{Image, Params};
use alw_model::Did;
use alw_msg::{Entry, Event, Journal, Sends};
use alw_num::{MOST_NODES, NoMemory};
use alw_ready::{Happened as Changes, Ready, is_wide};
use alw_tally::{Moment, Tally};
use std::alloc::Global;
use std::marker::Model;

/// A machine: the nodes of an image with the links between them, and the journal of the events that
/// happened. Contracts see the image, the parameters and the journal, which say all else, and how many
/// of the journal's first entries the machine was joined with.
#[derive(Drop)]
pub struct Machine {
    pub(crate) mesh: Mesh,
    pub(crate) journal: Journal,
    pub(crate) joined: u32,
    pub(crate) sent: Sends,
    pub(crate) tally: Tally,
    pub(crate) ready: Ready,
}

impl Model for Machine {
    ghost use Rattle.alw_mesh.specs.Histories.{History};
    ghost use Rattle.alw_mesh.specs.Keeping.{IsMachine};

    ghost Value = { History };

    ghost view = { λ m. record { image = m.mesh.image; parameters = m.mesh.parameters; journal = m.journal; joined = m.joined } };

    ghost invariant = { λ m. IsMachine m.mesh m.journal m.joined m.sent m.tally m.ready };
}

impl Machine {
    /// A machine at the start of an image, as `begin` makes it. DoesNotFit comes exactly where nodes times the
    /// event limit is above `MOST_STEPS`.
    pub fn start(alloc: Global, image: &Image, params: &Params) -> Result<Machine, FitErr>
        ensures { Starts image.now params.now result }
    {
        fit(image, params)?;
        Ok(Machine::begin(alloc, image, params)?)
    }

    /// A machine at the start of an image, whatever its limit. It keeps a copy of both.
    pub fn begin(alloc: Global, image: &Image, params: &Params) -> Result<Machine, NoMemory>
        ensures { IfOk result (λ machine. machine ≡ begun image.now params.now) }
    {
        let _allowed = params.limit(); // for its clause
        let nodes = u32::from(image.nodes());
        let (sent, mut ready) = blank(alloc, nodes)?;
        let mesh = Mesh::start(alloc, image, params)?;
        ready.renew_all(&mesh);
        Ok(Machine {
            mesh,
            journal: Journal::empty(alloc),
            joined: 0,
            sent,
            tally: Tally::start(alloc),
            ready,
        })
    }

    /// An event is enabled and within the limit. The event may be of any nodes.
    pub fn may(&self, event: Event) -> bool
        ensures { result ≡ may_be_next self.now event }
    {
        self.mesh.may_be_next(event)
    }

    /// The stamp that an event has where it comes next: one more than the greater of its node's clock and
    /// the stamp of the message that it takes (Lamport 1978).
    pub fn stamp(&self, event: Event) -> u32
        requires { IsTrue (may_be_next self.now event) }
        ensures { result ≡ (entry_of self.now event).stamp }
    {
        self.mesh.stamp(event)
    }

    /// An event happens, or nothing does: NotEnabled comes exactly where `may` is false.
    pub fn step(&mut self, event: Event) -> Result<Did, StepErr>
        ensures { Steps self.old event self.new result }
    {
        if !self.may(event) {
            return Err(StepErr::NotEnabled);
        }
        let moment = self.take(event)?;
        Ok(moment.did)
    }

    /// An event that may be next happens; or nothing does, where memory is refused. It answers the moment of
    /// the run that the event is, but for the node before it, and besides whether it is known to have been a
    /// quiet turn, behind which the end that holds is the one before it, or none as before.
    #[inline(always)]
    pub fn take(&mut self, event: Event) -> Result<Moment, NoMemory>
        requires { IsTrue (may_be_next self.old event) }
        ensures { Takes self.old event self.new result }
    {
        let stamp = self.mesh.stamp(event);
        self.tally.reserve()?;
        self.mesh.reserve()?;
        let entry = Entry { stamp, event };
        self.journal.push(entry)?;
        let had_halted = self.mesh.has_halted();
        let happening = self.mesh.happen(entry, &mut self.sent);
        let Happening {
            moment,
            used,
            pc,
            ..
        } = happening;
        // A quiet turn has a compiled way of its own, to its end.
        if happening.moment.quiet {
            self.tally
                .add(self.mesh.image(), &moment, used, pc, &self.sent);
            if stamp < self.mesh.params().limit() {
                return Ok(moment);
            }
            self.ready.renew_all(&self.mesh);
            return Ok(Moment {
                quiet: false,
                ..moment
            });
        }
        self.tally
            .add(self.mesh.image(), &moment, used, pc, &self.sent);
        let changes = Changes {
            event,
            wide: is_wide(moment.did, moment.taken, happening.changes_holds),
            halted: flips(had_halted, self.mesh.has_halted()),
        };
        self.ready.renew(&self.mesh, &changes, &self.sent);
        Ok(moment)
    }

    /// The image, the parameters and the journal, with its turns and its prints.
    pub fn into_parts(self) -> MachineParts
        ensures { ArePartsOf self result }
    {
        let Machine {
            mesh,
            journal,
            joined: _,
            sent: _,
            tally,
            ready: _,
        } = self;
        let (image, params) = mesh.into_parts();
        let (turns, prints) = tally.into_parts();
        MachineParts {
            image,
            params,
            journal,
            turns,
            prints,
        }
    }
}

/// Room for a message to each of so many nodes, and rows of them that say nothing: what a machine has
/// before its nodes are there, so that less is given up where memory is refused.
pub(crate) fn blank(alloc: Global, nodes: u32) -> Result<(Sends, Ready), NoMemory>
    requires { nodes ≤ MOST_NODES }
    ensures room { IfOk result (λ made. made.0.room ≡ nodes) }
    ensures empty { IfOk result (λ made. made.0.messages ≡ []) }
    ensures rows { IfOk result (λ made. length made.1 ≡ nodes) }
{
    let sent = Sends::room(alloc, nodes)?;
    let ready = Ready::start(alloc, nodes)?;
    Ok((sent, ready))
}

// A test holds after something and didn't before.
fn flips(before: bool, after: bool) -> bool
    ensures { result ≡ (not before && after) }
{
    !before && after
}
