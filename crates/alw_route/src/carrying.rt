ghost use Rattle.std.specs.Prelude.{◌≡◌, ◌<◌, IfOk, OnOk};
ghost use Rattle.law_lines.specs.Links.{GoBelow};
ghost use Rattle.alw_replay.specs.Replays.{Replays};
ghost use Rattle.mesh_route.specs.Meshes.{count_of};
ghost use Rattle.alw_route.specs.Loading.{MessagesAreLoaded, replayed_in, after_sends, RouteIsUnderWay};

use alw_image::{Image, Params};
use alw_mesh::{FitErr, Machine, Watch};
use alw_msg::{Entry, Journal, Sends};
use alw_num::{NoMemory, NodeNo};
use alw_replay::take_all;
use mesh_route::Hops;
use std::alloc::Global;

/// The machine after the longest legal front of some entries, how many entries that is, and the routers
/// of its mesh with the messages that they sent, each where it begins.
#[derive(Drop)]
pub struct Carried {
    pub machine: Machine,
    pub kept: u32,
    pub hops: Hops,
}

/// Takes the events of entries again, as `replay` does, and gives the messages that each sends to the
/// routers of the image's mesh, in order. Refused as `replay` is; entries that send 2^32 messages
/// meet `NoMemory`.
pub fn carry(
    alloc: Global,
    image: &Image,
    params: &Params,
    entries: &Journal,
) -> Result<Carried, FitErr>
    ensures replays { Replays image.now params.now entries.now (replayed_in result) }
    ensures loaded { IfOk result (λ carried. MessagesAreLoaded carried.machine carried.hops) }
{
    let mut machine = Machine::start(alloc, image, params)?;
    let hops = Hops::start(alloc, image.width(), image.height())?;
    let mut routers = Routers { hops };
    take_all(&mut machine, entries.members(), &mut routers)?;
    let kept = machine.journal().len();
    Ok(Carried {
        machine,
        kept,
        hops: routers.hops,
    })
}

// The routers of a mesh, to which what each event sends is given.
#[derive(Drop)]
struct Routers {
    hops: Hops,
}

impl Watch for Routers {
    ghost told = { λ start h now. RouteIsUnderWay h now.hops };

    fn event(&mut self, machine: &mut Machine, entry: Entry) -> Result<(), NoMemory> {
        machine.take(entry.event)?;
        inject_all(&mut self.hops, entry.event.node(), machine.last_sent())?;
        Ok(())
    }
}

// Gives the router of a node what the node sends, in order.
fn inject_all(hops: &mut Hops, from: NodeNo, sends: &Sends) -> Result<(), NoMemory>
    requires from { from.0 < count_of hops.old }
    requires goals { GoBelow (count_of hops.old) sends.now.messages }
    ensures { OnOk result (hops.new ≡ after_sends hops.old from.0 sends.now.messages) }
{
    for i in 0..sends.len() {
        let (to, msg) = sends.at(i);
        if hops.injected() == u32::MAX {
            return Err(NoMemory);
        }
        hops.inject(from, to, msg)?;
    }
    Ok(())
}
