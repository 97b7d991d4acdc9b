ghost use Rattle.std.specs.Prelude.{◌≡◌, not};
ghost use Rattle.std.specs.List.{list_any};
ghost use Rattle.alw_msg.specs.Lists.{is_nonempty};
ghost use Rattle.alw_model.specs.Machine as machines;
ghost use Rattle.alw_model.specs.Machine.{MachineState, machine_start};

use alw_image::Image;
use alw_model::Did;
use alw_msg::Event;
use sparc_table::Outcome;

/// What remains to be done at all nodes of a machine: contexts that haven't halted, those of them that
/// have trapped, and packets that wait for the trap handler.
#[derive(Clone, Copy, PartialEq, Eq)]
pub struct Remains {
    pub live: u32,
    pub trapped: u32,
    pub packets: u32,
}

impl Remains {
    ghost use Rattle.alw_tally.specs.Remaining.{remains_of, remains_after, MayFollow};

    /// What remains at the start of an image: the contexts that have a start.
    #[tactic(auto, using(crate::proofs::Starting::remains_at_start))]
    pub fn start(image: &Image) -> Remains
        ensures { result ≡ remains_of (machine_start image.now).nodes }
    {
        Remains {
            live: image.parts().starts.len(),
            trapped: 0,
            packets: 0,
        }
    }

    /// An event happened, and did this. Trapped contexts are counted among those that haven't halted.
    pub fn follow(&mut self, event: Event, did: Did)
        requires { MayFollow self.old event did }
        ensures { self.new ≡ remains_after self.old event did }
    {
        if let Event::Handle { .. } = event {
            self.packets -= 1;
            return;
        }
        match did {
            Did::Turn {
                outcome: Outcome::Halt,
                ..
            } => self.live -= 1,
            Did::Turn {
                outcome: Outcome::Trap { .. },
                ..
            } => self.trapped += 1,
            Did::Packet => self.packets += 1,
            _ => {}
        }
    }

    /// A context has trapped.
    #[tactic(auto, using(crate::proofs::Ending::trapped_is))]
    pub fn any_trapped(self) -> bool
        ensures { (machine : MachineState) → self ≡ remains_of machine.nodes → result ≡ machines.any_trapped machine }
    {
        self.trapped != 0
    }

    /// Every context has halted.
    #[tactic(auto, using(crate::proofs::Ending::halted_is))]
    pub fn has_halted(self) -> bool
        ensures { (machine : MachineState) → self ≡ remains_of machine.nodes → result ≡ machines.has_halted machine }
    {
        self.live == 0
    }

    /// No packet waits for its handler. A machine is settled where besides no message is on a link.
    #[tactic(auto, using(crate::proofs::Ending::handled_is))]
    pub fn is_handled(self) -> bool
        ensures { (machine : MachineState) → self ≡ remains_of machine.nodes → result ≡ not (list_any (λ node. is_nonempty node.packets) machine.nodes) }
    {
        self.packets == 0
    }
}
