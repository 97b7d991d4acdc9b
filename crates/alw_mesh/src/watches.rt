ghost use Rattle.std.specs.Prelude.{◌≡◌, OnOk};
ghost use Rattle.alw_model.specs.Machine.{IsNext};
ghost use Rattle.alw_mesh.specs.Histories.{History, grown, state_of};

use crate::machines::Machine;
use alw_msg::Entry;
use alw_num::NoMemory;

/// One that is told of a run, event by event.
pub trait Watch {
    /// A watcher was one thing when a run began, and is another once the events of a history have been told to it.
    ghost told: { Self → History → Self → Type 0 };

    /// The event of an entry happens on a machine, and is told.
    fn event(&mut self, machine: &mut Machine, entry: Entry) -> Result<(), NoMemory>
        requires next { IsNext machine.old.image machine.old.parameters (state_of machine.old) entry }
        requires so_far { (start : Self) × told start machine.old self.old }
        ensures machine { OnOk result (machine.new ≡ grown machine.old entry.event) }
        ensures told { OnOk result ((start : Self) → told start machine.old self.old → told start machine.new self.new) };
}
