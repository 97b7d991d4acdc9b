ghost use Rattle.std.specs.Prelude.{◌≡◌, OnOk};
ghost use Rattle.alw_model.specs.Machine.{IsLegal};
ghost use Rattle.alw_mesh.specs.Histories.{begun, whole};

use crate::machines::Machine;
use crate::watches::Watch;
use alw_msg::Journal;
use alw_num::NoMemory;
use std::alloc::Global;

impl Machine {
    /// The events of this machine's journal happen again, from the start of its image, on a second machine,
    /// and are told.
    pub fn again<W: Watch>(&self, alloc: Global, watch: &mut W) -> Result<(), NoMemory>
        requires { W.told watch.old (begun self.now.image self.now.parameters) watch.old }
        ensures { OnOk result (W.told watch.old (whole self.now.image self.now.parameters self.now.journal) watch.new) }
    {
        let journal = self.journal();
        let mut second = Machine::begin(alloc, self.image(), self.params())?;
        tell_all(&mut second, journal, watch)
    }
}

/// The events of a legal journal happen on a machine that hasn't begun, and are told.
pub fn tell_all<W: Watch>(
    second: &mut Machine,
    journal: &Journal,
    watch: &mut W,
) -> Result<(), NoMemory>
    requires begun { second.old ≡ begun second.old.image second.old.parameters }
    requires legal { IsLegal second.old.image second.old.parameters journal.now }
    requires told { W.told watch.old second.old watch.old }
    ensures { OnOk result (W.told watch.old (whole second.old.image second.old.parameters journal.now) watch.new) }
{
    for entry in journal.members() {
        watch.event(second, *entry)?;
    }
    Ok(())
}
