ghost use Rattle.std.specs.Prelude.{IfOk};
ghost use Rattle.alw_model.specs.Runs.{moments};
ghost use Rattle.alw_profile.specs.Tallies.{AreBlank, AreTold};

use crate::tallies::{Tables, tell_event};
use alw_mesh::{Machine, Watch};
use alw_msg::Entry;
use alw_num::NoMemory;
use std::alloc::Global;

/// What is told of a machine's run: a second machine takes the events again.
pub fn tell_run(alloc: Global, machine: &Machine) -> Result<Tables, NoMemory>
    ensures { IfOk result (λ tables. AreTold machine.now.image (moments machine.now.image machine.now.parameters machine.now.journal) tables) }
{
    let mut tables = Tables::blank(alloc, machine.image())?;
    machine.again(alloc, &mut tables)?;
    Ok(tables)
}

impl Watch for Tables {
    ghost told = { λ start h now. AreBlank h.image start × AreTold h.image (moments h.image h.parameters h.journal) now };

    fn event(&mut self, machine: &mut Machine, entry: Entry) -> Result<(), NoMemory> {
        let _run = machine.journal(); // for its clause
        tell_event(self, machine, entry.event)?;
        Ok(())
    }
}
