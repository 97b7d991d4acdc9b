ghost use Rattle.std.specs.Prelude.{ℕ, ◌<◌, ◌≤◌};
ghost use Rattle.alw_image.specs.declared.parts.Parts.{Parts};
ghost use Rattle.alw_image.specs.Images.{node_count, line_count};
ghost use Rattle.alw_image.specs.Parameters.{Parameters};
ghost use Rattle.alw_model.specs.Machine.{MachineState};
ghost use Rattle.alw_model.specs.MachineInvariant.{MachineInvariant};
ghost use Rattle.law_machine.specs.Machines.{OnEveryMachine};
ghost use Rattle.alw_laws.specs.declared.views.LineView.{LineView};
ghost use Rattle.alw_laws.specs.Views.{MeetsInvariant};
ghost use Rattle.alw_laws.specs.Shown.{Shows};

use alw_num::MOST_NODES;

/// A view that shows exactly what a machine has of a line meets the line invariant, where the machine
/// meets the machine invariant; so after every legal journal, of every image under all parameters.
pub fn views_are_sound()
    ensures machine { (parts : Parts) → node_count parts ≤ MOST_NODES → (parameters : Parameters) → (machine : MachineState) →
        MachineInvariant parts parameters machine → (line : ℕ) → line < line_count parts → (view : LineView) → Shows parts parameters machine line view → MeetsInvariant MOST_NODES view }
    ensures journal { OnEveryMachine (λ parts parameters journal machine. (line : ℕ) → line < line_count parts → (view : LineView) →
        Shows parts parameters machine line view → MeetsInvariant MOST_NODES view) }
{}
