ghost use Rattle.std.specs.Prelude.{◌≡◌, ◌↔◌, List};
ghost use Rattle.alw_msg.specs.declared.events.Entry.{Entry};
ghost use Rattle.alw_image.specs.declared.parts.Parts.{Parts};
ghost use Rattle.alw_image.specs.Images.{IsImage};
ghost use Rattle.alw_image.specs.Numbers.{HasWords};
ghost use Rattle.alw_image.specs.Parameters.{Parameters, AreParameters};
ghost use Rattle.alw_model.specs.Machine.{IsLegal, state};
ghost use Rattle.alw_save.specs.States.{state_text};

/// The text of a machine's state, as a checkpoint has it, tells the state. Of one image of 32-bit
/// words, the machines after two legal journals have the same text exactly where they are the same
/// machine, whatever the parameters of each.
pub fn texts_tell_states()
    ensures { (parts : Parts) → IsImage parts → HasWords parts → (one other : Parameters) → AreParameters one → AreParameters other →
        (first second : List Entry) → IsLegal parts one first → IsLegal parts other second →
        (state_text parts (state parts one first) ≡ state_text parts (state parts other second)) ↔ (state parts one first ≡ state parts other second) }
{}
