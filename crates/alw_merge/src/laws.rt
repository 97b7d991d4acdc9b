ghost use Rattle.std.specs.Prelude.{◌≡◌, ℕ, is_some, List, length};
ghost use Rattle.alw_msg.specs.declared.events.Entry.{Entry};
ghost use Rattle.alw_image.specs.declared.parts.Parts.{Parts};
ghost use Rattle.alw_image.specs.Images.{IsImage};
ghost use Rattle.alw_image.specs.Parameters.{Parameters};
ghost use Rattle.alw_model.specs.Machine.{state, any_trapped, IsLegal};
ghost use Rattle.alw_model.specs.Runs.{moments};
ghost use Rattle.alw_model.specs.Ends.{first_trap};
ghost use Rattle.alw_model.specs.Threads.{merged};
ghost use Rattle.law_order.specs.Merges.{EveryLogs};
ghost use Rattle.alw_mesh.specs.Histories.{History};
ghost use Rattle.alw_replay.specs.Replays.{IsReplayed};

/// A replay keeps the whole merge of local runs whose links agree.
pub fn merges_are_kept()
    ensures kept { EveryLogs (λ parts parameters logs. (machine : History) → (kept : ℕ) → IsReplayed parts parameters (merged logs) machine kept →
        kept ≡ length (merged logs)) }
    ensures journal { EveryLogs (λ parts parameters logs. (machine : History) → (kept : ℕ) → IsReplayed parts parameters (merged logs) machine kept →
        machine.journal ≡ merged logs) }
{}

/// After a legal journal of an image, as the merge of logs is one, a context has trapped exactly where an
/// entry of the journal is a trapping turn.
pub fn traps_are_turns()
    ensures { (parts : Parts) → IsImage parts → (parameters : Parameters) → (journal : List Entry) → IsLegal parts parameters journal →
        any_trapped (state parts parameters journal) ≡ is_some (first_trap 0 (moments parts parameters journal)) }
{}
