ghost use Rattle.std.specs.Prelude.{◌≡◌, ℕ, List};
ghost use Rattle.alw_image.specs.declared.parts.Parts.{Parts};
ghost use Rattle.alw_image.specs.Parameters.{Parameters};
ghost use Rattle.alw_model.specs.NodeStates.{node_start};
ghost use Rattle.alw_model.specs.Threads.{Logged, IsLocalRun, node_after};
ghost use Rattle.alw_node.specs.Shares.{share_of};
ghost use Rattle.alw_cells.specs.Cells.{dids_of};

/// A local run of a node by its share of an image is one by the image, leaves the node alike, and does
/// the same.
pub fn cells_are_runs()
    ensures run { (parts : Parts) → (parameters : Parameters) → (number : ℕ) → (log : List Logged) →
        IsLocalRun (share_of parts number) parameters number log → IsLocalRun parts parameters number log }
    ensures state { (parts : Parts) → (parameters : Parameters) → (number : ℕ) → (log : List Logged) →
        node_after (share_of parts number) parameters number (node_start (share_of parts number) number) log ≡ node_after parts parameters number (node_start parts number) log }
    ensures dids { (parts : Parts) → (parameters : Parameters) → (number : ℕ) → (log : List Logged) →
        dids_of (share_of parts number) parameters number log ≡ dids_of parts parameters number log }
{}
