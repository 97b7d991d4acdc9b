ghost use Rattle.std.specs.Prelude.{◌≡◌, ℕ, ◌<◌, true, IsTrue, Some, List, ◌∷◌};
ghost use Rattle.alw_num.specs.NodeSets.{has_node};
ghost use Rattle.alw_image.specs.declared.parts.Parts.{Parts};
ghost use Rattle.alw_image.specs.Images.{node_count, line_count};
ghost use Rattle.alw_image.specs.Parameters.{Parameters};
ghost use Rattle.alw_msg.specs.declared.events.Entry.{Entry};
ghost use Rattle.alw_msg.specs.declared.events.Event.{Event};
ghost use Rattle.alw_msg.specs.declared.messages.Msg.{Msg};
ghost use Rattle.alw_msg.specs.Contents.{ToCache, ForCache, content};
ghost use Rattle.alw_msg.specs.Events.{node_of};
ghost use Rattle.alw_model.specs.Machine.{MachineState, is_enabled, taken_by, step};
ghost use Rattle.alw_model.specs.Lines.{line_of};
ghost use Rattle.alw_model.specs.Runs.{moment_of, acted_by};
ghost use Rattle.law_line.specs.Exchanges.{acted_in};
ghost use Rattle.law_lines.specs.LineEvents.{Follows, line_events};
ghost use Rattle.law_lines.specs.Standing.{IsStanding};

/// Each line follows each enabled event of a machine that stands: the event is at most one event of
/// the line's own machine, and a legal one. A trap is none; the handler's action on a packet is the
/// same as hardware's on a message.
pub fn lines_follow()
    ensures { (parts : Parts) → (parameters : Parameters) → (machine : MachineState) → IsStanding parts parameters machine
        → ((l : ℕ) → l < line_count parts → (j : ℕ) → has_node (line_of parts parameters machine l).home.pointers j ≡ true → j < node_count parts)
        → (line : ℕ) → line < line_count parts → (event : Event) → IsTrue (is_enabled parts parameters machine event)
        → Follows (node_count parts) (line_of parts parameters machine line) (line_events parts parameters machine event line) (line_of parts parameters (step parts parameters machine event) line) }
{}

/// An event takes messages in the order in which they were sent. What it acts on, a message that it
/// takes without a trap or a packet, is what the line's home acts on: the first of its sender's about
/// the line. And a message to a cache is the first that its node is sent about its line.
#[tactic(auto, using(crate::proofs::Acted::event_acts))]
pub fn messages_keep_their_order()
    ensures acted { (parts : Parts) → (parameters : Parameters) → (machine : MachineState) → IsStanding parts parameters machine
        → (line : ℕ) → line < line_count parts → (entry : Entry) → IsTrue (is_enabled parts parameters machine entry.event)
        → acted_by line (moment_of parts parameters machine entry) (moment_of parts parameters machine entry).stepped.did ≡ acted_in (line_of parts parameters machine line) (line_events parts parameters machine entry.event line) }
    ensures comes { (parts : Parts) → (parameters : Parameters) → (machine : MachineState) → IsStanding parts parameters machine
        → (event : Event) → IsTrue (is_enabled parts parameters machine event) → (msg : Msg) → taken_by parts machine event ≡ Some msg → (said : ToCache) → content msg ≡ ForCache said
        → (msg.line.0 < line_count parts) × ((rest : List ToCache) × (((line_of parts parameters machine msg.line.0).node (node_of event)).down ≡ said ∷ rest)) }
{}
