ghost use Rattle.std.specs.Prelude.{◌≡◌, ◌≢◌, ℕ, ◌<◌, true, false, List, filter, IsTrue};
ghost use Rattle.alw_msg.specs.declared.events.Event.{Event};
ghost use Rattle.alw_msg.specs.Events.{node_of};
ghost use Rattle.alw_msg.specs.Lists.{is_nonempty};
ghost use Rattle.alw_image.specs.declared.parts.Parts.{Parts};
ghost use Rattle.alw_image.specs.Images.{node_count};
ghost use Rattle.alw_image.specs.Parameters.{Parameters};
ghost use Rattle.alw_model.specs.Machine.{MachineState, main_events, goes_on, stepped_by};
ghost use Rattle.law_order.specs.Orders.{EveryJournal, takes_from};
ghost use Rattle.alw_ready.specs.declared.rows.Row.{Row};
ghost use Rattle.alw_ready.specs.Rows.{delivery, events_of};
ghost use Rattle.alw_ready.specs.Fits.{may_happen, is_in_time, RowsFit};
ghost use Rattle.alw_ready.specs.Changes.{is_wide_event, is_fed, is_fed_for, EveryStep};

/// Rows that fit a machine say exactly its main events that are enabled within the limit, in the
/// schedule's order. So the machine goes on exactly where they say one.
#[tactic(auto, using(crate::proofs::MainEvents::filter_main, crate::proofs::MainEvents::goes_on_is))]
pub fn rows_say_what_may_happen()
    ensures events { (parts : Parts) → (parameters : Parameters) → (machine : MachineState) → (rows : List Row) → RowsFit parts parameters machine rows →
        events_of rows ≡ filter (may_happen parts parameters machine) (main_events parts) }
    ensures goes_on { (parts : Parts) → (parameters : Parameters) → (machine : MachineState) → (rows : List Row) → RowsFit parts parameters machine rows →
        goes_on parts parameters machine ≡ is_nonempty (events_of rows) }
{}

/// An event of a legal run, with which not every context halts, leaves another node in time or not as
/// it was, and of that node's events what may happen, but for deliveries from the event's node where it
/// sent something.
pub fn other_nodes_are_left()
    ensures in_time { EveryStep (λ parts parameters machine event after. (at : ℕ) → at ≢ node_of event →
        is_in_time parameters after at ≡ is_in_time parameters machine at) }
    ensures events { EveryStep (λ parts parameters machine event after. (other : Event) → node_of other ≢ node_of event → node_of other < node_count parts →
        is_fed_for (node_of event) (stepped_by parts parameters machine event).sends other ≡ false →
        may_happen parts parameters after other ≡ may_happen parts parameters machine other) }
{}

/// At its own node such an event leaves which deliveries may happen, while the node is in time, but for
/// the link that it took from, and the node's link to itself where it sent something: unless it is wide.
pub fn own_deliveries_are_left()
    ensures in_time { EveryStep (λ parts parameters machine event after. is_in_time parameters after (node_of event) ≡ true →
        is_in_time parameters machine (node_of event) ≡ true) }
    ensures deliveries { EveryStep (λ parts parameters machine event after.
        is_wide_event parts parameters machine event ≡ false → (from : ℕ) →
        takes_from event from (node_of event) ≡ false →
        is_fed (node_of event) (stepped_by parts parameters machine event).sends from (node_of event) ≡ false →
        is_in_time parameters after (node_of event) ≡ true →
        may_happen parts parameters after (delivery from (node_of event)) ≡ may_happen parts parameters machine (delivery from (node_of event))) }
{}
