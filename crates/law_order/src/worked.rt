ghost use Rattle.std.specs.Prelude.{◌≡◌, ◌∷◌, []};
ghost use Rattle.alw_model.specs.Threads.{in_order, merged};
ghost use Rattle.alw_model.specs.Rows.{I, D, defaults, logs_of};
ghost use Rattle.alw_model.specs.Rows.TwoNodes.{writers_image, writers_journal};
ghost use Rattle.law_order.specs.Orders.{kept_by, later_than};

/// A worked run of two nodes, in which node 1's first entries stand behind later stamps of node 0:
/// sorted, cut at stamps 2 and 15, and merged from its logs. A cut at the first entry above stamp 2
/// would lose node 1's entries.
#[tactic(auto, unfolding(alw_model::specs::Rows::closed_runs, alw_model::specs::Rows::TwoNodes::two_node_runs))]
pub fn worked_journal()
    ensures sorted { in_order writers_journal
        ≡ I 1 0 ∷ I 1 1 ∷ I 2 0 ∷ I 2 1 ∷ D 3 0 0 ∷ D 4 0 0 ∷ I 5 0 ∷ D 6 1 0 ∷ D 7 0 0 ∷ D 8 0 0 ∷ I 9 0 ∷ D 9 0 1 ∷ D 10 0 0 ∷ I 10 1 ∷
        I 11 1 ∷ D 12 0 1 ∷ D 13 1 0 ∷ D 14 0 0 ∷ I 15 0 ∷ I 16 0 ∷ I 17 0 ∷ [] }
    ensures at_two { kept_by 2 writers_journal ≡ I 1 0 ∷ I 2 0 ∷ I 1 1 ∷ I 2 1 ∷ [] }
    ensures after_fifteen { later_than 15 writers_journal ≡ I 16 0 ∷ I 17 0 ∷ [] }
    ensures merged { merged (logs_of writers_image defaults writers_journal) ≡ in_order writers_journal }
{}
