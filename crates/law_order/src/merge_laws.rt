ghost use Rattle.std.specs.Prelude.{◌≡◌, ℕ, ◌<◌, ◌++◌};
ghost use Rattle.std.specs.List.Sorted.{IsPermutation};
ghost use Rattle.alw_image.specs.declared.parts.Parts.{Parts};
ghost use Rattle.alw_image.specs.Images.{node_count};
ghost use Rattle.alw_image.specs.Parameters.{Parameters};
ghost use Rattle.alw_model.specs.NodeStates.{node_start};
ghost use Rattle.alw_model.specs.Machine.{node_at, link_at, state, IsLegal};
ghost use Rattle.alw_model.specs.Threads.{Logs, log_at, node_after, took_from, sent_to, in_order, merged};
ghost use Rattle.alw_model.specs.Rows.{logs_of};
ghost use Rattle.law_order.specs.Orders.{EveryJournal, Ascends};
ghost use Rattle.law_order.specs.Merges.{AreLocalRuns, JournalIsWithin, EveryLogs, entries_of};

/// The logs of all nodes, each a run of its node alone, merge to a legal journal where their links
/// agree: its entries are those of the logs, each as often, by stamp and then by node number. Each
/// node ends as its log leaves it, and each link holds what the one log sent beyond what the other
/// took. The logs of that journal are these logs.
pub fn agreeing_logs_merge()
    ensures legal { EveryLogs (λ parts parameters logs. IsLegal parts parameters (merged logs)) }
    ensures entries { EveryLogs (λ parts parameters logs. IsPermutation (entries_of logs) (merged logs)) }
    ensures ascends { EveryLogs (λ parts parameters logs. Ascends (merged logs)) }
    ensures nodes { EveryLogs (λ parts parameters logs. (n : ℕ) → n < node_count parts →
        node_at (state parts parameters (merged logs)) n ≡ node_after parts parameters n (node_start parts n) (log_at logs n)) }
    ensures links { EveryLogs (λ parts parameters logs. (from to : ℕ) → to < node_count parts →
        took_from from (log_at logs to) ++ link_at parts (state parts parameters (merged logs)) from to ≡ sent_to to (log_at logs from)) }
    ensures logs { EveryLogs (λ parts parameters logs. (n : ℕ) → n < node_count parts → log_at (logs_of parts parameters (merged logs)) n ≡ log_at logs n) }
{}

/// The other way round: the logs of a legal journal, whose stamps are within the limit, are local runs
/// whose links agree, and they merge to the journal sorted by stamp and node number.
pub fn logs_of_a_journal_merge()
    ensures runs { EveryJournal (λ parts parameters journal. JournalIsWithin parameters journal → AreLocalRuns parts parameters (logs_of parts parameters journal)) }
    ensures sorted { EveryJournal (λ parts parameters journal. JournalIsWithin parameters journal → merged (logs_of parts parameters journal) ≡ in_order journal) }
{}
