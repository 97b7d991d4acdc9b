//! Windows of the timed schedule: each node goes on by itself for as many cycles as a message takes at
//! least to another node.
#![tactic(auto)]

ghost use Rattle.std.specs.Prelude.{◌≡◌, ◌≢◌, ◌+◌, ◌*◌, ◌<◌, ◌≤◌, ℕ, true, List, ◌↔◌, length};
ghost use Rattle.alw_msg.specs.declared.events.Event.{Event};
ghost use Rattle.alw_msg.specs.Events.{node_of};
ghost use Rattle.alw_image.specs.Images.{node_count};
ghost use Rattle.alw_mesh.specs.Histories.{History, IsRun, may_be_next, grown};
ghost use Rattle.alw_times.specs.declared.costs.Costs.{Costs};
ghost use Rattle.alw_due.specs.Due.{times_in, IsFirstDue, EventsAreTimed};
ghost use Rattle.law_windows.specs.Windows.{lookahead, arrivals_between, GoOnFrom, start_next, key_next, ComesBelow, LiftsNoLimit};
ghost use Rattle.law_windows.specs.Following.{GoesOnTo, AreWindows, WhereWindowsFollow};
ghost use Rattle.law_windows.specs.Turns.{in_turn, GoInTurn, IsSortOf, WhereNodesGoInTurn, AreAlike, events_told, sort_by_start};
ghost use Rattle.law_windows.specs.Windows.{RunsAlone, grown_by, IsRunAlone, IsWindow, NothingIsLeft, events_of, timeline, told_of, AreMerged, IsMergeOf, IsFrontOf};

/// What an event sends to another node arrives no sooner than the lookahead behind the event's start, and
/// behind all that was under way there. What is under way between two other nodes stays as it is.
pub fn messages_take_time()
    ensures sent { (h : History) → (costs : Costs) → (event : Event) → IsRun h → may_be_next h event ≡ true → (to : ℕ) → to < node_count h.image → to ≢ node_of event →
        GoOnFrom (start_next h costs event + lookahead costs) (arrivals_between h costs (node_of event) to) (arrivals_between (grown h event) costs (node_of event) to) }
    ensures others { (h : History) → (costs : Costs) → (event : Event) → IsRun h → may_be_next h event ≡ true → (from to : ℕ) → from ≢ node_of event → to < node_count h.image → to ≢ node_of event →
        arrivals_between (grown h event) costs from to ≡ arrivals_between h costs from to }
{}

/// An event of one node changes nothing of what comes next at another one before the lookahead behind the
/// event's start, nor the key of it, where the event lifts the limit of no node that it holds back.
pub fn nodes_choose_alone()
    ensures comes { (h : History) → (costs : Costs) → (event : Event) → IsRun h → may_be_next h event ≡ true → LiftsNoLimit h (grown h event) →
        (n : ℕ) → n < node_count h.image → n ≢ node_of event → (other : Event) →
        ComesBelow (grown h event) costs n (start_next h costs event + lookahead costs) other ↔ ComesBelow h costs n (start_next h costs event + lookahead costs) other }
    ensures key { (h : History) → (costs : Costs) → (event : Event) → IsRun h → may_be_next h event ≡ true → LiftsNoLimit h (grown h event) →
        (n : ℕ) → n < node_count h.image → n ≢ node_of event → (other : Event) →
        ComesBelow h costs n (start_next h costs event + lookahead costs) other → key_next (grown h event) costs other ≡ key_next h costs other }
{}

/// Within a window the events of each node are, in order, the first ones of its run alone below the window's
/// end, with the same starts. They are all of it where nothing that is due is left below that end.
pub fn windows_are_runs_alone()
    ensures fronts { (h : History) → (costs : Costs) → (from : ℕ) → (events : List Event) → (after : History) → IsRun h → IsWindow h costs from events after → (n : ℕ) → n < node_count h.image →
        RunsAlone h costs n (from + lookahead costs) (events_of n events) }
    ensures starts { (h : History) → (costs : Costs) → (from : ℕ) → (events : List Event) → (after : History) → IsRun h → IsWindow h costs from events after → (n : ℕ) → n < node_count h.image →
        told_of n (timeline h costs events) ≡ timeline h costs (events_of n events) }
    ensures whole { (h : History) → (costs : Costs) → (from : ℕ) → (events : List Event) → (after : History) → IsRun h → IsWindow h costs from events after → (n : ℕ) → n < node_count h.image →
        NothingIsLeft after costs (from + lookahead costs) → IsRunAlone h costs n (from + lookahead costs) (events_of n events) }
{}

/// A node's run alone is one: whatever has come of it is a front of the whole.
pub fn runs_alone_are_one()
    ensures { (h : History) → (costs : Costs) → (n bound : ℕ) → (front whole : List Event) → RunsAlone h costs n bound front → IsRunAlone h costs n bound whole → IsFrontOf front whole }
{}

/// The events of a window, told with their starts, ascend by start and then by node, and there is one such list
/// of given parts by node. So where nothing that is due is left of a window it is the merge of the nodes' whole
/// runs alone, in whatever order these were made.
pub fn windows_merge_by_start()
    ensures ascends { (h : History) → (costs : Costs) → (from : ℕ) → (events : List Event) → (after : History) → IsRun h → IsWindow h costs from events after → AreMerged (timeline h costs events) }
    ensures one { (one other : List (ℕ × Event)) → AreMerged one → AreMerged other → ((n : ℕ) → told_of n one ≡ told_of n other) → one ≡ other }
    ensures merge { (h : History) → (costs : Costs) → (from : ℕ) → (events : List Event) → (after : History) → IsRun h → IsWindow h costs from events after →
        NothingIsLeft after costs (from + lookahead costs) → (own : ℕ → List Event) → ((n : ℕ) → n < node_count h.image → IsRunAlone h costs n (from + lookahead costs) (own n)) →
        (told : List (ℕ × Event)) → IsMergeOf h costs own told → told ≡ timeline h costs events }
{}

/// Nodes may go through a window in turn, each by itself in the machine that those before it left. Whatever list
/// is the sort by start and node of what is told of them is what the timed schedule takes, up to the window's
/// end, and it leaves the state and the times that they leave. There is such a list. None of them traps.
pub fn nodes_may_go_in_turn()
    ensures sort { (h : History) → (costs : Costs) → (from : ℕ) → (nodes : List ℕ) → (parts : List (List Event)) → IsRun h → GoInTurn h costs from nodes parts →
        IsSortOf (sort_by_start (timeline h costs (in_turn parts))) (timeline h costs (in_turn parts)) }
    ensures timed { WhereNodesGoInTurn (λ h costs from turns sorted. IsWindow h costs from (events_told sorted) (grown_by h (events_told sorted))) }
    ensures told { WhereNodesGoInTurn (λ h costs from turns sorted. timeline h costs (events_told sorted) ≡ sorted) }
    ensures left { WhereNodesGoInTurn (λ h costs from turns sorted. NothingIsLeft (grown_by h (events_told sorted)) costs (from + lookahead costs)) }
    ensures after { WhereNodesGoInTurn (λ h costs from turns sorted. AreAlike costs (grown_by h (events_told sorted)) (grown_by h turns)) }
{}

/// Windows follow one on another. Where nothing is left below a time a window may begin there, and what nodes do
/// in turn, once it is sorted, goes on to its end. Whatever the timed schedule takes up to one bound after
/// another, each the lookahead behind the last and nothing left below it, is a window each time. The events of
/// all, joined, are timed, and ascend by start and then by node; nothing is left below the last bound.
pub fn windows_follow()
    ensures begins { (h : History) → (costs : Costs) → (from : ℕ) → NothingIsLeft h costs from → (event : Event) → IsFirstDue h costs (times_in h costs) event → from ≤ start_next h costs event }
    ensures turns { WhereNodesGoInTurn (λ h costs from turns sorted. GoesOnTo h costs (from + lookahead costs) (events_told sorted)) }
    ensures windows { WhereWindowsFollow (λ h costs from windows after. AreWindows h costs from windows) }
    ensures timed { WhereWindowsFollow (λ h costs from windows after. EventsAreTimed h costs (in_turn windows) after) }
    ensures ascends { WhereWindowsFollow (λ h costs from windows after. AreMerged (timeline h costs (in_turn windows))) }
    ensures left { WhereWindowsFollow (λ h costs from windows after. NothingIsLeft after costs (from + length windows * lookahead costs)) }
{}
