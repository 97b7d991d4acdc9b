//! Nodes that go through a window apart, each in a picture of its own.
#![tactic(auto)]

ghost use Rattle.std.specs.Prelude.{◌≡◌, ◌≢◌, ◌+◌, ◌<◌, ◌≤◌, ℕ, true, List, ◌↔◌};
ghost use Rattle.alw_msg.specs.declared.messages.Msg.{Msg};
ghost use Rattle.alw_msg.specs.declared.events.Event.{Event};
ghost use Rattle.alw_msg.specs.Events.{node_of};
ghost use Rattle.alw_image.specs.declared.parts.Parts.{Parts};
ghost use Rattle.alw_image.specs.Images.{node_count};
ghost use Rattle.alw_mesh.specs.Histories.{History, IsRun, may_be_next, grown};
ghost use Rattle.alw_times.specs.declared.costs.Costs.{Costs};
ghost use Rattle.alw_due.specs.Due.{times_in};
ghost use Rattle.law_windows.specs.Windows.{lookahead, start_next, ComesBelow, timeline, told_of, grown_by};
ghost use Rattle.law_windows.specs.Following.{WindowsFollow};
ghost use Rattle.law_windows.specs.Turns.{in_turn, GoInTurn, IsSortOf, events_told};
ghost use Rattle.law_apart.specs.Pictures.{Picture, picture_of, IsPicture, HasCome, ShowsBelow, ShowsBut, Shows, all_come, and_come};
ghost use Rattle.law_apart.specs.Alone.{after_in, after_all, start_in, ComesIn, told_in, sent_by, sent_in, WhereRunIn, WhereShownBelow, WhereShownBut};
ghost use Rattle.law_apart.specs.Apart.{nodes_of, parts_of, last_of, latest_by, WhereNodesGoApart};
ghost use Rattle.law_apart.specs.Through.{pictures_behind, told_through, windows_of, machine_behind, WhereWindowsAreTaken};

/// A machine is a picture. One stays a picture along a node's run, and where messages come. What the run sends to
/// another node stands behind what was on the link to it, each message with its arrival.
pub fn pictures_go_on()
    ensures begins { (h : History) → (costs : Costs) → IsRun h → IsPicture h.image (picture_of h costs) }
    ensures runs { WhereRunIn (λ image parameters costs n bound picture events. IsPicture image (after_all image parameters costs picture events)) }
    ensures sent { WhereRunIn (λ image parameters costs n bound picture events. (to : ℕ) → to < node_count image → to ≢ n →
        HasCome image to n (sent_in image parameters costs picture to events) (after_all image parameters costs picture events) picture) }
    ensures come { (image : Parts) → (n : ℕ) → (come : ℕ → List (Msg × ℕ)) → (nodes : List ℕ) → (picture : Picture) → IsPicture image picture → IsPicture image (all_come image n come nodes picture) }
{}

/// Where a picture shows a node of a machine below a bound, the same comes next at it in both, below that bound,
/// with the same start. Once this has happened in both the picture still shows the node, and it has sent the
/// same messages with the same arrivals. An event of another node leaves it so up to the lookahead behind that
/// event's start. Where a picture shows all of a node but for what has come from others, an event of another
/// node is what has come more, and once all has come the picture shows the node as it is.
pub fn pictures_show_nodes()
    ensures comes { WhereShownBelow (λ h costs n bound part. (event : Event) → ComesBelow h costs n bound event ↔ ComesIn h.image h.parameters costs part n bound event) }
    ensures starts { WhereShownBelow (λ h costs n bound part. (event : Event) → ComesBelow h costs n bound event → start_in h.image h.parameters costs part event ≡ start_next h costs event) }
    ensures own { WhereShownBelow (λ h costs n bound part. (event : Event) → ComesBelow h costs n bound event →
        ShowsBelow h.image n bound (picture_of (grown h event) costs) (after_in h.image h.parameters costs part event)) }
    ensures sends { WhereShownBelow (λ h costs n bound part. (event : Event) → ComesBelow h costs n bound event → (to : ℕ) →
        sent_by h.image h.parameters costs part to event ≡ sent_by h.image h.parameters costs (picture_of h costs) to event) }
    ensures others { WhereShownBelow (λ h costs n bound part. (event : Event) → may_be_next h event ≡ true → n ≢ node_of event → bound ≤ start_next h costs event + lookahead costs →
        ShowsBelow h.image n bound (picture_of (grown h event) costs) part) }
    ensures exact { (h : History) → (costs : Costs) → (part : Picture) → IsRun h → IsPicture h.image part → (event : Event) → may_be_next h event ≡ true →
        Shows h.image (node_of event) (picture_of h costs) part → Shows h.image (node_of event) (picture_of (grown h event) costs) (after_in h.image h.parameters costs part event) }
    ensures more { WhereShownBut (λ h costs n come part. (event : Event) → may_be_next h event ≡ true → n ≢ node_of event →
        ShowsBut h.image n (and_come (node_of event) (sent_by h.image h.parameters costs (picture_of h costs) n event) come) (picture_of (grown h event) costs) part) }
    ensures put { WhereShownBut (λ h costs n come part. Shows h.image n (picture_of h costs) (all_come h.image n come (nodes_of h) part)) }
{}

/// Nodes may go through a window apart, each in a picture of its own. What each did is then a run in turn of all,
/// and is told there with the same starts. Once what the others sent to a node has come, its last picture shows
/// it in the machine that they leave, and in the machine that the sort leaves. The greatest finish is that of the last
/// pictures, and of the machine before.
pub fn nodes_may_go_apart()
    ensures turns { WhereNodesGoApart (λ h costs from pictures own. GoInTurn h costs from (nodes_of h) (parts_of h own)) }
    ensures told { WhereNodesGoApart (λ h costs from pictures own. (n : ℕ) → n < node_count h.image →
        told_of n (timeline h costs (in_turn (parts_of h own))) ≡ told_in h.image h.parameters costs (pictures n) (own n)) }
    ensures shows { WhereNodesGoApart (λ h costs from pictures own. (n : ℕ) → n < node_count h.image → Shows h.image n (picture_of (grown_by h (in_turn (parts_of h own))) costs)
        (all_come h.image n (λ k. sent_in h.image h.parameters costs (pictures k) n (own k)) (nodes_of h) (last_of h costs pictures own n))) }
    ensures latest { WhereNodesGoApart (λ h costs from pictures own. ((n : ℕ) → n < node_count h.image → (pictures n).times.latest ≤ (times_in h costs).latest) →
        (times_in (grown_by h (in_turn (parts_of h own))) costs).latest ≡ latest_by (last_of h costs pictures own) (nodes_of h) (times_in h costs).latest) }
    ensures sorted { WhereNodesGoApart (λ h costs from pictures own. (sorted : List (ℕ × Event)) → IsSortOf sorted (timeline h costs (in_turn (parts_of h own))) → (n : ℕ) → n < node_count h.image →
        Shows h.image n (picture_of (grown_by h (events_told sorted)) costs)
        (all_come h.image n (λ k. sent_in h.image h.parameters costs (pictures k) n (own k)) (nodes_of h) (last_of h costs pictures own n))) }
{}

/// Nodes may go apart through windows one behind another, where between two of them nothing is handed over but
/// what was sent. Their events, window after window and each sorted by start and then by node, are what the timed
/// schedule takes; each node is told there as in its pictures, and its last one shows it as the machine stands.
pub fn windows_go_apart()
    ensures follow { WhereWindowsAreTaken (λ h costs from pictures windows. WindowsFollow h costs from (windows_of h costs windows) (machine_behind h costs windows)) }
    ensures told { WhereWindowsAreTaken (λ h costs from pictures windows. (n : ℕ) → n < node_count h.image →
        told_of n (timeline h costs (in_turn (windows_of h costs windows))) ≡ told_through h.image h.parameters costs pictures n windows) }
    ensures shows { WhereWindowsAreTaken (λ h costs from pictures windows. (n : ℕ) → n < node_count h.image →
        Shows h.image n (picture_of (machine_behind h costs windows) costs) (pictures_behind h.image h.parameters costs pictures windows n)) }
{}
