ghost use Rattle.std.specs.Prelude.{◌≡◌, ℕ, ◌<◌, ◌≤◌, nat_lt, ◌&&◌, cond, ◌||◌, ◌==◌, List, length};
ghost use Rattle.alw_num.specs.NodeSets.{has_node, nodes_of};
ghost use Rattle.alw_msg.specs.declared.events.Entry.{Entry};
ghost use Rattle.alw_msg.specs.Events.{node_of};
ghost use Rattle.alw_msg.specs.Lists.{is_nonempty};
ghost use Rattle.alw_image.specs.Images.{node_count};
ghost use Rattle.alw_model.specs.Machine.{state, link_at, IsLegal};
ghost use Rattle.law_lines.specs.Links.{GoBelow};
ghost use Rattle.law_order.specs.Orders.{takes_from};
ghost use Rattle.alw_ready.specs.Rows.{delivery};
ghost use Rattle.alw_ready.specs.Fits.{may_happen, HeadsAreFit, RowFits, RowsFit};
ghost use Rattle.alw_ready.specs.Changes.{ComesFromBelow, SenderIsLookedAt, OwnRowIsRenewed, RowsFitBut, EventIsTold};

use crate::changes::Happened;
use crate::ready::Ready;
use crate::rows::Row;
use crate::views::View;
use alw_msg::{Event, Sends};
use alw_num::{MOST_NODES, NodeNo, NodeSet};

impl Ready {
    /// Every row is made anew: each node, and each message at the head of a link, is looked at once.
    pub fn renew_all<V: View>(&mut self, view: &V)
        requires counted { length self.old ≡ node_count (V.image view.now) }
        requires few { node_count (V.image view.now) ≤ MOST_NODES }
        requires fit { HeadsAreFit (V.image view.now) (V.state view.now) }
        ensures { RowsFit (V.image view.now) (V.parameters view.now) (V.state view.now) self.new }
    {
        for at in 0..self.nodes() {
            let node = NodeNo(at);
            self.set(node, row_of(view, node));
        }
    }

    /// Takes the rows from before an event to after it, over the machine after it. It looks at the
    /// event's own node, at the link that it took from, and at the links of its sends; where the event is
    /// wide also at the heads of all links to its node that hold something; and where with it every
    /// context has halted at all nodes.
    #[inline(always)]
    pub fn renew<V: View>(&mut self, view: &V, happened: &Happened, sends: &Sends)
        requires counted { length self.old ≡ node_count (V.image view.now) }
        requires few { node_count (V.image view.now) ≤ MOST_NODES }
        requires here { node_of happened.now.event < length self.old }
        requires from { ComesFromBelow (length self.old) happened.now.event }
        requires below { GoBelow (length self.old) sends.now.messages }
        requires fit { HeadsAreFit (V.image view.now) (V.state view.now) }
        ensures { (journal : List Entry) → IsLegal (V.image view.now) (V.parameters view.now) journal →
            EventIsTold (V.image view.now) (V.parameters view.now) (state (V.image view.now) (V.parameters view.now) journal) (V.state view.now) happened.now sends.now.messages →
            RowsFit (V.image view.now) (V.parameters view.now) (state (V.image view.now) (V.parameters view.now) journal) self.old →
            RowsFit (V.image view.now) (V.parameters view.now) (V.state view.now) self.new }
    {
        if happened.halted {
            self.renew_all(view);
            return;
        }
        self.renew_own(view, happened);
        self.renew_sent(view, happened.event.node(), sends);
    }

    // Looks again at the row of an event's own node.
    #[inline(always)]
    fn renew_own<V: View>(&mut self, view: &V, happened: &Happened)
        requires counted { length self.old ≡ node_count (V.image view.now) }
        requires few { node_count (V.image view.now) ≤ MOST_NODES }
        requires here { node_of happened.now.event < length self.old }
        requires from { ComesFromBelow (length self.old) happened.now.event }
        requires fit { HeadsAreFit (V.image view.now) (V.state view.now) }
        ensures { OwnRowIsRenewed (V.image view.now) (V.parameters view.now) (V.state view.now) happened.now self.old self.new }
    {
        let node = happened.event.node();
        let senders = own_senders(view, happened, self.row(node).senders);
        let own = view.row(node);
        self.set(
            node,
            Row {
                in_time: own.in_time,
                instr: own.instr,
                handle: own.handle,
                senders,
            },
        );
    }

    // Looks again at the heads of the links that a node sent to.
    #[inline(always)]
    fn renew_sent<V: View>(&mut self, view: &V, from: NodeNo, sends: &Sends)
        requires counted { length self.old ≡ node_count (V.image view.now) }
        requires few { node_count (V.image view.now) ≤ MOST_NODES }
        requires from { from.0 < length self.old }
        requires below { GoBelow (length self.old) sends.now.messages }
        requires fit { HeadsAreFit (V.image view.now) (V.state view.now) }
        ensures { RowsFitBut (V.image view.now) (V.parameters view.now) (V.state view.now) from.0 sends.now.messages self.old →
            RowsFit (V.image view.now) (V.parameters view.now) (V.state view.now) self.new }
    {
        for i in 0..sends.len() {
            let (to, _) = sends.at(i);
            self.look(view, from, to);
        }
    }

    // Looks again at the head of a link.
    #[inline(always)]
    fn look<V: View>(&mut self, view: &V, from: NodeNo, to: NodeNo)
        requires counted { length self.old ≡ node_count (V.image view.now) }
        requires few { node_count (V.image view.now) ≤ MOST_NODES }
        requires from { from.0 < length self.old }
        requires here { to.0 < length self.old }
        requires fit { HeadsAreFit (V.image view.now) (V.state view.now) }
        ensures { SenderIsLookedAt (may_happen (V.image view.now) (V.parameters view.now) (V.state view.now)) from.0 to.0 self.old self.new }
    {
        self.set_sender(to, from, view.arrives(from, to));
    }
}

// The nodes from which a delivery to an event's own node may happen, from those before it.
#[inline(always)]
fn own_senders<V: View>(view: &V, happened: &Happened, senders: NodeSet) -> NodeSet
    requires few { node_count (V.image view.now) ≤ MOST_NODES }
    requires here { node_of happened.now.event < node_count (V.image view.now) }
    requires from { ComesFromBelow (node_count (V.image view.now)) happened.now.event }
    requires fit { HeadsAreFit (V.image view.now) (V.state view.now) }
    ensures { (from : ℕ) → has_node (nodes_of result) from ≡ cond (happened.now.wide || takes_from happened.now.event from (node_of happened.now.event))
        (may_happen (V.image view.now) (V.parameters view.now) (V.state view.now) (delivery from (node_of happened.now.event))) (has_node (nodes_of senders) from) }
{
    if happened.wide {
        return deliverable(view, happened.event.node());
    }
    match happened.event {
        Event::Deliver { from, to } => looked_at(view, senders, from, to),
        Event::Instr { .. } | Event::Handle { .. } | Event::Evict { .. } => senders,
    }
}

// The row of a node.
fn row_of<V: View>(view: &V, node: NodeNo) -> Row
    requires few { node_count (V.image view.now) ≤ MOST_NODES }
    requires here { node.0 < node_count (V.image view.now) }
    requires fit { HeadsAreFit (V.image view.now) (V.state view.now) }
    ensures { RowFits (V.image view.now) (V.parameters view.now) (V.state view.now) node.0 result }
{
    Row {
        senders: deliverable(view, node),
        ..view.row(node)
    }
}

// The nodes from which a delivery to this one may happen. Mostly nothing is on its links.
#[inline(always)]
fn deliverable<V: View>(view: &V, to: NodeNo) -> NodeSet
    requires few { node_count (V.image view.now) ≤ MOST_NODES }
    requires here { to.0 < node_count (V.image view.now) }
    requires fit { HeadsAreFit (V.image view.now) (V.state view.now) }
    ensures { (from : ℕ) → has_node (nodes_of result) from ≡ may_happen (V.image view.now) (V.parameters view.now) (V.state view.now) (delivery from to.0) }
{
    let senders = view.senders(to);
    if senders.is_empty() {
        return senders;
    }
    deliverable_of(view, senders, to)
}

// The same, by the heads of the links from those that have something on theirs.
fn deliverable_of<V: View>(view: &V, senders: NodeSet, to: NodeNo) -> NodeSet
    requires few { node_count (V.image view.now) ≤ MOST_NODES }
    requires here { to.0 < node_count (V.image view.now) }
    requires fit { HeadsAreFit (V.image view.now) (V.state view.now) }
    requires senders { (from : ℕ) → has_node (nodes_of senders) from ≡
        (nat_lt from (node_count (V.image view.now)) && is_nonempty (link_at (V.image view.now) (V.state view.now) from to.0)) }
    ensures { (from : ℕ) → has_node (nodes_of result) from ≡ may_happen (V.image view.now) (V.parameters view.now) (V.state view.now) (delivery from to.0) }
{
    let mut found = NodeSet::empty();
    let mut rest = senders;
    while let Some(from) = rest.lowest() {
        rest = rest.without(from);
        found = looked_at(view, found, from, to);
    }
    found
}

// The set with or without a sender, as a delivery from it may happen or not.
#[inline(always)]
fn looked_at<V: View>(view: &V, senders: NodeSet, from: NodeNo, to: NodeNo) -> NodeSet
    requires few { node_count (V.image view.now) ≤ MOST_NODES }
    requires from { from.0 < node_count (V.image view.now) }
    requires to { to.0 < node_count (V.image view.now) }
    requires fit { HeadsAreFit (V.image view.now) (V.state view.now) }
    ensures { (k : ℕ) → has_node (nodes_of result) k ≡ cond (k == from.0)
        (may_happen (V.image view.now) (V.parameters view.now) (V.state view.now) (delivery from.0 to.0)) (has_node (nodes_of senders) k) }
{
    let mut set = senders;
    set.put(from, view.arrives(from, to));
    set
}
