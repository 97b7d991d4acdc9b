ghost use Rattle.std.specs.Prelude.{◌≡◌, ◌+◌, ◌<◌, ◌≤◌, ◌^◌, ◌&&◌};
ghost use Rattle.std.specs.List.{list_any, list_all};
ghost use Rattle.alw_num.specs.declared.addresses.Line.{Line};
ghost use Rattle.alw_num.specs.declared.states.Mode.{Mode};
ghost use Rattle.alw_num.specs.Maps.{passes};
ghost use Rattle.alw_msg.specs.Contents.{content, reply_in, is_rreq, is_wreq, is_rdata, is_wdata, is_inv, is_busy};
ghost use Rattle.alw_msg.specs.Lists.{count_of, is_followed};
ghost use Rattle.alw_model.specs.Lines.{carried};
ghost use Rattle.alw_model.specs.LineInvariant.{same_line, data_holds, reads, writes, owes, is_recalled, order_fits, single_by};
ghost use Rattle.alw_laws.specs.Traffic.{IsTrafficUp, IsTrafficDown, sent, received, carried_by};
ghost use Rattle.alw_laws.specs.Views.{node_in, copy_in, transaction_in};
ghost use Rattle.alw_laws.specs.Parts.{stands_on, packet_said_by, link_holds};

use crate::carriers::Carried;
use crate::traffic::{Down, Up};
use crate::views::LineView;
use alw_msg::{Kind, Msg};
use alw_num::{Line, Mode, NodeNo};
use std::marker::Model;

impl LineView {
    // The copy of a node.
    fn copy_of(&self, number: NodeNo) -> Option<(Mode, Line)>
        ensures { result ≡ copy_in self.now.copies number.0 }
    {
        self.copies
            .members()
            .iter()
            .find(|copy| copy.0 == number)
            .map(|copy| (copy.1, copy.2))
    }

    // The transaction of a node.
    fn transaction_of(&self, number: NodeNo) -> Option<Mode>
        ensures { result ≡ transaction_in self.now.transactions number.0 }
    {
        self.transactions
            .members()
            .iter()
            .find(|transaction| transaction.0 == number)
            .map(|transaction| transaction.1)
    }

    // A message stands on the link of these nodes, and is about the line.
    fn is_on(&self, sent: &(NodeNo, NodeNo, Msg), from: NodeNo, to: NodeNo) -> bool
        ensures { result ≡ stands_on self.now.line.0 from.0 to.0 sent.now }
    {
        let (sender, receiver, msg) = sent;
        *sender == from && *receiver == to && msg.line == self.line
    }

    // What the packet comes to, where the node sent it.
    fn packet_of(&self, number: NodeNo) -> Up
        ensures up { IsTrafficUp result (packet_said_by self.now number.0) }
        ensures few { sent result ≤ 1 }
    {
        let mut up = Up::NONE;
        if let Some(packet) = &self.packet
            && packet.src == number
            && packet.line == self.line
        {
            up.gains(packet);
        }
        up
    }

    // What a node's messages to memory come to. The packet that waits for the handler is the first.
    fn up_of(&self, number: NodeNo) -> Up
        ensures up { IsTrafficUp result (node_in self.now number.0).up }
        ensures few { sent result < 2 ^ 40 }
    {
        let mut up = self.packet_of(number);
        for place in 0..self.links.len() {
            let sent = self.links.at_ref(place);
            if self.is_on(sent, number, self.at) {
                up.gains(&sent.2);
            }
        }
        up
    }

    // What the messages to a node's cache come to.
    fn down_of(&self, number: NodeNo) -> Down
        ensures down { IsTrafficDown result (node_in self.now number.0).down }
        ensures few { received result < 2 ^ 40 }
    {
        let mut down = Down::NONE;
        for place in 0..self.links.len() {
            let sent = self.links.at_ref(place);
            if self.is_on(sent, self.at, number) {
                down.gains(&sent.2);
            }
        }
        down
    }

    // Each RDATA on the link from the home to a node holds this value.
    fn data_holds(&self, number: NodeNo, value: Line) -> bool
        ensures { result ≡ link_holds self.now number.0 value }
    {
        self.links
            .members()
            .iter()
            .filter(|sent| self.is_on(sent, self.at, number))
            .all(|sent| holds(&sent.2, value))
    }
}

// A message is no RDATA, or holds this value.
fn holds(msg: &Msg, value: Line) -> bool
    ensures { result ≡ list_all (data_holds value) (reply_in (content msg.now)) }
{
    msg.kind != Kind::RDATA || same_line(&msg.body, &value)
}

// Two values are the same.
fn same_line(one: &Line, other: &Line) -> bool
    ensures { result ≡ same_line one.now other.now }
{
    one == other
}

/// What one node has of the line that a view shows, looked through once.
#[derive(Drop)]
pub struct Part<'a> {
    view: &'a LineView,
    number: NodeNo,
    copy: Option<(Mode, Line)>,
    transaction: Option<Mode>,
    up: Up,
    down: Down,
}

impl<'a> Model for Part<'a> {
    ghost use Rattle.alw_model.specs.Lines.{LineNode};
    ghost use Rattle.alw_laws.specs.Views.{node_in};
    ghost use Rattle.alw_laws.specs.Parts.{IsPart};

    ghost Value = { LineNode };

    ghost view = { λ p. node_in p.view.now p.number.0 };

    ghost invariant = { λ p. IsPart (node_in p.view.now p.number.0) p.copy p.transaction p.up p.down };
}

impl<'a> Part<'a> {
    /// What a node has of the line.
    pub fn of(view: &'a LineView, number: NodeNo) -> Part<'a>
        ensures { result ≡ node_in view.now number.0 }
    {
        Part {
            view,
            number,
            copy: view.copy_of(number),
            transaction: view.transaction_of(number),
            up: view.up_of(number),
            down: view.down_of(number),
        }
    }

    /// The mode of the node's transaction.
    pub fn transaction(&self) -> Option<Mode>
        ensures { result ≡ self.now.transaction }
    {
        self.transaction
    }

    /// The node's copy is Read-Only.
    pub fn reads(&self) -> bool
        ensures { result ≡ reads self.now }
    {
        matches!(self.copy, Some((Mode::Read, _)))
    }

    /// The node's copy is Read-Write.
    pub fn writes(&self) -> bool
        ensures { result ≡ writes self.now }
    {
        matches!(self.copy, Some((Mode::Write, _)))
    }

    /// The node's copy holds this value.
    pub fn copy_holds(&self, value: Line) -> bool
        ensures { result ≡ passes (λ (copy : Mode × Line). same_line copy.1 value) self.now.copy }
    {
        match &self.copy {
            None => false,
            Some((_, body)) => same_line(body, &value),
        }
    }

    /// Each RDATA on its way to the node holds this value.
    pub fn data_holds(&self, value: Line) -> bool
        ensures { result ≡ list_all (data_holds value) self.now.down }
    {
        self.view.data_holds(self.number, value)
    }

    /// Requests and replies of a Read transaction that are on their way.
    pub fn reads_on_way(&self) -> u64
        ensures is { result ≡ count_of is_rreq self.now.up + count_of is_rdata self.now.down }
        ensures few { result < 2 ^ 41 }
    {
        self.up.rreq + self.down.rdata
    }

    /// Requests and replies of a Write transaction that are on their way.
    pub fn writes_on_way(&self) -> u64
        ensures is { result ≡ count_of is_wreq self.now.up + count_of is_wdata self.now.down }
        ensures few { result < 2 ^ 41 }
    {
        self.up.wreq + self.down.wdata
    }

    /// Refusals that are on their way to the node.
    pub fn refusals(&self) -> u64
        ensures is { result ≡ count_of is_busy self.now.down }
        ensures few { result < 2 ^ 41 }
    {
        self.down.busy
    }

    /// The answers to INVs that the node owes.
    pub fn owes(&self) -> u64
        ensures is { result ≡ owes self.now }
        ensures few { result < 2 ^ 42 }
    {
        self.down.inv + (self.up.ackc + self.up.update)
    }

    /// An RDATA is on its way to the node.
    #[tactic(auto, using(crate::proofs::Orders::any_counted))]
    pub fn awaits_rdata(&self) -> bool
        ensures { result ≡ list_any is_rdata self.now.down }
    {
        self.down.rdata > 0
    }

    /// A WDATA is on its way to the node.
    #[tactic(auto, using(crate::proofs::Orders::any_counted))]
    pub fn awaits_wdata(&self) -> bool
        ensures { result ≡ list_any is_wdata self.now.down }
    {
        self.down.wdata > 0
    }

    /// An INV is on its way to the node.
    #[tactic(auto, using(crate::proofs::Orders::any_counted))]
    pub fn awaits_inv(&self) -> bool
        ensures { result ≡ list_any is_inv self.now.down }
    {
        self.down.inv > 0
    }

    /// An INV is on its way to the node, behind each RDATA.
    pub fn is_to_lose(&self) -> bool
        ensures { result ≡ (list_any is_inv self.now.down && is_followed is_rdata is_inv self.now.down) }
    {
        self.awaits_inv() && self.down.rdata_is_recalled
    }

    /// The values that carriers at the node carry.
    pub fn carried(&self) -> Carried
        ensures { result ≡ carried_by (carried self.now) }
    {
        let copied = match self.copy {
            Some((Mode::Write, body)) => Carried::One(body),
            _ => Carried::Nothing,
        };
        copied.and(self.down.carried.and(self.up.carried))
    }

    /// A carrier at the node is recalled, where the home counts so many answers.
    pub fn is_recalled(&self, acks: u32) -> bool
        ensures { result ≡ is_recalled self.now acks }
    {
        self.owes() == 1
            && acks == 1
            && self.down.wdata_is_recalled
            && (!self.writes() || self.awaits_inv())
            && (self.awaits_inv() || self.up.repm_is_answered)
    }

    /// The node's messages stand in order.
    pub fn order_fits(&self) -> bool
        ensures { result ≡ order_fits self.now }
    {
        self.down.data_is_first && self.up.repm_is_first
    }

    /// The node's copy and transaction go together.
    pub fn single_fits(&self) -> bool
        ensures { result ≡ single_by self.now.transaction self.now }
    {
        match self.transaction {
            None => true,
            Some(Mode::Read) => self.copy.is_none(),
            Some(Mode::Write) => !self.writes(),
        }
    }
}
