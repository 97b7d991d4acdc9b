ghost use Rattle.std.specs.Prelude.{◌≡◌, ℕ, ◌+◌, ◌<◌, ◌≤◌, ◌^◌, ◌&&◌, ◌||◌, length, option_map};
ghost use Rattle.alw_num.specs.declared.addresses.NodeNo.{NodeNo};
ghost use Rattle.alw_num.specs.NodeSets.{nodes_of};
ghost use Rattle.alw_num.specs.Weights.{digit};
ghost use Rattle.alw_model.specs.FullMap.{sole};
ghost use Rattle.alw_model.specs.Lines.{carriers};
ghost use Rattle.alw_model.specs.LineInvariant.{is_reading, is_writing, is_sole, reads_of, writes_of, transaction_fits, counter_by, debt_fits};
ghost use Rattle.alw_model.specs.LineInvariant.{carrier_fits, current_fits, sharer_fits, software_fits};
ghost use Rattle.alw_model.specs.Checks.{is_sound_at};
ghost use Rattle.alw_laws.specs.Traffic.{carried_by};
ghost use Rattle.alw_laws.specs.Views.{entry_of_view, node_in, line_in, pending_in};

use crate::carriers::Carried;
use crate::parts::Part;
use crate::views::LineView;
use alw_num::{MOST_NODES, Meta, Mode, NodeNo, NodeSet, State};
use dir_full::sole_member;

impl LineView {
    // P: the hardware pointers and the software set.
    fn pointers(&self) -> NodeSet
        ensures { nodes_of result ≡ (line_in self.now).home.pointers }
    {
        self.home.hw.union(self.home.sw)
    }

    // The one member of P, where it has one.
    fn owner(&self) -> Option<NodeNo>
        ensures { option_map (λ (owner : NodeNo). owner.0) result ≡ sole (line_in self.now).home.pointers }
    {
        sole_member(self.pointers())
    }

    // P has this node alone.
    fn is_sole(&self, number: NodeNo) -> bool
        ensures { result ≡ is_sole (line_in self.now) number.0 }
    {
        self.owner() == Some(number)
    }

    // What a Read transaction of the node waits for.
    fn reads_of(&self, number: NodeNo, part: &Part) -> u64
        requires { part.now ≡ node_in self.now number.0 }
        ensures is { result ≡ reads_of (line_in self.now) number.0 }
        ensures few { result < 2 ^ 42 }
    {
        let at_home = self.home.state == State::RT && self.is_sole(number);
        part.reads_on_way() + u64::from(at_home)
    }

    // What a Write transaction of the node waits for.
    fn writes_of(&self, number: NodeNo, part: &Part) -> u64
        requires { part.now ≡ node_in self.now number.0 }
        ensures is { result ≡ writes_of (line_in self.now) number.0 }
        ensures few { result < 2 ^ 42 }
    {
        let at_home = self.home.state == State::WT && self.is_sole(number);
        part.writes_on_way() + u64::from(at_home)
    }

    // A node's transaction waits for exactly one thing of its mode.
    fn transaction_fits(&self, number: NodeNo, part: &Part) -> bool
        requires { part.now ≡ node_in self.now number.0 }
        ensures { result ≡ transaction_fits (line_in self.now) number.0 }
    {
        let reads = self.reads_of(number, part);
        let writes = self.writes_of(number, part);
        let refusals = part.refusals();
        match part.transaction() {
            None => reads + writes + refusals == 0,
            Some(Mode::Read) => reads + refusals == 1 && writes == 0,
            Some(Mode::Write) => writes + refusals == 1 && reads == 0,
        }
    }

    // Outside Read-Only P has one member, and the counter is that of the state.
    pub(crate) fn counter_fits_state(&self) -> bool
        ensures { result ≡ counter_by (line_in self.now).home.state (sole (line_in self.now).home.pointers) (line_in self.now).home.acks }
    {
        let acks = self.home.acks;
        match self.home.state {
            State::RO => acks == 0,
            State::RW => self.owner().is_some() && acks == 0,
            State::RT => self.owner().is_some() && acks == 1,
            State::WT => self.owner().is_some() && acks >= 1,
        }
    }

    // A transaction at the home is for this node.
    fn awaits_home(&self, number: NodeNo) -> bool
        ensures { result ≡ ((is_reading self.now.home.state || is_writing self.now.home.state) && is_sole (line_in self.now) number.0) }
    {
        matches!(self.home.state, State::RT | State::WT) && self.is_sole(number)
    }

    // A node owes one answer at most, and none where a transaction is for it.
    fn debt_fits(&self, number: NodeNo, part: &Part) -> bool
        requires { part.now ≡ node_in self.now number.0 }
        ensures { result ≡ debt_fits (line_in self.now) number.0 }
    {
        let owes = part.owes();
        owes <= 1 && (!self.awaits_home(number) || owes == 0)
    }

    // The carriers at a node are those that the home's state allows. `all` are those of all nodes.
    #[tactic(auto, using(crate::proofs::Totals::all_counted))]
    fn carrier_fits(&self, number: NodeNo, part: &Part, all: Carried) -> bool
        requires { part.now ≡ node_in self.now number.0 }
        ensures { (count : ℕ) → all ≡ carried_by (carriers count (line_in self.now)) → result ≡ carrier_fits count (line_in self.now) number.0 }
    {
        let here = part.carried();
        match self.home.state {
            State::RO => here.is_nothing(),
            State::RW if self.is_sole(number) => all.is_one() && here.is_one(),
            State::RW => all.is_one() && here.is_nothing(),
            State::RT | State::WT => {
                all.is_one_at_most() && (here.is_nothing() || part.is_recalled(self.home.acks))
            }
        }
    }

    // A node's Read-Only copy and the RDATA on their way to it hold the current value, and stand
    // beside no carrier but a WDATA that replaces the copy. `all` are the carriers of all nodes.
    #[tactic(auto, using(crate::proofs::Totals::all_counted))]
    fn current_fits(&self, number: NodeNo, part: &Part, all: Carried) -> bool
        requires { part.now ≡ node_in self.now number.0 }
        ensures { (count : ℕ) → all ≡ carried_by (carriers count (line_in self.now)) → result ≡ current_fits count (line_in self.now) number.0 }
    {
        let value = all.one_or(self.home.body);
        (!part.reads() || part.copy_holds(value))
            && part.data_holds(value)
            && (all.is_nothing()
                || (!part.awaits_rdata() && (!part.reads() || part.awaits_wdata())))
    }

    // A node that reads is a sharer, or is to lose its copy, or is to get a Read-Write one.
    fn sharer_fits(&self, number: NodeNo, part: &Part) -> bool
        requires part { part.now ≡ node_in self.now number.0 }
        requires node { number.0 < MOST_NODES }
        ensures { result ≡ sharer_fits (line_in self.now) number.0 }
    {
        let is_to_write = (self.home.state == State::WT && self.is_sole(number))
            || part.awaits_wdata();
        !(part.reads() || part.awaits_rdata())
            || (self.home.state == State::RO && self.pointers().has(number))
            || part.is_to_lose()
            || (part.reads() && is_to_write)
    }

    // A packet of the line waits for the handler.
    fn is_pending(&self) -> bool
        ensures { digit result ≡ pending_in self.now }
    {
        matches!(&self.packet, Some(packet) if packet.line == self.line && packet.kind.is_to_memory())
    }

    // The software set and the packet are those that the meta state allows.
    pub(crate) fn software_fits(&self) -> bool
        ensures { result ≡ software_fits (entry_of_view self.now.home) (pending_in self.now) }
    {
        let is_empty = self.home.sw.count() == 0;
        let may_share = self.home.state == State::RO || is_empty;
        let is_pending = self.is_pending();
        match self.home.meta {
            Meta::Normal => is_empty && !is_pending,
            Meta::TrapWrite => self.home.state == State::RO && !is_empty && !is_pending,
            Meta::TrapAlways => may_share && !is_pending,
            Meta::Progress => may_share && is_pending,
        }
    }

    // The clauses of the line invariant at a node. `all` are the carriers of all nodes.
    pub(crate) fn fits_at(&self, number: NodeNo, all: Carried) -> bool
        requires { number.0 < MOST_NODES }
        ensures { (count : ℕ) → all ≡ carried_by (carriers count (line_in self.now)) → result ≡ is_sound_at count (line_in self.now) number.0 }
    {
        let part = Part::of(self, number);
        self.transaction_fits(number, &part)
            && self.debt_fits(number, &part)
            && self.carrier_fits(number, &part, all)
            && self.current_fits(number, &part, all)
            && self.sharer_fits(number, &part)
            && part.order_fits()
            && part.single_fits()
    }
}
