ghost use Rattle.std.specs.Prelude.{◌≡◌, ◌≤◌, ◌↔◌, IsTrue};
ghost use Rattle.std.specs.List.{list_all, range_with_len};
ghost use Rattle.alw_num.specs.Weights.{sum_below};
ghost use Rattle.alw_model.specs.Lines.{carriers};
ghost use Rattle.alw_model.specs.LineInvariant.{owes, counter_fits};
ghost use Rattle.alw_model.specs.Checks.{is_sound_at, is_sound_line};
ghost use Rattle.alw_laws.specs.Traffic.{carried_by};
ghost use Rattle.alw_laws.specs.Views.{MeetsInvariant, entry_of_view, line_in, pending_in, shows_once};

use crate::carriers::Carried;
use crate::parts::Part;
use crate::views::LineView;
use alw_num::{MOST_NODES, NodeNo};

/// Whether a line as it is shown meets the line invariant.
pub fn inspect(v: &LineView) -> bool
    ensures { IsTrue result ↔ MeetsInvariant MOST_NODES v.now }
{
    v.meets(MOST_NODES)
}

impl LineView {
    // The values that the carriers carry, at all nodes below a number.
    fn carriers(&self, nodes: u16) -> Carried
        ensures { result ≡ carried_by (carriers nodes (line_in self.now)) }
    {
        let mut all = Carried::Nothing;
        for number in 0..nodes {
            all = all.and(Part::of(self, NodeNo(number)).carried());
        }
        all
    }

    // The answers that are owed, by all nodes below a number.
    fn owed(&self, nodes: u16) -> u64
        ensures { result ≡ sum_below nodes (λ i. owes ((line_in self.now).node i)) }
    {
        let mut owed = 0;
        for number in 0..nodes {
            owed += Part::of(self, NodeNo(number)).owes();
        }
        owed
    }

    // The counter is the number of answers owed, and is that of the home's state.
    fn counter_fits(&self, nodes: u16) -> bool
        ensures { result ≡ counter_fits nodes (line_in self.now) }
    {
        self.counter_fits_state() && self.owed(nodes) == u64::from(self.home.acks)
    }

    // The clauses of the line invariant at each node below a number.
    fn fits_everywhere(&self, nodes: u16) -> bool
        requires { nodes ≤ MOST_NODES }
        ensures { result ≡ list_all (is_sound_at nodes (line_in self.now)) (range_with_len 0 nodes) }
    {
        let all = self.carriers(nodes);
        (0..nodes).all(|number| self.fits_at(NodeNo(number), all))
    }

    // The line invariant, at the nodes below a number.
    fn fits(&self, nodes: u16) -> bool
        requires { nodes ≤ MOST_NODES }
        ensures { result ≡ is_sound_line nodes (line_in self.now) (entry_of_view self.now.home) (pending_in self.now) }
    {
        self.counter_fits(nodes) && self.software_fits() && self.fits_everywhere(nodes)
    }

    // A node is shown with one copy and one transaction at most.
    fn shows_once(&self, number: NodeNo) -> bool
        ensures { result ≡ shows_once self.now number.0 }
    {
        let copies = self.copies.members().iter();
        let transactions = self.transactions.members().iter();
        copies.filter(|copy| copy.0 == number).count() <= 1
            && transactions.filter(|open| open.0 == number).count() <= 1
    }

    // So is each node below a number.
    fn shows_each_once(&self, nodes: u16) -> bool
        ensures { result ≡ list_all (shows_once self.now) (range_with_len 0 nodes) }
    {
        (0..nodes).all(|number| self.shows_once(NodeNo(number)))
    }

    // The view meets the line invariant, at the nodes below a number.
    fn meets(&self, nodes: u16) -> bool
        requires { nodes ≤ MOST_NODES }
        ensures { IsTrue result ↔ MeetsInvariant nodes self.now }
    {
        self.fits(nodes) && self.shows_each_once(nodes)
    }
}
