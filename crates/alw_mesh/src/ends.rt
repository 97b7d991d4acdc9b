ghost use Rattle.std.specs.Prelude.{◌≡◌, ◌<◌, ◌%◌, find, length, slice_get, filter, None, Some, MatchOption};
ghost use Rattle.alw_image.specs.Images.{node_count};
ghost use Rattle.alw_model.specs.Machine.{is_enabled, main_events};
ghost use Rattle.alw_ready.specs.Fits.{RowFits};
ghost use Rattle.alw_mesh.specs.Histories.{IsRun, state_of};
ghost use Rattle.alw_mesh.specs.Ends.{node_events, next_events, Ends};

use crate::machines::Machine;
use crate::meshes::Mesh;
use alw_model::Ended;
use alw_msg::Event;
use alw_num::NodeNo;
use alw_ready::Row;

impl Machine {
    /// How many main events may happen next: they are enabled and within the limit.
    pub fn events(&self) -> u32
        ensures { result ≡ length (next_events self.now) }
    {
        self.ready.count()
    }

    /// Number k of them, in the schedule's order: by node, and of a node an instruction, an action of the
    /// trap handler, and deliveries by sender.
    pub fn event(&self, k: u32) -> Event
        requires { k < length (next_events self.now) }
        ensures { slice_get (next_events self.now) k ≡ Some result }
    {
        self.ready.nth(k)
    }

    /// Which of them are a node's.
    #[inline(always)]
    pub fn row(&self, node: NodeNo) -> Row
        requires { node.0 < node_count self.now.image }
        ensures { RowFits self.now.image self.now.parameters (state_of self.now) node.0 result }
    {
        self.ready.row(node)
    }

    /// The event that a number draws of them: all numbers of one remainder by their count draw the same.
    #[inline(always)]
    pub fn drawn(&self, number: u32) -> Event
        requires { 0 < length (next_events self.now) }
        ensures { slice_get (next_events self.now) (number % length (next_events self.now)) ≡ Some result }
    {
        self.ready.drawn(number)
    }

    /// The end that holds, with the first trapping turn, or the first main event beyond the limit. None
    /// exactly where no end holds.
    #[inline(always)]
    pub fn ended(&self) -> Option<Ended>
        ensures run { IsRun self.now }
        ensures end { Ends self.now result }
    {
        if self.ready.count() > 0 && !self.mesh.has_halted() && !self.mesh.any_trapped() {
            return None;
        }
        self.find_end()
    }

    // The same, of a machine that may have come to an end.
    #[cold]
    #[inline(never)]
    fn find_end(&self) -> Option<Ended>
        ensures run { IsRun self.now }
        ensures end { Ends self.now result }
    {
        if self.mesh.any_trapped() {
            let Some(at) = self.tally.trap() else {
                unreachable!();
            };
            return Some(Ended::Trapped(at));
        }
        if self.mesh.is_at_rest() {
            return Some(Ended::Halted);
        }
        if self.ready.count() > 0 {
            return None;
        }
        let Some(event) = self.mesh.first_enabled() else {
            unreachable!();
        };
        Some(Ended::Limit(event))
    }
}

impl Mesh {
    // The first main event that is enabled, the limit aside. None where none is.
    fn first_enabled(&self) -> Option<Event>
        ensures { result ≡ find (is_enabled self.now.image self.now.parameters self.now.machine) (main_events self.now.image) }
    {
        for n in 0..self.count() {
            if let Some(event) = self.first_of(NodeNo(n)) {
                return Some(event);
            }
        }
        None
    }

    // The first main event of a node that is enabled, the limit aside. None where none is.
    fn first_of(&self, node: NodeNo) -> Option<Event>
        requires { node.0 < node_count self.now.image }
        ensures { result ≡ find (is_enabled self.now.image self.now.parameters self.now.machine) (node_events self.now.image node.0) }
    {
        if self.is_enabled(Event::Instr { node }) {
            return Some(Event::Instr { node });
        }
        if self.is_enabled(Event::Handle { node }) {
            return Some(Event::Handle { node });
        }
        for from in 0..self.count() {
            let event = Event::Deliver {
                from: NodeNo(from),
                to: node,
            };
            if self.is_enabled(event) {
                return Some(event);
            }
        }
        None
    }
}
