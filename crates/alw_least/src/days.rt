ghost use Rattle.std.specs.Prelude.{◌≡◌, true, false};
ghost use Rattle.alw_least.specs.Days.{NothingStands, IsPut, IsFirstStanding};

use alw_num::{NodeNo, NodeSet};
use std::marker::Model;

/// The number of days.
pub(crate) const DAYS: u16 = 256;

/// Which of 256 places stand on each of 256 days. Contracts see the set of each day.
#[derive(Drop)]
pub struct Days {
    places: [NodeSet; 256],
    filled: NodeSet,
}

impl Model for Days {
    ghost use Rattle.std.specs.Prelude.{List};
    ghost use Rattle.alw_num.specs.declared.node_sets.NodeSet.{NodeSet};
    ghost use Rattle.alw_least.specs.Days.{AreFilled};

    ghost Value = { List NodeSet };

    ghost view = { λ d. d.places };

    ghost invariant = { λ d. AreFilled d.places d.filled };
}

impl Days {
    /// Nothing stands on a day.
    pub fn none() -> Days
        ensures { NothingStands result }
    {
        Days {
            places: [NodeSet::empty(); 256],
            filled: NodeSet::empty(),
        }
    }

    /// A place stands on a day now.
    #[inline(always)]
    pub fn add(&mut self, day: u8, place: u8)
        ensures { IsPut true day place self.old self.new }
    {
        self.places[usize::from(day)].add(NodeNo(u16::from(place)));
        self.filled.add(NodeNo(u16::from(day)));
    }

    /// A place stands on a day no longer.
    #[inline(always)]
    pub fn remove(&mut self, day: u8, place: u8)
        ensures { IsPut false day place self.old self.new }
    {
        let at = usize::from(day);
        self.places[at].remove(NodeNo(u16::from(place)));
        if self.places[at].is_empty() {
            self.filled.remove(NodeNo(u16::from(day)));
        }
    }

    /// The lowest place of the first day on which one stands.
    #[inline(always)]
    pub fn first(&self) -> Option<u8>
        ensures { IsFirstStanding self.now result }
    {
        let day = self.filled.lowest()?;
        let place = self.places[usize::from(day.0)].lowest()?;
        Some(place.0 as u8)
    }
}
