ghost use Rattle.std.specs.Prelude.{◌≡◌, ◌<◌, None, replicate, IfOk};
ghost use Rattle.alw_due.specs.Bests.{start_kept, best_at, IsFirstKept, IsPut};

use crate::keys::Due;
use alw_least::Leasts;
use alw_num::{MOST_NODES, NoMemory, NodeNo};
use std::alloc::Global;
use std::marker::Model;

/// Of each node the first of its events that are due, and the starts of all of them. Contracts see the list.
#[derive(Drop)]
pub struct Bests {
    dues: Vec<Option<Due>>,
    starts: Leasts,
}

impl Model for Bests {
    ghost use Rattle.std.specs.Prelude.{List, Option};
    ghost use Rattle.alw_due.specs.declared.keys.Due.{Due};
    ghost use Rattle.alw_due.specs.Bests.{AreKept};

    ghost Value = { List (Option Due) };

    ghost view = { λ b. b.dues.items };

    ghost invariant = { λ b. AreKept b.dues.items b.starts };
}

impl Bests {
    /// Nothing of any node. It takes all memory that is ever needed.
    pub fn none(alloc: Global) -> Result<Bests, NoMemory>
        ensures { IfOk result (λ bests. bests ≡ replicate 256 None) }
    {
        let mut dues = Vec::with_capacity(alloc, usize::from(MOST_NODES))?;
        for _node in 0..MOST_NODES {
            dues.push_reserved(None);
        }
        Ok(Bests {
            dues,
            starts: Leasts::all(u64::MAX),
        })
    }

    /// The first of all of them.
    #[inline(always)]
    pub fn first(&mut self) -> Option<Due>
        ensures same { self.new ≡ self.old }
        ensures first { IsFirstKept self.old result }
    {
        let place = self.starts.first();
        self.dues[usize::from(place)]
    }

    /// What stands for a node.
    #[inline(always)]
    pub fn at(&self, node: NodeNo) -> Option<Due>
        requires { node.0 < MOST_NODES }
        ensures { result ≡ best_at self.now node.0 }
    {
        self.dues[usize::from(node.0)]
    }

    /// This stands for a node now.
    #[inline(always)]
    pub fn put(&mut self, node: NodeNo, best: Option<Due>)
        requires { node.0 < MOST_NODES }
        ensures { IsPut node.0 best self.old self.new }
    {
        self.starts.set(node.0 as u8, start_kept(best));
        self.dues[usize::from(node.0)] = best;
    }
}

// When it would start, and the greatest number where there is nothing.
#[inline(always)]
fn start_kept(best: Option<Due>) -> u64
    ensures { result ≡ start_kept best }
{
    match best {
        Some(due) => due.start,
        None => u64::MAX,
    }
}
