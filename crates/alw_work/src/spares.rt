ghost use Rattle.std.specs.Prelude.{◌≡◌, IfOk};
ghost use Rattle.alw_ruled.specs.Ends.{sender_at_start, receiver_at_start};

use alw_num::NoMemory;
use alw_ruled::{Ends, Link};
use std::alloc::Global;
use std::marker::Model;
use std::sync::Wait;
use std::thread;
use std::thread::Threads;

// A thread is worth its start where it has so many links to make.
const FEWEST_LINKS: u32 = 1024;

/// A link with its ends, on which nothing was sent.
#[derive(Drop)]
struct Spare {
    ends: Ends,
}

impl Model for Spare {
    ghost use Rattle.std.specs.Prelude.{◌≡◌};
    ghost use Rattle.alw_ruled.specs.declared.links.Ends.{Ends};
    ghost use Rattle.alw_ruled.specs.Ends.{sender_at_start, receiver_at_start};

    ghost Value = { Ends };

    ghost view = { λ s. s.ends };

    ghost invariant = { λ s. (s.ends.sender ≡ sender_at_start s.ends.link) × (s.ends.receiver ≡ receiver_at_start s.ends.link) };
}

/// Links that were made ahead, by threads side by side. No clause says how many.
#[derive(Drop)]
pub struct Spares {
    links: Vec<Spare>,
}

impl Spares {
    /// So many links, of which each of so many threads makes a share.
    pub fn made<R: Threads + Wait + Sync>(
        rt: &R,
        alloc: Global,
        count: u32,
        workers: u32,
    ) -> Result<Spares, NoMemory> {
        let mut links = Vec::new(alloc);
        let threads = workers.min(count / FEWEST_LINKS);
        if threads < 2 {
            return Ok(Spares { links });
        }
        let share = count / threads;
        let made = thread::map_indices(
            rt,
            alloc,
            threads as usize,
            &|_k: usize| -> Result<Vec<Spare>, NoMemory> { make(rt, alloc, share) },
        )?;
        for share in made {
            links.append(&mut share?)?;
        }
        Ok(Spares { links })
    }

    /// The next link: one that was made ahead, or a new one.
    pub fn next<R: Wait>(&mut self, rt: &R, alloc: Global) -> Result<Ends, NoMemory>
        ensures sender { IfOk result (λ ends. ends.sender ≡ sender_at_start ends.link) }
        ensures receiver { IfOk result (λ ends. ends.receiver ≡ receiver_at_start ends.link) }
    {
        match self.links.pop() {
            Some(Spare { ends }) => Ok(ends),
            None => Link::start(rt, alloc),
        }
    }
}

// So many links.
fn make<R: Wait>(rt: &R, alloc: Global, count: u32) -> Result<Vec<Spare>, NoMemory> {
    let mut spares = Vec::with_capacity(alloc, count as usize)?;
    for _ in 0..count {
        let ends = Link::start(rt, alloc)?;
        spares.push(Spare { ends })?;
    }
    Ok(spares)
}
