ghost use Rattle.std.specs.Prelude.{◌≡◌, ◌<◌, suc, ℕ, [], length, slice_get, slice_index_or, Some, IfOk};
ghost use Rattle.alw_image.specs.Images.{context_count};
ghost use Rattle.alw_outcomes.specs.Pools.{lists_of};
ghost use Rattle.alw_outcomes.specs.Explored.{place_in, IsStored};

use crate::explored::{Explored, numbers_at};
use crate::pools::Link;
use alw_flat::Memory;
use alw_image::Image;
use alw_num::NoMemory;
use std::alloc::Global;

/// The memory at a place.
pub fn memory_at<'a>(image: &Image, found: &'a Explored, at: u32) -> &'a Memory
    requires at { at < length found.now.memories.items }
    requires stored { IsStored image.now found.now }
    ensures { result.now ≡ (place_in found.now at).flat.memory }
{
    let _parts = image.parts(); // for its clause
    &found.pools.memories[found.memories[at as usize] as usize]
}

/// The words that a context has printed at a place, in order.
pub fn words_at(
    alloc: Global,
    image: &Image,
    found: &Explored,
    at: u32,
    context: u32,
) -> Result<Vec<u32>, NoMemory>
    requires at { at < length found.now.memories.items }
    requires context { context < context_count image.now }
    requires stored { IsStored image.now found.now }
    ensures { IfOk result (λ words. words.items ≡ slice_index_or (place_in found.now at).printed context []) }
{
    let here = numbers_at(image, found, at, context);
    let list = found.pools.seats[here.seat as usize].list;
    let words = words_of(alloc, &found.pools.links, list)?;
    Ok(words)
}

// The words of a list, by its number.
fn words_of(alloc: Global, links: &[Link], list: u32) -> Result<Vec<u32>, NoMemory>
    requires list { list < suc (length links.now) }
    requires back { (k : ℕ) → (link : Link) → slice_get links.now k ≡ Some link → link.before < suc k }
    ensures { IfOk result (λ words. words.items ≡ slice_index_or (lists_of links.now) list []) }
{
    let mut words = Vec::new(alloc);
    let mut rest = list;
    while rest != 0 {
        let link = links[rest as usize - 1];
        words.push(link.word)?;
        rest = link.before;
    }
    words.reverse();
    Ok(words)
}
