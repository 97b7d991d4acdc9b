ghost use Rattle.std.specs.Prelude.{◌≡◌, ◌<◌, ◌-◌, ◌^◌, ◌↔◌, ℕ, slice_get, Some, IfOk, OnOk, IfSome, IfNone, IsTrue};
ghost use Rattle.alw_outcomes.specs.Pools.{Numbered, IsIndexed};

use crate::tables::Table;
use alw_num::NoMemory;

// No pool has more members.
const MOST: usize = 4_294_967_295;

/// What a pool keeps one of each of.
pub trait Pooled {
    /// What the digest of a member is.
    ghost digest_of: { Self → ℕ };

    /// Both are the same.
    fn is_same(&self, other: &Self) -> bool
        ensures { IsTrue result ↔ (self.now ≡ other.now) };

    /// A number that is the same for members that are the same.
    fn digest(&self) -> u32
        ensures { result ≡ digest_of self.now };
}

/// The number of a member of a pool. It is added where the pool doesn't have it.
pub fn number_in<T: Pooled + Drop>(
    pool: &mut Vec<T>,
    table: &mut Table,
    member: T,
) -> Result<u32, NoMemory>
    requires indexed { IsIndexed T.digest_of pool.old.items table.old }
    ensures number { IfOk result (λ at. Numbered pool.old.items pool.new.items member at) }
    ensures small { IfOk result (λ at. at < 2 ^ 32 - 1) }
    ensures indexed { OnOk result (IsIndexed T.digest_of pool.new.items table.new) }
{
    let digest = member.digest();
    if let Some(at) = found(pool, table, &member, digest) {
        return Ok(at);
    }
    if pool.len() >= MOST {
        return Err(NoMemory);
    }
    let at = pool.len() as u32;
    table.add(digest)?;
    pool.push(member)?;
    Ok(at)
}

// The number of a member, if the pool has it.
fn found<T: Pooled>(pool: &[T], table: &Table, member: &T, digest: u32) -> Option<u32>
    requires indexed { IsIndexed T.digest_of pool.now table.now }
    requires digest { digest ≡ T.digest_of member.now }
    ensures same { IfSome result (λ at. slice_get pool.now at ≡ Some member.now) }
    ensures small { IfSome result (λ at. at < 2 ^ 32 - 1) }
    ensures none { IfNone result ((k : ℕ) → slice_get pool.now k ≡ Some member.now → ⊥) }
{
    let mut rest = table.last(digest);
    while rest != 0 {
        let at = rest - 1;
        if pool[at as usize].is_same(member) {
            return Some(at);
        }
        rest = table.before(digest, at);
    }
    None
}
