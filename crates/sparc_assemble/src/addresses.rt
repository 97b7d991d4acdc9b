ghost use Rattle.std.specs.Prelude.{◌≡◌, ◌<◌, ◌≤◌, ◌+◌, ◌^◌, ◌==◌, ℕ, [], length, slice_index_or, if◌then◌else◌, Some, None, OnOk};
ghost use Rattle.sparc_assemble.specs.Assembly.{put_start};
ghost use Rattle.sparc_assemble.specs.Fillings.{address_in};

use alw_num::NoMemory;
use std::alloc::Global;
use std::marker::Model;

/// Where contexts start.
#[derive(Drop)]
pub struct Addresses {
    addresses: Vec<Option<u32>>,
}

impl Model for Addresses {
    ghost use Rattle.std.specs.Prelude.{List, Option, ℕ};

    ghost Value = { List (Option ℕ) };

    ghost view = { λ a. a.addresses.items };
}

impl Addresses {
    /// No context starts.
    pub fn empty(alloc: Global) -> Addresses
        ensures { result ≡ [] }
    {
        Addresses {
            addresses: Vec::new(alloc),
        }
    }

    // The entry with a number.
    fn entry(&self, context: usize) -> Option<u32>
        ensures { result ≡ slice_index_or self.now context None }
    {
        match self.addresses.get(context) {
            Some(address) => *address,
            None => None,
        }
    }

    // At least so many entries.
    fn grow(&mut self, count: usize) -> Result<(), NoMemory>
        ensures same { OnOk result ((k : ℕ) → slice_index_or self.new k None ≡ slice_index_or self.old k None) }
        ensures room { OnOk result (count ≤ length self.new) }
    {
        if self.addresses.len() < count {
            self.addresses.resize(count, None)?;
        }
        Ok(())
    }

    // Sets the entry with a number.
    fn set(&mut self, context: usize, address: u32) -> Result<(), NoMemory>
        requires { context < 2 ^ 32 }
        ensures { OnOk result ((k : ℕ) → slice_index_or self.new k None ≡ (if k == context then Some address else slice_index_or self.old k None)) }
    {
        self.grow(context + 1)?;
        self.addresses[context] = Some(address);
        Ok(())
    }

    /// The address at which a context starts.
    pub fn at(&self, node: u16, slot: u8) -> Option<u32>
        ensures { result ≡ address_in self.now node slot }
    {
        self.entry(256 * usize::from(node) + usize::from(slot))
    }

    /// A context starts at an address.
    pub fn put(&mut self, node: u16, slot: u8, address: u32) -> Result<(), NoMemory>
        ensures { OnOk result ((n s : ℕ) → address_in self.new n s ≡ put_start node slot address (address_in self.old) n s) }
    {
        self.set(256 * usize::from(node) + usize::from(slot), address)?;
        Ok(())
    }
}
