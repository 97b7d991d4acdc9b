ghost use Rattle.std.specs.Prelude.{◌≡◌, List, ℕ, [], ◌∷◌, Some, None, bytes_eq, if◌then◌else◌, IfOk, OnOk};
ghost use Rattle.std.specs.Cmp.{partial_equiv_from_equiv};
ghost use Rattle.std.specs.Cmp.Lexicographic.{nat_list_eq_equiv};
ghost use Rattle.std.specs.Cmp.Rules.{hashing};
ghost use Rattle.std.proofs.Common.{rules};

use alw_num::NoMemory;
use std::alloc::Global;
use std::collections::HashMap;
use std::hash::{Hash, Hasher};
use std::marker::Model;

/// A name, where it stands in a source. Contracts see its bytes.
#[derive(Drop)]
pub struct Name<'a> {
    bytes: &'a [u8],
}

impl<'a> Model for Name<'a> {
    ghost use Rattle.std.specs.Prelude.{List, ℕ};

    ghost Value = { List ℕ };

    ghost view = { λ n. n.bytes.now };
}

impl<'a> Name<'a> {
    /// The name with these bytes.
    pub fn of(bytes: &'a [u8]) -> Name<'a>
        ensures { result ≡ bytes.now }
    {
        Name { bytes }
    }

    pub fn bytes(&self) -> &'a [u8]
        ensures { result.now ≡ self.now }
    {
        self.bytes
    }
}

impl<'a> PartialEq for Name<'a> {
    ghost eq = { λ a b. bytes_eq a b };

    ghost laws = { partial_equiv_from_equiv nat_list_eq_equiv };

    fn eq(&self, other: &Name<'a>) -> bool {
        self.bytes() == other.bytes()
    }
}

impl<'a> Eq for Name<'a> {
    ghost laws = { nat_list_eq_equiv };
}

impl<'a> Hash for Name<'a> {
    ghost hash_input = { λ n. n ∷ [] };

    ghost respects_eq = { Prim.search (hashing, rules) };

    fn hash<H: Hasher>(&self, state: &mut H) {
        state.write(self.bytes());
    }
}

/// What a name stands for: `plus` less `minus`.
#[derive(Clone, Copy, PartialEq, Eq)]
pub struct Value {
    pub plus: u32,
    pub minus: u32,
}

/// The names that are defined, with their values.
#[derive(Drop)]
pub struct Names<'a> {
    map: HashMap<Name<'a>, Value>,
}

impl<'a> Names<'a> {
    ghost use Rattle.sparc_asm.specs.Names.{value_in};

    /// No names.
    pub fn empty(alloc: Global) -> Names<'a>
        ensures { (name : List ℕ) → value_in result name ≡ None }
    {
        Names {
            map: HashMap::new(alloc),
        }
    }

    /// What a name stands for. None exactly where it isn't defined.
    pub fn get(&self, name: &Name) -> Option<Value>
        ensures { result ≡ value_in self.now name.now }
    {
        self.map.get(name).copied()
    }

    /// Gives a name a value.
    pub fn define(&mut self, name: Name<'a>, value: Value) -> Result<(), NoMemory>
        ensures ok { OnOk result ((other : List ℕ) → value_in self.new other ≡ (if bytes_eq name.entry other then Some value else value_in self.old other)) }
    {
        self.map.insert(name, value)?;
        Ok(())
    }
}
