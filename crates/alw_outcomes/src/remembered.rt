ghost use Rattle.std.specs.Prelude.{◌≡◌, ◌⊎◌, ℕ, slice_get, Some, IfSome, OnOk, IsTrue};
ghost use Rattle.alw_outcomes.specs.Remembered.{IsKnown, NotesOne, NotesSome, KeepsSome};

use crate::digests::mixed;
use crate::leads::Lead;
use crate::pools::Numbers;
use alw_num::NoMemory;
use std::alloc::Global;

/// A lead, and the numbers and the context that it is the lead of.
#[derive(Clone, Copy, PartialEq, Eq)]
pub struct Known {
    pub at: Numbers,
    pub context: u32,
    pub lead: Lead,
}

/// Leads that were found. Each has one slot, by its digest, where a later one may take its place.
#[derive(Drop)]
pub struct Remembered {
    pub slots: Vec<Option<Known>>,
    pub used: u32,
}

impl Remembered {
    /// No leads.
    pub fn empty(alloc: Global) -> Remembered
        ensures { (k : ℕ) → (known : Known) → slice_get result.slots.items k ≡ Some (Some known) → ⊥ }
    {
        Remembered {
            slots: Vec::new(alloc),
            used: 0,
        }
    }

    /// The lead from these numbers, if it is remembered.
    pub fn find(&self, at: Numbers, context: u32) -> Option<Lead>
        ensures { IfSome result (λ lead. IsKnown self.now.slots.items (record { at = at; context = context; lead = lead })) }
    {
        let length = self.slots.len();
        if length == 0 {
            return None;
        }
        match self.slots[digest_of(at, context) as usize % length] {
            Some(known) => {
                if known.at.memory == at.memory
                    && known.at.seat == at.seat
                    && known.context == context
                {
                    Some(known.lead)
                } else {
                    None
                }
            }
            None => None,
        }
    }

    /// Remembers a lead. The slots may become more, up to `most`.
    pub fn note(&mut self, known: Known, most: usize) -> Result<(), NoMemory>
        ensures { OnOk result (NotesOne self.old.slots.items self.new.slots.items known) }
    {
        if self.used as usize >= self.slots.len() / 2 && self.slots.len() < most {
            self.grow()?;
        }
        if put(&mut self.slots, known) {
            self.used = self.used.saturating_add(1);
        }
        Ok(())
    }

    // Makes the slots twice as many.
    fn grow(&mut self) -> Result<(), NoMemory>
        ensures { OnOk result (KeepsSome self.old.slots.items self.new.slots.items) }
    {
        let length = self.slots.len();
        if length >= 1_073_741_824 {
            return Ok(());
        }
        let mut wider = vec![in *self.slots.allocator(); None; 2 * length + 64]?;
        let mut used = 0_u32;
        for slot in &self.slots {
            used = used.saturating_add(u32::from(put_again(&mut wider, *slot)));
        }
        self.slots = wider;
        self.used = used;
        Ok(())
    }
}

// Puts a lead into its slot, and says whether the slot was free.
fn put(slots: &mut Vec<Option<Known>>, known: Known) -> bool
    ensures { NotesOne slots.old.items slots.new.items known }
{
    let length = slots.len();
    if length == 0 {
        return false;
    }
    let slot = digest_of(known.at, known.context) as usize % length;
    let was_free = slots[slot].is_none();
    slots[slot] = Some(known);
    was_free
}

// Puts the lead of an old slot, if it has one, into its slot, and says whether that was free.
fn put_again(slots: &mut Vec<Option<Known>>, old: Option<Known>) -> bool
    ensures { NotesSome slots.old.items slots.new.items old }
{
    match old {
        Some(known) => put(slots, known),
        None => false,
    }
}

// A number that is the same for the same numbers and context.
fn digest_of(at: Numbers, context: u32) -> u32 {
    mixed(mixed(mixed(3, at.memory), at.seat), context)
}
