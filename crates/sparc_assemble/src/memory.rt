ghost use Rattle.std.specs.Prelude.{◌≡◌, ◌<◌, ◌≤◌, ◌+◌, ◌*◌, ◌^◌, ℕ, [], length, slice_index, OnOk};
ghost use Rattle.std.specs.List.{flat_map};
ghost use Rattle.sparc_assemble.specs.Assembly.{spelled_as, written_over};

use alw_num::{LINE_BYTES, NoMemory, Sequence, Width};
use std::alloc::Global;
use std::marker::Model;

/// The bytes of shared data, from the first to the last that was written. Those behind are 0.
#[derive(Drop)]
pub struct Memory {
    bytes: Vec<u8>,
}

impl Model for Memory {
    ghost use Rattle.std.specs.Prelude.{List, ℕ};

    ghost Value = { List ℕ };

    ghost view = { λ m. m.bytes.items };
}

impl Memory {
    /// All bytes are 0.
    pub fn empty(alloc: Global) -> Memory
        ensures { result ≡ [] }
    {
        Memory {
            bytes: Vec::new(alloc),
        }
    }

    /// The byte at a place.
    pub fn at(&self, place: usize) -> u8
        ensures { result ≡ slice_index self.now place }
    {
        match self.bytes.get(place) {
            Some(byte) => *byte,
            None => 0,
        }
    }

    /// How many of so many lines its bytes reach at most: the bytes of those behind are 0.
    pub fn lines(&self, count: u32) -> u32
        ensures few { result ≤ count }
        ensures rest { result < count → length self.now ≤ 16 * result }
    {
        let reached = self.bytes.len() / LINE_BYTES as usize + 1;
        if reached < count as usize {
            reached as u32
        } else {
            count
        }
    }

    // At least so many bytes.
    fn grow(&mut self, count: usize) -> Result<(), NoMemory>
        ensures same { OnOk result ((k : ℕ) → slice_index self.new k ≡ slice_index self.old k) }
        ensures room { OnOk result (count ≤ length self.new) }
    {
        if self.bytes.len() < count {
            self.bytes.resize(count, 0)?;
        }
        Ok(())
    }

    /// Writes bytes from a place on.
    pub fn write(&mut self, from: usize, bytes: &[u8]) -> Result<(), NoMemory>
        requires { from + length bytes.now < 2 ^ 64 }
        ensures { OnOk result ((place : ℕ) → slice_index self.new place ≡ written_over from bytes.now (slice_index self.old) place) }
    {
        self.grow(from + bytes.len())?;
        for i in 0..bytes.len() {
            self.bytes[from + i] = bytes[i];
        }
        Ok(())
    }

    /// Writes a value with a width, the highest byte first.
    pub fn write_value(&mut self, from: usize, width: Width, value: u32) -> Result<(), NoMemory>
        requires { from < 2 ^ 60 }
        ensures { OnOk result ((place : ℕ) → slice_index self.new place ≡ written_over from (spelled_as width value) (slice_index self.old) place) }
    {
        match width {
            Width::Byte => self.write(from, &((value % 256) as u8).to_be_bytes())?,
            Width::Half => self.write(from, &((value % 65536) as u16).to_be_bytes())?,
            Width::Word => self.write(from, &value.to_be_bytes())?,
        }
        Ok(())
    }

    /// Writes values with a width, one behind another.
    pub fn write_values(
        &mut self,
        from: usize,
        width: Width,
        values: &Sequence<u32>,
    ) -> Result<(), NoMemory>
        requires { from < 2 ^ 32 }
        ensures { OnOk result ((place : ℕ) → slice_index self.new place ≡ written_over from (flat_map (spelled_as width) values.now) (slice_index self.old) place) }
    {
        let size = width.bytes() as usize;
        let mut at = from;
        for i in 0..values.len() {
            self.write_value(at, width, values.at(i))?;
            at += size;
        }
        Ok(())
    }
}
