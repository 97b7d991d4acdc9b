ghost use Rattle.std.specs.Prelude.{◌≡◌, ◌<◌, ◌≤◌, ◌+◌, ◌-◌, ◌^◌, ◌∷◌, [], length, Ok, IfOk, OnOk};
ghost use Rattle.std.specs.List.{flat_map};
ghost use Rattle.sparc_asm.specs.Names.{value_in};
ghost use Rattle.sparc_asm.specs.Encoding.{coded};
ghost use Rattle.sparc_asm.specs.Ranges.{StatementFits, FitsIn, EachFits};
ghost use Rattle.sparc_place.specs.Places.{nothing_laid, places, places_of};
ghost use Rattle.sparc_place.specs.Plans.{layout_of};
ghost use Rattle.sparc_asm.specs.declared.statements.Statement.TheVariants.{Data, Start};
ghost use Rattle.sparc_assemble.specs.Assembly.{nothing_filled, with_code, spelled_as, with_bytes, with_address, filled, filled_in, values_fault, all_filled};
ghost use Rattle.sparc_assemble.specs.Fillings.{filled_of, HasFewWords, refused_at, FillsCode, Fills, FillsLine, FillsAll};

use crate::addresses::Addresses;
use crate::data::{data_values, start_address};
use crate::memory::Memory;
use crate::refusals::Refusal;
use alw_num::{NoMemory, Sequence, Width};
use sparc_asm::{AsmErr, Coded, Expression, Lines, Names, Statement, encode, instr_word};
use sparc_place::{Laid, Position, fault_at};
use std::alloc::Global;

/// What the lines so far have filled in: code words with the source line of each, the bytes of shared data, and where
/// contexts start.
#[derive(Drop)]
pub struct Filling {
    pub words: Sequence<(u32, u32)>,
    pub memory: Memory,
    pub starts: Addresses,
}

impl Filling {
    /// Nothing is filled in.
    pub fn empty(alloc: Global) -> Filling
        ensures { filled_of result ≡ nothing_filled }
    {
        Filling {
            words: Sequence::empty(alloc),
            memory: Memory::empty(alloc),
            starts: Addresses::empty(alloc),
        }
    }

    // Appends a code word of a line.
    fn word(&mut self, word: u32, number: u32) -> Result<(), NoMemory>
        requires { length self.old.words < 2 ^ 32 - 1 }
        ensures { OnOk result (filled_of self.new ≡ with_code number (word ∷ []) (filled_of self.old)) }
    {
        self.words.push((word, number))?;
        Ok(())
    }

    // Appends code words of a line.
    fn words(&mut self, words: &Sequence<u32>, number: u32) -> Result<(), NoMemory>
        requires { length self.old.words + length words.now < 2 ^ 32 }
        ensures { OnOk result (filled_of self.new ≡ with_code number words.now (filled_of self.old)) }
    {
        for i in 0..words.len() {
            self.words.push((words.at(i), number))?;
        }
        Ok(())
    }

    // Writes values with a width from a place of shared data on.
    fn bytes(&mut self, from: usize, width: Width, values: &Sequence<u32>) -> Result<(), NoMemory>
        requires { from < 2 ^ 32 }
        ensures { OnOk result (filled_of self.new ≡ with_bytes from (flat_map (spelled_as width) values.now) (filled_of self.old)) }
    {
        self.memory.write_values(from, width, values)?;
        Ok(())
    }

    // A context starts at an address.
    fn start(&mut self, place: &Position, address: u32) -> Result<(), NoMemory>
        ensures { OnOk result (filled_of self.new ≡ with_address place.now address (filled_of self.old)) }
    {
        self.starts.put(place.node, place.slot, address)?;
        Ok(())
    }

    // Values of data.
    fn fill_data(
        &mut self,
        alloc: Global,
        names: &Names,
        place: &Position,
        width: Width,
        values: &Sequence<Expression>,
        number: u32,
    ) -> Result<(), Refusal>
        requires { HasFewWords (filled (value_in names.now) number place.now (Data width values.now) (filled_of self.old)) }
        ensures { Fills (value_in names.now) 0 number place.now (Data width values.now) (filled_of self.old) (filled_of self.new) result }
    {
        let values = data_values(alloc, names, place.here, width, values)?;
        if place.in_data {
            let from = place.here.saturating_sub(0x4000_0000) as usize;
            self.bytes(from, width, &values)?;
        } else {
            self.words(&values, number)?;
        }
        Ok(())
    }

    // Instructions, or a directive that fills in nothing.
    fn fill_code(
        &mut self,
        names: &Names,
        place: &Position,
        statement: &Statement,
        number: u32,
    ) -> Result<(), Refusal>
        requires few { length self.old.words ≤ 65536 }
        requires fits { StatementFits statement.now }
        ensures { FillsCode (coded (value_in names.now) place.now.here statement.now) number (filled_of self.old) (filled_of self.new) result }
    {
        match encode(names, place.here, statement) {
            Ok(Coded::Nothing) => Ok(()),
            Ok(Coded::One(first)) => {
                self.word(instr_word(&first), number)?;
                Ok(())
            }
            Ok(Coded::Two(first, second)) => {
                self.word(instr_word(&first), number)?;
                self.word(instr_word(&second), number)?;
                Ok(())
            }
            Err(fault) => Err(Refusal::Fault(fault)),
        }
    }

    // A statement of a line with a number, where a source has `count` code words.
    fn fill(
        &mut self,
        alloc: Global,
        names: &Names,
        count: u32,
        place: &Position,
        statement: &Statement,
        number: u32,
    ) -> Result<(), Refusal>
        requires count { count ≤ 65536 }
        requires few { length self.old.words ≤ 65536 }
        requires room { HasFewWords (filled (value_in names.now) number place.now statement.now (filled_of self.old)) }
        requires fits { StatementFits statement.now }
        ensures { Fills (value_in names.now) count number place.now statement.now (filled_of self.old) (filled_of self.new) result }
    {
        match statement {
            Statement::Data { width, values } => {
                self.fill_data(alloc, names, place, *width, values, number)
            }
            Statement::Start {
                node: _,
                slot: _,
                address,
            } => match start_address(names, place.here, count, address) {
                Ok(address) => {
                    self.start(place, address)?;
                    Ok(())
                }
                Err(fault) => Err(Refusal::Fault(fault)),
            },
            _ => self.fill_code(names, place, statement, number),
        }
    }

    // A line with a number.
    fn fill_line(
        &mut self,
        alloc: Global,
        names: &Names,
        count: u32,
        place: &Position,
        statement: &Option<Statement>,
        number: u32,
    ) -> Result<(), Refusal>
        requires count { count ≤ 65536 }
        requires few { length self.old.words ≤ 65536 }
        requires room { HasFewWords (filled_in (value_in names.now) number place.now statement.now (filled_of self.old)) }
        requires fits { FitsIn statement.now }
        ensures { FillsLine (value_in names.now) count number place.now statement.now (filled_of self.old) (filled_of self.new) result }
    {
        match statement {
            Some(statement) => self.fill(alloc, names, count, place, statement, number),
            None => Ok(()),
        }
    }
}

// A fault with the number of its line, or want of memory.
fn refused_at(refusal: Refusal, number: u32) -> AsmErr
    ensures { result ≡ refused_at refusal number }
{
    match refusal {
        Refusal::Fault(fault) => fault_at(fault, number),
        Refusal::NoMemory => AsmErr::NoMemory,
    }
}

/// What the lines of a source fill in, which the second pass has laid out: the third pass. The fault is that of the
/// first line that has one.
pub fn fill_in(alloc: Global, laid: &Laid, lines: &Lines) -> Result<Filling, AsmErr>
    requires laid { places 1 nothing_laid lines.now ≡ Ok (layout_of laid.now.plan) }
    requires placed { laid.now.places ≡ places_of nothing_laid lines.now }
    requires fits { EachFits lines.now }
    ensures filled { FillsAll (values_fault (value_in laid.now.plan.names) laid.now.plan.cursor.code 1 laid.now.places lines.now) (all_filled (value_in laid.now.plan.names) 1 laid.now.places lines.now nothing_filled) result }
    ensures count { IfOk result (λ f. length f.words ≡ laid.now.plan.cursor.code) }
{
    let mut filling = Filling::empty(alloc);
    for i in 0..lines.len() {
        let place = laid.places.at(i);
        let statement = &lines.at_ref(i).statement;
        let names = laid.plan.names();
        match filling.fill_line(alloc, names, laid.plan.code(), &place, statement, i + 1) {
            Ok(()) => continue,
            Err(refusal) => return Err(refused_at(refusal, i + 1)),
        }
    }
    Ok(filling)
}
