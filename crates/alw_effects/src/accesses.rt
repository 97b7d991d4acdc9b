ghost use Rattle.std.specs.Prelude.{◌≡◌, ◌%◌, ◌++◌, cond, [], OnOk};
ghost use Rattle.alw_num.specs.Lanes.{IsAligned, lane_of};
ghost use Rattle.sparc_table.specs.Access.{width_of, is_load};
ghost use Rattle.sparc_table.specs.Table.{Fits};
ghost use Rattle.sparc_text.specs.Statements.{is_store};
ghost use Rattle.alw_effects.specs.Pieces.{reads_text, writes_text};
ghost use Rattle.alw_effects.specs.Before.{IsAlignedIn};
ghost use Rattle.alw_effects.specs.Effects.{access_text, moved_in};

use crate::before::SlotBefore;
use crate::pieces::{put_reads, put_writes};
use alw_num::{LINE_BYTES, Line, NoMemory, lane};
use alw_text::Text;
use sparc_exec::{address, is_load, width};
use sparc_table::{Instr, Need};
use sparc_text::is_store;

/// What an instruction that is done read of its line as it was, and wrote of it as it is now.
pub fn put_moved(
    text: &mut Text,
    instr: &Instr,
    before: &SlotBefore,
    body: &Line,
) -> Result<(), NoMemory>
    requires fits { Fits instr.now }
    requires aligned { IsAlignedIn before.now.need instr.now before.now.regs }
    ensures { OnOk result (text.new ≡ text.old ++ moved_in before.now.need instr.now before.now.regs before.now.body body.now) }
{
    match before.need {
        Need::Copy { .. } => match *instr {
            Instr::Memory {
                op3,
                rs1,
                operand,
                ..
            } => {
                let address = address(rs1, operand, &before.regs);
                put_access(text, op3, address, &before.body, body)
            }
            _ => Ok(()),
        },
        _ => Ok(()),
    }
}

// What an access read, and what it wrote.
fn put_access(
    text: &mut Text,
    op3: u8,
    address: u32,
    before: &Line,
    after: &Line,
) -> Result<(), NoMemory>
    requires { IsAligned (width_of op3) address }
    ensures { OnOk result (text.new ≡ text.old ++ access_text op3 address before.now after.now) }
{
    put_read(text, op3, address, before)?;
    put_written(text, op3, address, after)?;
    Ok(())
}

// What is read by all but a store.
fn put_read(text: &mut Text, op3: u8, address: u32, line: &Line) -> Result<(), NoMemory>
    requires { IsAligned (width_of op3) address }
    ensures { OnOk result (text.new ≡ text.old ++ cond (is_store op3) [] (reads_text address (width_of op3) (lane_of line.now (address % 16) (width_of op3)))) }
{
    if is_store(op3) {
        return Ok(());
    }
    let width = width(op3);
    put_reads(
        text,
        address,
        width,
        lane(line, address % LINE_BYTES, width),
    )
}

// What is written by all but a load.
fn put_written(text: &mut Text, op3: u8, address: u32, line: &Line) -> Result<(), NoMemory>
    requires { IsAligned (width_of op3) address }
    ensures { OnOk result (text.new ≡ text.old ++ cond (is_load op3) [] (writes_text address (width_of op3) (lane_of line.now (address % 16) (width_of op3)))) }
{
    if is_load(op3) {
        return Ok(());
    }
    let width = width(op3);
    put_writes(
        text,
        address,
        width,
        lane(line, address % LINE_BYTES, width),
    )
}
