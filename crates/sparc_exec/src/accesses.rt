ghost use Rattle.std.specs.Prelude.{◌≡◌, ◌<◌, IfOk};
ghost use Rattle.alw_num.specs.Lanes.{IsAligned};
ghost use Rattle.sparc_table.specs.Operands.{sign_extended};
ghost use Rattle.sparc_table.specs.Access.{width_of, is_load, mode_of, needed, loaded, stored};
ghost use Rattle.sparc_exec.specs.Runs.{need_with};

use alw_num::{LINE_BYTES, Line, LineNo, Width, lane, line_of, with_lane};

/// The width of an access.
pub fn width(op3: u8) -> Width
    ensures { result ≡ width_of op3 }
{
    match op3 {
        0x01 | 0x05 | 0x09 | 0x0d => Width::Byte,
        0x02 | 0x06 | 0x0a => Width::Half,
        _ => Width::Word,
    }
}

/// Is an op3 of a load, which writes nothing?
pub fn is_load(op3: u8) -> bool
    ensures { result ≡ is_load op3 }
{
    matches!(op3, 0x00..=0x02 | 0x09 | 0x0a)
}

// The line that an access needs, or the type of its trap.
pub fn line_at(op3: u8, address: u32, lines: u32) -> Result<LineNo, u8>
    ensures need { needed address (width_of op3) (mode_of op3) lines ≡ need_with (mode_of op3) result }
    ensures aligned { IfOk result (λ line. IsAligned (width_of op3) address) }
{
    if address % width(op3).bytes() != 0 {
        return Err(0x07);
    }
    match line_of(address) {
        Some(line) if line.0 < lines => Ok(line),
        _ => Err(0x09),
    }
}

// 8 bits, sign-extended.
fn sign_extend_8(bits: u32) -> u32
    requires { bits < 256 }
    ensures { result ≡ sign_extended 8 bits }
{
    if bits < 0x80 {
        bits
    } else {
        bits + 0xffff_ff00
    }
}

// 16 bits, sign-extended.
fn sign_extend_16(bits: u32) -> u32
    requires { bits < 65536 }
    ensures { result ≡ sign_extended 16 bits }
{
    if bits < 0x8000 {
        bits
    } else {
        bits + 0xffff_0000
    }
}

// What a load, LDSTUB or SWAP gives rd.
#[tactic(auto, unfolding(sparc_table::specs::Access::loaded))]
pub fn load(op3: u8, address: u32, line: &Line) -> u32
    requires { IsAligned (width_of op3) address }
    ensures { result ≡ loaded op3 address line.now }
{
    let value = lane(line, address % LINE_BYTES, width(op3));
    match op3 {
        0x09 => sign_extend_8(value),
        0x0a => sign_extend_16(value),
        _ => value,
    }
}

// What a store, LDSTUB or SWAP leaves of the line, of which LDSTUB writes FF.
#[tactic(auto, unfolding(sparc_table::specs::Access::stored))]
pub fn store(op3: u8, address: u32, value: u32, line: &Line) -> Line
    requires { IsAligned (width_of op3) address }
    ensures { result ≡ stored op3 address value line.now }
{
    let offset = address % LINE_BYTES;
    match op3 {
        0x0d => with_lane(line, offset, Width::Byte, 0xff),
        _ => with_lane(line, offset, width(op3), value),
    }
}
