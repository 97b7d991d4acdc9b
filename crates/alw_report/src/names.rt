ghost use Rattle.std.specs.Prelude.{◌≡◌, ◌++◌, OnOk, codes};
ghost use Rattle.std.specs.Option.{option_map};
ghost use Rattle.alw_text.specs.Numbers.{hex_byte};
ghost use Rattle.alw_report.specs.Names.{kind_text, mode_text, status_text};

use alw_msg::{Kind, Status};
use alw_num::{LineNo, Mode, NoMemory};
use alw_text::{Spell, Text, put_number};

/// The name of a mode.
pub fn mode_name(mode: Mode) -> &'static str
    ensures { result.now ≡ mode_text mode }
{
    match mode {
        Mode::Read => "read",
        Mode::Write => "write",
    }
}

/// The name of a kind of message.
pub fn kind_name(kind: Kind) -> &'static str
    ensures { result.now ≡ kind_text kind }
{
    match kind {
        Kind::RREQ => "RREQ",
        Kind::WREQ => "WREQ",
        Kind::REPM => "REPM",
        Kind::UPDATE => "UPDATE",
        Kind::ACKC => "ACKC",
        Kind::RDATA => "RDATA",
        Kind::WDATA => "WDATA",
        Kind::INV => "INV",
        Kind::BUSY => "BUSY",
    }
}

/// What a context does: a hold comes before its status.
pub fn put_status(text: &mut Text, hold: Option<LineNo>, status: Status) -> Result<(), NoMemory>
    ensures { OnOk result (text.new ≡ text.old ++ status_text (option_map (λ (line : LineNo). line.0) hold) status) }
{
    if let Some(line) = hold {
        return put_number(text, b"hold ", u64::from(line.0));
    }
    match status {
        Status::Ready => text.put(b"ready"),
        Status::Waiting { line } => put_number(text, b"wait ", u64::from(line.0)),
        Status::Halted => text.put(b"halted"),
        Status::Trapped { tt, .. } => put_trap_type(text, tt),
    }
}

// The type of a trap.
fn put_trap_type(text: &mut Text, tt: u8) -> Result<(), NoMemory>
    ensures { OnOk result (text.new ≡ text.old ++ (codes "trapped " ++ hex_byte tt)) }
{
    text.put(b"trapped ")?;
    text.put_hex8(tt)?;
    Ok(())
}
