ghost use Rattle.std.specs.Prelude.{◌≡◌, ◌≤◌, ◌+◌, ◌++◌, [], length, codes};
ghost use Rattle.std.specs.Fmt.{decimal};
ghost use Rattle.alw_answers.specs.declared.answers.Cause.TheVariants.{Words, Input};
ghost use Rattle.alw_answers.specs.ErrLines.{err_line, input_text, asm_text, asm_fault_text, image_text, image_fault_text, text_text, text_fault_text, turn_text, input_refused, read_fault_line, write_fault_line, no_memory_line};

use crate::answers::{Cause, InputErr};
use alw_image::ImageErr;
use alw_trace::TextErr;
use arrayvec::ArrayString;
use itoa::Buffer;
use sparc_asm::AsmErr;

/// The line of an answer on standard error, which takes no memory: nothing where all went well, a
/// context trapped or may trap, the limit was reached, an end may not be, or a claim isn't sound.
pub fn err_line(cause: &Cause) -> ArrayString<96>
    ensures { result.bytes ≡ err_line cause.now }
{
    let mut line = ArrayString::new();
    match cause {
        Cause::Fine
        | Cause::Trapped(_)
        | Cause::Limit(_)
        | Cause::Differs(..)
        | Cause::MayTrap
        | Cause::MayNotEnd => {}
        Cause::Words(e) => put_refused_word(&mut line, e.at),
        Cause::Input(fault) => put_refused_input(&mut line, fault),
        Cause::ReadFault => put_read_fault(&mut line),
        Cause::WriteFault => put_write_fault(&mut line),
        Cause::NoMemory => put_no_memory(&mut line),
    }
    line
}

// The place of a refused word.
fn put_refused_word(line: &mut ArrayString<96>, at: u32)
    requires { line.old.bytes ≡ [] }
    ensures { line.new.bytes ≡ err_line (Words (record { at = at })) }
{
    line.push_str("alewife: word ");
    put_number(line, at);
    line.push_str(" refused\n");
}

// Why an input was refused.
fn put_refused_input(line: &mut ArrayString<96>, fault: &InputErr)
    requires { line.old.bytes ≡ [] }
    ensures { line.new.bytes ≡ err_line (Input fault.now) }
{
    put_input_refused(line);
    put_input(line, fault);
    line.push_str("\n");
}

#[tactic(auto, unfolding(crate::specs::ErrLines::input_refused))]
fn put_input_refused(line: &mut ArrayString<96>)
    requires { line.old.bytes ≡ [] }
    ensures text { line.new.bytes ≡ input_refused }
    ensures few { length line.new.bytes ≤ 24 }
{
    line.push_str("alewife: input refused: ");
}

#[tactic(auto, unfolding(crate::specs::ErrLines::read_fault_line))]
fn put_read_fault(line: &mut ArrayString<96>)
    requires { line.old.bytes ≡ [] }
    ensures { line.new.bytes ≡ read_fault_line }
{
    line.push_str("alewife: read fault\n");
}

#[tactic(auto, unfolding(crate::specs::ErrLines::write_fault_line))]
fn put_write_fault(line: &mut ArrayString<96>)
    requires { line.old.bytes ≡ [] }
    ensures { line.new.bytes ≡ write_fault_line }
{
    line.push_str("alewife: write fault\n");
}

#[tactic(auto, unfolding(crate::specs::ErrLines::no_memory_line))]
fn put_no_memory(line: &mut ArrayString<96>)
    requires { line.old.bytes ≡ [] }
    ensures { line.new.bytes ≡ no_memory_line }
{
    line.push_str("alewife: no memory\n");
}

// The reason alone.
fn put_input(line: &mut ArrayString<96>, fault: &InputErr)
    requires { length line.old.bytes ≤ 24 }
    ensures text { line.new.bytes ≡ line.old.bytes ++ input_text fault.now }
    ensures few { length line.new.bytes ≤ 80 }
{
    match fault {
        InputErr::TooLong => line.push_str("too long"),
        InputErr::Asm(fault) => put_asm(line, fault),
        InputErr::Image(fault) => put_image(line, fault),
        InputErr::Text(fault) => put_text(line, fault),
        InputErr::NotLegal(k) => {
            line.push_str("entry ");
            put_number(line, *k);
            line.push_str(" not legal");
        }
        InputErr::Unfinished => line.push_str("not finished"),
        InputErr::LimitDoesNotFit(number, most) => put_excess(line, "limit ", *number, *most),
        InputErr::StateDiffers(at) => {
            line.push_str("state line ");
            put_long(line, *at);
        }
        InputErr::WorkersDoNotFit(number, most) => put_excess(line, "workers ", *number, *most),
        InputErr::NotReady(turn) => put_turn(line, *turn, " not ready"),
        InputErr::NotCurrent(turn) => put_turn(line, *turn, " not current"),
        InputErr::AboveLimit(turn) => put_turn(line, *turn, " above limit"),
    }
}

// A number that is above the most that it may be.
fn put_excess(line: &mut ArrayString<96>, what: &str, number: u64, most: u64)
    requires room { length line.old.bytes ≤ 24 }
    requires short { length what.now ≤ 8 }
    ensures text { line.new.bytes ≡ line.old.bytes ++ (what.now ++ (decimal number ++ (codes " above " ++ decimal most))) }
    ensures few { length line.new.bytes ≤ 80 }
{
    line.push_str(what);
    put_long(line, number);
    line.push_str(" above ");
    put_long(line, most);
}

// A turn that isn't taken, and why.
fn put_turn(line: &mut ArrayString<96>, turn: u32, why: &str)
    requires room { length line.old.bytes ≤ 24 }
    requires short { length why.now ≤ 12 }
    ensures text { line.new.bytes ≡ line.old.bytes ++ turn_text turn why.now }
    ensures few { length line.new.bytes ≤ 80 }
{
    line.push_str("turn ");
    put_number(line, turn);
    line.push_str(why);
}

// The fault of a source.
fn put_asm(line: &mut ArrayString<96>, fault: &AsmErr)
    requires { length line.old.bytes ≤ 24 }
    ensures text { line.new.bytes ≡ line.old.bytes ++ asm_text fault.now }
    ensures few { length line.new.bytes ≤ 72 }
{
    match fault {
        AsmErr::Syntax { line: at } => put_asm_fault(line, *at, "syntax"),
        AsmErr::UnknownName { line: at } => put_asm_fault(line, *at, "unknown name"),
        AsmErr::Redefined { line: at } => put_asm_fault(line, *at, "redefined"),
        AsmErr::Range { line: at } => put_asm_fault(line, *at, "range"),
        AsmErr::Unaligned { line: at } => put_asm_fault(line, *at, "unaligned"),
        AsmErr::Overlap { line: at } => put_asm_fault(line, *at, "overlap"),
        AsmErr::NoMemory => {}
    }
}

// A line of a source, and what is wrong there.
fn put_asm_fault(line: &mut ArrayString<96>, at: u32, fault: &str)
    requires room { length line.old.bytes ≤ 24 }
    requires short { length fault.now ≤ 12 }
    ensures text { line.new.bytes ≡ line.old.bytes ++ asm_fault_text at fault.now }
    ensures few { length line.new.bytes ≤ 72 }
{
    line.push_str("source line ");
    put_number(line, at);
    line.push_str(": ");
    line.push_str(fault);
}

// The fault of an image.
fn put_image(line: &mut ArrayString<96>, fault: &ImageErr)
    requires { length line.old.bytes ≤ 24 }
    ensures text { line.new.bytes ≡ line.old.bytes ++ image_text fault.now }
    ensures few { length line.new.bytes ≤ 72 }
{
    match fault {
        ImageErr::Magic { at } => put_image_fault(line, *at, "magic"),
        ImageErr::Version { at } => put_image_fault(line, *at, "version"),
        ImageErr::Short { at } => put_image_fault(line, *at, "short"),
        ImageErr::Trailing { at } => put_image_fault(line, *at, "trailing"),
        ImageErr::Range { at } => put_image_fault(line, *at, "range"),
        ImageErr::Order { at } => put_image_fault(line, *at, "order"),
        ImageErr::NoMemory => {}
    }
}

// A byte of an image, and what is wrong there.
fn put_image_fault(line: &mut ArrayString<96>, at: u32, fault: &str)
    requires room { length line.old.bytes ≤ 24 }
    requires short { length fault.now ≤ 12 }
    ensures text { line.new.bytes ≡ line.old.bytes ++ image_fault_text at fault.now }
    ensures few { length line.new.bytes ≤ 72 }
{
    line.push_str("image byte ");
    put_number(line, at);
    line.push_str(": ");
    line.push_str(fault);
}

// The fault of a trace or a claim.
fn put_text(line: &mut ArrayString<96>, fault: &TextErr)
    requires { length line.old.bytes ≤ 24 }
    ensures text { line.new.bytes ≡ line.old.bytes ++ text_text fault.now }
    ensures few { length line.new.bytes ≤ 72 }
{
    match fault {
        TextErr::Syntax { line: at } => put_text_fault(line, *at, "syntax"),
        TextErr::Range { line: at } => put_text_fault(line, *at, "range"),
        TextErr::Image { fault } => put_image(line, fault),
        TextErr::NoMemory => {}
    }
}

// A line of a text, and what is wrong there.
fn put_text_fault(line: &mut ArrayString<96>, at: u64, fault: &str)
    requires room { length line.old.bytes ≤ 24 }
    requires short { length fault.now ≤ 12 }
    ensures text { line.new.bytes ≡ line.old.bytes ++ text_fault_text at fault.now }
    ensures few { length line.new.bytes ≤ 72 }
{
    line.push_str("text line ");
    put_long(line, at);
    line.push_str(": ");
    line.push_str(fault);
}

// A number in decimal.
fn put_number(line: &mut ArrayString<96>, n: u32)
    requires { length line.old.bytes ≤ 80 }
    ensures text { line.new.bytes ≡ line.old.bytes ++ decimal n }
    ensures few { length line.new.bytes ≤ length line.old.bytes + 10 }
{
    let mut buffer = Buffer::new();
    line.push_str(buffer.format(n));
}

// A number of 64 bits in decimal.
fn put_long(line: &mut ArrayString<96>, n: u64)
    requires { length line.old.bytes ≤ 72 }
    ensures text { line.new.bytes ≡ line.old.bytes ++ decimal n }
    ensures few { length line.new.bytes ≤ length line.old.bytes + 20 }
{
    let mut buffer = Buffer::new();
    line.push_str(buffer.format(n));
}
