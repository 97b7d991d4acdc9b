ghost use Rattle.std.specs.Prelude.{◌≡◌, ◌<◌, map, IfSome};
ghost use Rattle.sparc_asm.specs.Mnemonics.{row_of, mnemonics, directives, form_of, directive_of};

use alw_num::Width;

/// The form of a statement: how its operands are written, and what it does with them.
#[derive(Clone, Copy, PartialEq, Eq)]
pub enum Form {
    Arith { op3: u8 },
    Shift { op3: u8 },
    Load { op3: u8 },
    Store { op3: u8 },
    Branch { cond: u8 },
    Trap { cond: u8 },
    ReadY,
    WriteY,
    Jmpl,
    Call,
    Sethi,
    Nop,
    Compare,
    Move,
    Test,
    Clear,
    Jump,
    ReturnLeaf,
    Set,
    Mesh,
    Contexts,
    Lines,
    Text,
    Shared,
    Data { width: Width },
    Skip,
    Align,
    Equ,
    Start,
    Always,
}

// The names of instructions and of the synthetic forms (SPARC V8 manual, appendix A).
const MNEMONICS: [(&[u8], Form); 85] = [
    (b"add", Form::Arith { op3: 0x00 }),
    (b"and", Form::Arith { op3: 0x01 }),
    (b"or", Form::Arith { op3: 0x02 }),
    (b"xor", Form::Arith { op3: 0x03 }),
    (b"sub", Form::Arith { op3: 0x04 }),
    (b"andn", Form::Arith { op3: 0x05 }),
    (b"orn", Form::Arith { op3: 0x06 }),
    (b"xnor", Form::Arith { op3: 0x07 }),
    (b"addx", Form::Arith { op3: 0x08 }),
    (b"umul", Form::Arith { op3: 0x0a }),
    (b"smul", Form::Arith { op3: 0x0b }),
    (b"subx", Form::Arith { op3: 0x0c }),
    (b"addcc", Form::Arith { op3: 0x10 }),
    (b"andcc", Form::Arith { op3: 0x11 }),
    (b"orcc", Form::Arith { op3: 0x12 }),
    (b"xorcc", Form::Arith { op3: 0x13 }),
    (b"subcc", Form::Arith { op3: 0x14 }),
    (b"andncc", Form::Arith { op3: 0x15 }),
    (b"orncc", Form::Arith { op3: 0x16 }),
    (b"xnorcc", Form::Arith { op3: 0x17 }),
    (b"addxcc", Form::Arith { op3: 0x18 }),
    (b"subxcc", Form::Arith { op3: 0x1c }),
    (b"sll", Form::Shift { op3: 0x25 }),
    (b"srl", Form::Shift { op3: 0x26 }),
    (b"sra", Form::Shift { op3: 0x27 }),
    (b"ld", Form::Load { op3: 0x00 }),
    (b"ldub", Form::Load { op3: 0x01 }),
    (b"lduh", Form::Load { op3: 0x02 }),
    (b"ldsb", Form::Load { op3: 0x09 }),
    (b"ldsh", Form::Load { op3: 0x0a }),
    (b"ldstub", Form::Load { op3: 0x0d }),
    (b"swap", Form::Load { op3: 0x0f }),
    (b"st", Form::Store { op3: 0x04 }),
    (b"stb", Form::Store { op3: 0x05 }),
    (b"sth", Form::Store { op3: 0x06 }),
    (b"bn", Form::Branch { cond: 0 }),
    (b"be", Form::Branch { cond: 1 }),
    (b"ble", Form::Branch { cond: 2 }),
    (b"bl", Form::Branch { cond: 3 }),
    (b"bleu", Form::Branch { cond: 4 }),
    (b"bcs", Form::Branch { cond: 5 }),
    (b"bneg", Form::Branch { cond: 6 }),
    (b"bvs", Form::Branch { cond: 7 }),
    (b"ba", Form::Branch { cond: 8 }),
    (b"bne", Form::Branch { cond: 9 }),
    (b"bg", Form::Branch { cond: 10 }),
    (b"bge", Form::Branch { cond: 11 }),
    (b"bgu", Form::Branch { cond: 12 }),
    (b"bcc", Form::Branch { cond: 13 }),
    (b"bpos", Form::Branch { cond: 14 }),
    (b"bvc", Form::Branch { cond: 15 }),
    (b"b", Form::Branch { cond: 8 }),
    (b"bz", Form::Branch { cond: 1 }),
    (b"bnz", Form::Branch { cond: 9 }),
    (b"bgeu", Form::Branch { cond: 13 }),
    (b"blu", Form::Branch { cond: 5 }),
    (b"tn", Form::Trap { cond: 0 }),
    (b"te", Form::Trap { cond: 1 }),
    (b"tle", Form::Trap { cond: 2 }),
    (b"tl", Form::Trap { cond: 3 }),
    (b"tleu", Form::Trap { cond: 4 }),
    (b"tcs", Form::Trap { cond: 5 }),
    (b"tneg", Form::Trap { cond: 6 }),
    (b"tvs", Form::Trap { cond: 7 }),
    (b"ta", Form::Trap { cond: 8 }),
    (b"tne", Form::Trap { cond: 9 }),
    (b"tg", Form::Trap { cond: 10 }),
    (b"tge", Form::Trap { cond: 11 }),
    (b"tgu", Form::Trap { cond: 12 }),
    (b"tcc", Form::Trap { cond: 13 }),
    (b"tpos", Form::Trap { cond: 14 }),
    (b"tvc", Form::Trap { cond: 15 }),
    (b"rd", Form::ReadY),
    (b"wr", Form::WriteY),
    (b"jmpl", Form::Jmpl),
    (b"call", Form::Call),
    (b"sethi", Form::Sethi),
    (b"nop", Form::Nop),
    (b"cmp", Form::Compare),
    (b"mov", Form::Move),
    (b"tst", Form::Test),
    (b"clr", Form::Clear),
    (b"jmp", Form::Jump),
    (b"retl", Form::ReturnLeaf),
    (b"set", Form::Set),
];

// The names of directives, without their dot.
const DIRECTIVES: [(&[u8], Form); 13] = [
    (b"mesh", Form::Mesh),
    (b"contexts", Form::Contexts),
    (b"lines", Form::Lines),
    (b"text", Form::Text),
    (b"shared", Form::Shared),
    (b"word", Form::Data { width: Width::Word }),
    (b"half", Form::Data { width: Width::Half }),
    (b"byte", Form::Data { width: Width::Byte }),
    (b"skip", Form::Skip),
    (b"align", Form::Align),
    (b"equ", Form::Equ),
    (b"start", Form::Start),
    (b"always", Form::Always),
];

// The row with a name.
fn row_of(table: &[(&[u8], Form)], name: &[u8]) -> Option<Form>
    ensures { result ≡ row_of name.now (map (λ row. (row.0.now, row.1)) table.now) }
{
    for (spelling, form) in table {
        if *spelling == name {
            return Some(*form);
        }
    }
    None
}

/// The form of the instruction with a name.
#[tactic(auto, unfolding(crate::specs::Mnemonics::form_of))]
pub fn form_of(name: &[u8]) -> Option<Form>
    ensures { result ≡ form_of name.now }
{
    row_of(&MNEMONICS, name)
}

/// The form of the directive with a name.
#[tactic(auto, unfolding(crate::specs::Mnemonics::directive_of))]
pub fn directive_of(name: &[u8]) -> Option<Form>
    ensures { result ≡ directive_of name.now }
{
    row_of(&DIRECTIVES, name)
}
