ghost use Rattle.std.specs.Prelude.{◌≡◌, ◌<◌, ◌%◌, [], slice_index_or};
ghost use Rattle.sparc_text.specs.Statements.{plain_names, shift_name, access_name, condition_name};

/// The name of arithmetic and logic that sets no codes, by the low four bits of op3.
pub fn plain_name(op3: u8) -> &'static str
    ensures { result.now ≡ slice_index_or plain_names (op3 % 16) [] }
{
    match op3 % 16 {
        0 => "add",
        1 => "and",
        2 => "or",
        3 => "xor",
        4 => "sub",
        5 => "andn",
        6 => "orn",
        7 => "xnor",
        8 => "addx",
        10 => "umul",
        11 => "smul",
        12 => "subx",
        _ => "",
    }
}

/// The name of a shift.
pub fn shift_name(op3: u8) -> &'static str
    ensures { result.now ≡ shift_name op3 }
{
    match op3 {
        0x25 => "sll",
        0x26 => "srl",
        _ => "sra",
    }
}

/// The name of a load, a store, LDSTUB or SWAP.
pub fn access_name(op3: u8) -> &'static str
    requires { op3 < 16 }
    ensures { result.now ≡ access_name op3 }
{
    match op3 {
        0x00 => "ld",
        0x01 => "ldub",
        0x02 => "lduh",
        0x04 => "st",
        0x05 => "stb",
        0x06 => "sth",
        0x09 => "ldsb",
        0x0a => "ldsh",
        0x0d => "ldstub",
        0x0f => "swap",
        _ => "",
    }
}

/// The name of a condition.
pub fn condition_name(condition: u8) -> &'static str
    requires { condition < 16 }
    ensures { result.now ≡ condition_name condition }
{
    match condition {
        0 => "n",
        1 => "e",
        2 => "le",
        3 => "l",
        4 => "leu",
        5 => "cs",
        6 => "neg",
        7 => "vs",
        8 => "a",
        9 => "ne",
        10 => "g",
        11 => "ge",
        12 => "gu",
        13 => "cc",
        14 => "pos",
        15 => "vc",
        _ => unreachable!(),
    }
}
