ghost use Rattle.std.specs.Prelude.{◌≡◌, ◌≤◌, length};
ghost use Rattle.sparc_lex.specs.Characters.{is_of, begins_name, is_mark, is_allowed};
ghost use Rattle.sparc_lex.specs.Cut.{run_of};

/// A class of characters.
#[derive(Clone, Copy, PartialEq, Eq)]
pub enum Class {
    Blank,
    Letter,
    Digit,
    Hexadecimal,
    LetterOrDigit,
    NamePart,
}

impl Class {
    pub fn has(self, byte: u8) -> bool
        ensures { result ≡ is_of self byte }
    {
        match self {
            Class::Blank => byte == b' ' || byte == b'\r' || byte == b'\t',
            Class::Letter => byte.is_ascii_alphabetic(),
            Class::Digit => byte.is_ascii_digit(),
            Class::Hexadecimal => byte.is_ascii_hexdigit(),
            Class::LetterOrDigit => byte.is_ascii_alphanumeric(),
            Class::NamePart => byte.is_ascii_alphanumeric() || byte == b'_',
        }
    }

    /// How many bytes at the front are of the class.
    pub fn run(self, bytes: &[u8]) -> usize
        ensures run { result ≡ run_of self bytes.now }
        ensures within { result ≤ length bytes.now }
    {
        let mut count = 0;
        for byte in bytes {
            if !self.has(*byte) {
                return count;
            }
            count += 1;
        }
        count
    }
}

/// A letter or `_`.
pub fn begins_name(byte: u8) -> bool
    ensures { result ≡ begins_name byte }
{
    byte.is_ascii_alphabetic() || byte == b'_'
}

/// One of `,` `:` `+` `-` `[` `]` `(` `)`.
pub fn is_mark(byte: u8) -> bool
    ensures { result ≡ is_mark byte }
{
    matches!(byte, b',' | b':' | b'+' | b'-' | b'[' | b']' | b'(' | b')')
}

/// Printable ASCII, or a blank.
pub fn is_allowed(byte: u8) -> bool
    ensures { result ≡ is_allowed byte }
{
    matches!(byte, b' '..=b'~' | b'\r' | b'\t')
}
