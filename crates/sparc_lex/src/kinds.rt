use alw_num::{NoMemory, Sequence};

/// What a token is.
#[derive(Clone, Copy, PartialEq, Eq)]
pub enum TokenKind {
    /// A name, or `.` and one or more letters.
    Word,
    /// `.` alone.
    Dot,
    /// Decimal digits, or `0x` and 1 to 8 hexadecimal digits.
    Number,
    /// `%` and one or more letters or digits.
    Percent,
    /// One of `,` `:` `+` `-` `[` `]` `(` `)`.
    Mark,
}

/// A token: the number of its line, counted from 1, the places in the source of its first byte and
/// of the byte behind it, and its kind.
#[derive(Clone, Copy, PartialEq, Eq)]
pub struct Token {
    pub line: u32,
    pub start: usize,
    pub end: usize,
    pub kind: TokenKind,
}

impl Token {
    ghost use Rattle.std.specs.Prelude.{◌≡◌};
    ghost use Rattle.sparc_lex.specs.Cut.{text_of};

    /// The text of the token: its slice of the source that it was cut from.
    pub fn text<'a>(&self, source: &'a [u8]) -> &'a [u8]
        ensures { result.now ≡ text_of source.now self.now }
    {
        let start = self.start.min(source.len());
        let (_before, rest) = source.split_at(start);
        let length = self.end.saturating_sub(self.start).min(rest.len());
        let (text, _behind) = rest.split_at(length);
        text
    }
}

/// The tokens of a source, in order.
pub type Tokens = Sequence<Token>;

/// Why a source has no tokens.
#[derive(Clone, Copy, Debug, PartialEq, Eq)]
pub enum LexErr {
    /// The first line that can't be cut.
    Syntax { line: u32 },
    NoMemory,
}

impl From<NoMemory> for LexErr {
    ghost use Rattle.sparc_lex.specs.declared.kinds.LexErr.TheVariants.{NoMemory};
    ghost use Rattle.std.specs.Prelude.{◌≡◌};

    ghost from_gives = { λ _ e. e ≡ NoMemory };

    fn from(_e: NoMemory) -> LexErr {
        LexErr::NoMemory
    }
}
