ghost use Rattle.std.specs.Prelude.{◌≡◌, ◌<◌, ◌≤◌, ◌++◌, drop, OnOk, OnErr};
ghost use Rattle.std.specs.Fmt.{decimal};
ghost use Rattle.alw_text.specs.Numbers.{hex_byte, hex_digit, hex_digits, hex_word};

use alw_num::{Bytes, NoMemory};

/// A text that grows at its end: a list of bytes.
pub type Text = Bytes;

/// Puts numbers at the end of a text, each in its one spelling. Where memory is refused the text
/// stays as it is.
pub trait Spell {
    /// Appends a number in decimal, without leading zeros.
    fn put_decimal(&mut self, n: u64) -> Result<(), NoMemory>;

    /// Appends a word as `0x` and eight lower-case hexadecimal digits.
    fn put_hex32(&mut self, n: u32) -> Result<(), NoMemory>;

    /// Appends a word as eight lower-case hexadecimal digits.
    fn put_hex_digits(&mut self, n: u32) -> Result<(), NoMemory>;

    /// Appends a byte as `0x` and two lower-case hexadecimal digits.
    fn put_hex8(&mut self, n: u8) -> Result<(), NoMemory>;
}

impl Spell for Bytes {
    fn put_decimal(&mut self, n: u64) -> Result<(), NoMemory>
        ensures ok { OnOk result (self.new ≡ self.old ++ decimal n) }
        ensures err { OnErr result (self.new ≡ self.old) }
    {
        let mut buffer = [0; MOST_DIGITS];
        let start = write_decimal(n, &mut buffer);
        let (_unused, spelled) = buffer.split_at(start);
        self.put(spelled)
    }

    fn put_hex32(&mut self, n: u32) -> Result<(), NoMemory>
        ensures ok { OnOk result (self.new ≡ self.old ++ hex_word n) }
        ensures err { OnErr result (self.new ≡ self.old) }
    {
        let [a, b, c, d, e, f, g, h] = hex_of(n);
        self.put(&[b'0', b'x', a, b, c, d, e, f, g, h])
    }

    fn put_hex_digits(&mut self, n: u32) -> Result<(), NoMemory>
        ensures ok { OnOk result (self.new ≡ self.old ++ hex_digits n) }
        ensures err { OnErr result (self.new ≡ self.old) }
    {
        self.put(&hex_of(n))
    }

    fn put_hex8(&mut self, n: u8) -> Result<(), NoMemory>
        ensures ok { OnOk result (self.new ≡ self.old ++ hex_byte n) }
        ensures err { OnErr result (self.new ≡ self.old) }
    {
        let n = u32::from(n);
        self.put(&[b'0', b'x', digit_of(n / 16), digit_of(n % 16)])
    }
}

// The most digits of a number below 2^64.
const MOST_DIGITS: usize = 20;

// Writes a number's decimal digits at the end of the buffer. Answers the place of the first one.
fn write_decimal(n: u64, buffer: &mut [u8; 20]) -> usize
    ensures within { result ≤ 20 }
    ensures spelled { drop result buffer.new ≡ decimal n }
{
    let mut at = MOST_DIGITS;
    let mut rest = n;
    loop {
        at -= 1;
        buffer[at] = b'0' + (rest % 10) as u8;
        rest /= 10;
        if rest == 0 {
            return at;
        }
    }
}

/// The lower-case hexadecimal digit of a number below 16.
pub fn digit_of(n: u32) -> u8
    requires { n < 16 }
    ensures { result ≡ hex_digit n }
{
    if n < 10 {
        b'0' + n as u8
    } else {
        b'a' + (n - 10) as u8
    }
}

// The eight digits of a word, the highest first.
#[tactic(auto, using(crate::proofs::Numerals::hex_word_digits))]
fn hex_of(n: u32) -> [u8; 8]
    ensures { result ≡ hex_digits n }
{
    [
        digit_of(n >> 28),
        digit_of((n >> 24) % 16),
        digit_of((n >> 20) % 16),
        digit_of((n >> 16) % 16),
        digit_of((n >> 12) % 16),
        digit_of((n >> 8) % 16),
        digit_of((n >> 4) % 16),
        digit_of(n % 16),
    ]
}
