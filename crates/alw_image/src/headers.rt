ghost use Rattle.std.specs.Prelude.{◌≡◌, ◌<◌, ◌≤◌, ◌≢◌, ◌*◌, ◌+◌, ◌^◌, ◌∷◌, ◌++◌, drop, length, Option, IfSome, IfNone, IsTrue, None, Some, codes};
ghost use Rattle.std.specs.Int.{w16, w32, to_be_bytes};
ghost use Rattle.alw_num.specs.Lanes.{half_at};
ghost use Rattle.alw_image.specs.Faults.{header_of, range_fault, fields, first_unfit, is_within, is_magic, header_fault, image_fault, body_fault, bodies_at, starts_at, always_at, image_end, most_side, least_height};
ghost use Rattle.alw_image.specs.Spellings.{header_bytes};
ghost use Rattle.alw_image.specs.Sizes.{ImageIsShort};
ghost use Rattle.alw_image.specs.declared.faults.ImageErr.{ImageErr};

use crate::faults::ImageErr;
use crate::readers::{behind, byte_at, half_at, word_at};
use alw_num::MOST_SIDE;

// The letters that an image begins with.
const MAGIC: [u8; 4] = [0x41, 0x4c, 0x45, 0x57];

/// The numbers in an image's first 28 bytes, behind `ALEW`. `blank` is the byte that is 0; `code`,
/// `bodies`, `starts` and `always` are numbers of members.
#[derive(Clone, Copy, PartialEq, Eq)]
pub struct Header {
    pub version: u16,
    pub width: u8,
    pub height: u8,
    pub contexts: u8,
    pub blank: u8,
    pub per_node: u16,
    pub code: u32,
    pub bodies: u32,
    pub starts: u32,
    pub always: u32,
}

impl Header {
    // The first field that is outside its range, by its place.
    pub fn range_fault(&self) -> Option<u32>
        ensures { result ≡ range_fault self.now }
    {
        for (place, fits) in &self.fields() {
            if !*fits {
                return Some(*place);
            }
        }
        None
    }

    // The fields in their order, each by its place, and whether it is within its range.
    #[tactic(auto, unfolding(crate::specs::Faults::fields))]
    fn fields(&self) -> [(u32, bool); 9]
        ensures { result ≡ fields self.now }
    {
        let nodes = u32::from(self.width) * u32::from(self.height);
        let lines = nodes * u32::from(self.per_node);
        let contexts = nodes * u32::from(self.contexts);
        [
            (6, is_within(1, self.most_side(), u32::from(self.width))),
            (
                7,
                is_within(
                    self.least_height(),
                    self.most_side(),
                    u32::from(self.height),
                ),
            ),
            (8, is_within(1, 4, u32::from(self.contexts))),
            (9, is_within(0, 0, u32::from(self.blank))),
            (10, is_within(1, 4096, u32::from(self.per_node))),
            (12, is_within(1, 65536, self.code)),
            (16, is_within(0, lines, self.bodies)),
            (20, is_within(1, contexts, self.starts)),
            (24, is_within(0, lines, self.always)),
        ]
    }

    // Where the data lines begin.
    pub fn bodies_at(&self) -> u32
        requires { ImageIsShort self.now }
        ensures { result ≡ bodies_at self.now }
    {
        28 + 4 * self.code
    }

    // Where the starts begin.
    pub fn starts_at(&self) -> u32
        requires { ImageIsShort self.now }
        ensures { result ≡ starts_at self.now }
    {
        self.bodies_at() + 20 * self.bodies
    }

    // Where the Trap-Always lines begin.
    pub fn always_at(&self) -> u32
        requires { ImageIsShort self.now }
        ensures { result ≡ always_at self.now }
    {
        self.starts_at() + 8 * self.starts
    }

    // Where the image ends.
    pub fn end(&self) -> u32
        requires { ImageIsShort self.now }
        ensures { result ≡ image_end self.now }
    {
        self.always_at() + 4 * self.always
    }

    // The greatest width and height.
    fn most_side(&self) -> u32
        ensures { result ≡ most_side self.now.version }
    {
        if self.version == 1 {
            8
        } else {
            u32::from(MOST_SIDE)
        }
    }

    // The least height: an image of at most 8 columns and rows is of version 1.
    fn least_height(&self) -> u32
        ensures { result ≡ least_height self.now }
    {
        if self.version == 1 || self.width > 8 {
            1
        } else {
            9
        }
    }
}

// A number is within a range, both ends included.
pub fn is_within(least: u32, most: u32, n: u32) -> bool
    ensures { result ≡ is_within least most n }
{
    least <= n && n <= most
}

// What is wrong with the bytes up to the version, or with their number up to the counts.
#[tactic(auto, unfolding(crate::specs::Faults::image_fault))]
pub fn front_fault(bytes: &[u8]) -> Option<ImageErr>
    ensures some { IfSome result (λ fault. image_fault bytes.now ≡ Some fault) }
    ensures none { IfNone result (image_fault bytes.now ≡ body_fault bytes.now) }
    ensures magic { IfNone result (IsTrue (is_magic bytes.now)) }
    ensures long { IfNone result (28 ≤ length bytes.now) }
    ensures version { IfNone result (IsTrue (is_within 1 2 (half_at bytes.now 4))) }
{
    let count = bytes.len();
    if !MAGIC.starts_with(&bytes[..count.min(4)]) {
        return Some(ImageErr::Magic { at: 0 });
    }
    if count < 6 {
        return Some(ImageErr::Short { at: count as u32 });
    }
    if !(1..=2).contains(&u16::from_be_bytes([bytes[4], bytes[5]])) {
        return Some(ImageErr::Version { at: 4 });
    }
    if count < 28 {
        return Some(ImageErr::Short { at: count as u32 });
    }
    None
}

// The numbers in the first 28 bytes, and what follows them.
pub fn header_at(bytes: &[u8]) -> (Header, &[u8])
    requires magic { IsTrue (is_magic bytes.now) }
    requires long { 28 ≤ length bytes.now }
    ensures spelled { bytes.now ≡ header_bytes result.0 ++ result.1.now }
    ensures header { result.0 ≡ header_of bytes.now }
    ensures rest { result.1.now ≡ drop 28 bytes.now }
{
    match header_behind(bytes) {
        Some(read) => read,
        None => unreachable!(),
    }
}

// The same. None where the bytes don't begin with `ALEW` or fewer bytes follow it.
#[tactic(auto, unfolding(crate::specs::Spellings::header_bytes))]
fn header_behind(bytes: &[u8]) -> Option<(Header, &[u8])>
    ensures spelled { IfSome result (λ read. bytes.now ≡ header_bytes read.0 ++ read.1.now) }
    ensures header { IfSome result (λ read. read.0 ≡ header_of bytes.now) }
    ensures rest { IfSome result (λ read. read.1.now ≡ drop 28 bytes.now) }
    ensures none { IfNone result (IsTrue (is_magic bytes.now) → length bytes.now < 28) }
{
    let rest = behind(bytes, &MAGIC)?;
    let (version, rest) = half_at(rest)?;
    let (width, rest) = byte_at(rest)?;
    let (height, rest) = byte_at(rest)?;
    let (contexts, rest) = byte_at(rest)?;
    let (blank, rest) = byte_at(rest)?;
    let (per_node, rest) = half_at(rest)?;
    let (code, rest) = word_at(rest)?;
    let (bodies, rest) = word_at(rest)?;
    let (starts, rest) = word_at(rest)?;
    let (always, rest) = word_at(rest)?;
    let header = Header {
        version,
        width,
        height,
        contexts,
        blank,
        per_node,
        code,
        bodies,
        starts,
        always,
    };
    Some((header, rest))
}

// What is wrong with a header, or with the number of bytes of which it is the first.
#[tactic(auto, using(crate::proofs::HeaderFields::is_short))]
pub fn size_fault(header: &Header, count: usize) -> Option<ImageErr>
    ensures some { IfSome result (λ fault. (rest : Option ImageErr) → header_fault count header.now rest ≡ Some fault) }
    ensures none { IfNone result ((rest : Option ImageErr) → header_fault count header.now rest ≡ rest) }
    ensures fits { IfNone result (range_fault header.now ≡ None) }
    ensures whole { IfNone result (count ≡ image_end header.now) }
    ensures short { IfNone result (ImageIsShort header.now) }
{
    if let Some(at) = header.range_fault() {
        return Some(ImageErr::Range { at });
    }
    let end = header.end();
    if count < end as usize {
        Some(ImageErr::Short { at: count as u32 })
    } else if count > end as usize {
        Some(ImageErr::Trailing { at: end })
    } else {
        None
    }
}
