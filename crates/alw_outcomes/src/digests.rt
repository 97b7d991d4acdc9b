ghost use Rattle.std.specs.Prelude.{◌≡◌};
ghost use Rattle.alw_outcomes.specs.Digests.{mixed, mixed_all, weighed, memory_digest};

use alw_num::Line;

/// What the factor of a digest's first word is.
pub const FIRST_FACTOR: u32 = 0x9e37_79b1;

/// A digest with one word more.
pub fn mixed(digest: u32, word: u32) -> u32
    ensures { result ≡ mixed digest word }
{
    let turned = digest.wrapping_add(word).wrapping_mul(0x85eb_ca6b);
    turned ^ turned >> 15
}

/// A digest with all words of a list more.
pub fn mixed_all(digest: u32, words: &[u32]) -> u32
    ensures { result ≡ mixed_all digest words.now }
{
    let mut digest = digest;
    for word in words {
        digest = mixed(digest, *word);
    }
    digest
}

/// A digest with the sum of words more, each with a factor of its own.
pub fn weighed(digest: u32, words: &[u32]) -> u32
    ensures { result ≡ weighed digest 2654435761 words.now }
{
    let mut digest = digest;
    let mut factor = FIRST_FACTOR;
    for word in words {
        digest = digest.wrapping_add(word.wrapping_mul(factor));
        factor = factor.wrapping_add(0x85eb_ca6a);
    }
    digest
}

/// The digest of lines.
pub fn of_lines(lines: &[Line]) -> u32
    ensures { result ≡ memory_digest lines.now }
{
    let mut digest = 1_u32;
    let mut factor = FIRST_FACTOR;
    for line in lines {
        let words = mixed(mixed(mixed(line.a, line.b), line.c), line.d);
        digest = digest.wrapping_add(words.wrapping_mul(factor));
        factor = factor.wrapping_add(0x85eb_ca6a);
    }
    mixed(digest, 0)
}
