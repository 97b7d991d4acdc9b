ghost use Rattle.std.specs.Prelude.{◌≡◌, ◌<◌, ◌≤◌, ◌+◌, ◌*◌, ◌%◌, ◌^◌, ℕ};
ghost use Rattle.alw_image.specs.Images.{line_count};
ghost use Rattle.alw_audit.specs.Verdicts.{WordsAreFrom, VerdictIsOfWords, claimed_word, words_verdict};

use crate::verdicts::{Difference, Verdict};
use alw_flat::Flat;
use alw_num::{MOST_LINES, SHARED_BASE};

/// The first word of shared data, of so many lines, that differs.
pub fn words_verdict(flat: &Flat, lines: u32, memory: &[(u32, u32)]) -> Verdict
    requires lines { lines ≡ line_count flat.now.parts }
    requires few { lines ≤ MOST_LINES }
    requires words { WordsAreFrom SHARED_BASE memory.now }
    ensures verdict { result ≡ words_verdict memory.now flat.now.flat SHARED_BASE (4 * lines) }
    ensures words { VerdictIsOfWords result }
{
    let mut rest = memory;
    for number in 0..4 * lines {
        let addr = SHARED_BASE + 4 * number;
        let (claimed, behind) = word_at(rest, addr);
        rest = behind;
        let real = flat.word(addr);
        if claimed != real {
            return Verdict::Differs {
                place: Difference::Memory { addr },
                claimed: u64::from(claimed),
                real: u64::from(real),
            };
        }
    }
    Verdict::Sound
}

// The word that a list gives an address, and what is listed behind it: nothing is listed before the address.
fn word_at(words: &[(u32, u32)], addr: u32) -> (u32, &[(u32, u32)])
    requires aligned { addr % 4 ≡ 0 }
    requires words { WordsAreFrom addr words.now }
    ensures word { result.0 ≡ claimed_word words.now addr }
    ensures rest { WordsAreFrom (addr + 4) result.1.now }
    ensures same { (later : ℕ) → addr < later → claimed_word result.1.now later ≡ claimed_word words.now later }
{
    let Some((word, behind)) = words.split_first() else {
        return (0, words);
    };
    if word.0 == addr {
        (word.1, behind)
    } else {
        (0, words)
    }
}
