ghost use Rattle.std.specs.Prelude.{◌≡◌, ◌<◌, ◌≤◌, ◌+◌, ◌-◌, ◌^◌, ◌++◌, length, OnOk};
ghost use Rattle.alw_model.specs.Counts.{words_of};
ghost use Rattle.alw_report.specs.Words.{kept};

use alw_msg::Words;
use alw_num::{LINE_BYTES, Line, LineNo, MOST_LINES, NoMemory, SHARED_BASE, Width, lane};

/// The words of a line that aren't 0, each with its address.
#[inline(always)]
pub fn put_line(words: &mut Words, line: LineNo, body: &Line) -> Result<(), NoMemory>
    requires line { line.0 < MOST_LINES }
    requires room { length words.old < 2 ^ 32 - 4 }
    ensures words { OnOk result (words.new ≡ words.old ++ words_of line.0 body.now) }
    ensures few { OnOk result (length words.new ≤ length words.old + 4) }
{
    let address = SHARED_BASE + LINE_BYTES * line.0;
    put_word(words, address, lane(body, 0, Width::Word))?;
    put_word(words, address + 4, lane(body, 4, Width::Word))?;
    put_word(words, address + 8, lane(body, 8, Width::Word))?;
    put_word(words, address + 12, lane(body, 12, Width::Word))?;
    Ok(())
}

// A word, where it isn't 0.
fn put_word(words: &mut Words, address: u32, word: u32) -> Result<(), NoMemory>
    requires { length words.old < 2 ^ 32 - 1 }
    ensures words { OnOk result (words.new ≡ words.old ++ kept address word) }
    ensures few { OnOk result (length words.new ≤ length words.old + 1) }
{
    if word != 0 {
        words.push((address, word))?;
    }
    Ok(())
}
