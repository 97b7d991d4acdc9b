ghost use Rattle.std.specs.Prelude.{map, string_bytes, IfOk, MatchResult};
ghost use Rattle.alw_config.specs.Places.{IsRefusedAt, AskFor};
ghost use Rattle.alw_config.specs.Choices.{AskedIsWithin};

use crate::commands::{Asked, WordErr};
use crate::lookups::row_of;
use crate::options::chosen;
use crate::rows::COMMANDS;

/// What the words ask for: they are a command's name, then its options, each at most once, in any order
/// and followed by its value as a word of its own. Options that aren't given have their defaults.
/// Refused exactly where a place is bad, at the first one, or where none is and the others don't allow
/// a value, at that value. Takes no memory.
pub fn asked(words: &[String]) -> Result<Asked, WordErr>
    ensures cases { MatchResult result (AskFor (map string_bytes words.now))
        (λ e. IsRefusedAt (map string_bytes words.now) e.at) }
    ensures within { IfOk result AskedIsWithin }
{
    let Some((first, rest)) = words.split_first() else {
        return Err(WordErr { at: 0 });
    };
    let Some(name) = row_of(&COMMANDS, first.as_str().as_bytes()) else {
        return Err(WordErr { at: 0 });
    };
    let choices = chosen(name, rest)?;
    let taken = name.taken(&choices);
    match taken.misfit(&choices) {
        Some(at) => Err(WordErr { at }),
        None => Ok(taken.asked(&choices)),
    }
}
