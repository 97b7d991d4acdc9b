ghost use Rattle.std.specs.Prelude.{◌≡◌, ◌≤◌, [], ◌∷◌, IfSome, length};
ghost use Rattle.alw_save.specs.States.{line_count};
ghost use Rattle.alw_save.specs.Differences.{Differs};

/// The first line, counted from 0, at which a text isn't the wanted one. None where it is the wanted one.
pub fn first_difference(wanted: &[u8], text: &[u8]) -> Option<u64>
    ensures differs { Differs wanted.now text.now result }
    ensures few { IfSome result (λ line. line ≤ length wanted.now) }
{
    let mut line = 0;
    let mut left = wanted;
    let mut rest = text;
    while let Some((byte, behind)) = left.split_first() {
        let Some((first, after)) = rest.split_first() else {
            return Some(line);
        };
        if first != byte {
            return Some(line);
        }
        line += feeds(*byte);
        left = behind;
        rest = after;
    }
    if rest.is_empty() { None } else { Some(line) }
}

// 1 for the end of a line, and else 0.
fn feeds(byte: u8) -> u64
    ensures count { result ≡ line_count (byte ∷ []) }
    ensures few { result ≤ 1 }
{
    u64::from(byte == b'\n')
}
