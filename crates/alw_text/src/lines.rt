ghost use Rattle.std.specs.Prelude.{◌≡◌, ◌<◌, ◌≤◌, ◌↔◌, length, position, IsNone, IfSome};
ghost use Rattle.alw_text.specs.Lines.{is_line_feed, line_end, next_line};

/// A line of a text: the places of its first byte, of its end, and of the next line.
#[derive(Clone, Copy, PartialEq, Eq)]
pub struct Span {
    pub start: usize,
    /// The place of the LF behind the line, or the end of the text.
    pub end: usize,
    /// The place behind that LF, or the end of the text.
    pub next: usize,
}

/// The line that begins at a place. None at the end of the text and past it.
pub fn line_at(text: &[u8], from: usize) -> Option<Span>
    ensures none { IsNone result ↔ (length text.now ≤ from) }
    ensures line { IfSome result (λ line. line ≡ record { start = from; end = line_end text.now from; next = next_line text.now from }) }
    ensures order { IfSome result (λ line. (from ≤ line.end) × (line.end ≤ line.next) × (from < line.next) × (line.next ≤ length text.now)) }
{
    if text.len() <= from {
        return None;
    }
    let (_before, rest) = text.split_at(from);
    match feed_at(rest) {
        Some(length) => Some(Span {
            start: from,
            end: from + length,
            next: from + length + 1,
        }),
        None => Some(Span {
            start: from,
            end: text.len(),
            next: text.len(),
        }),
    }
}

// How many bytes stand before the first LF.
fn feed_at(bytes: &[u8]) -> Option<usize>
    ensures found { result ≡ position is_line_feed bytes.now }
    ensures within { IfSome result (λ count. count < length bytes.now) }
{
    bytes.iter().position(|byte| *byte == b'\n')
}
