ghost use Rattle.std.specs.Prelude.{◌≡◌, ◌≢◌, ◌++◌, ℕ, List, IfSome, IfNone};
ghost use Rattle.alw_report.specs.Reports.{params_line};
ghost use Rattle.alw_trace.specs.Texts.{entry_line, event_text};
ghost use Rattle.alw_trace.specs.Lines.{HasNumbers, HasThree, IsEntry, IsNumber, Lacks};
ghost use Rattle.alw_trace.specs.Raw.{entry_of, event_of, params_of};
ghost use Rattle.alw_trace.specs.Fields.{event_line, pair_line};

use crate::raw::{RawEntry, RawEvent, RawParams};
use crate::readers::{number_before, number_behind};

// The parameters in the first line, and what follows it. None exactly where no such line stands there.
pub fn params_at(text: &[u8]) -> Option<(RawParams, &[u8])>
    ensures found { IfSome result (λ read. text.now ≡ params_line (params_of read.0) ++ read.1.now) }
    ensures range { IfSome result (λ read. HasThree (params_of read.0)) }
    ensures none { IfNone result (Lacks HasThree params_line text.now) }
{
    let (pointers, rest) = number_behind(text, b"params pointers ", b' ')?;
    let (sets, rest) = number_behind(rest, b"sets ", b' ')?;
    let (limit, rest) = number_behind(rest, b"limit ", b'\n')?;
    let params = RawParams {
        pointers,
        sets,
        limit,
    };
    Some((params, rest))
}

// The entry in the first line, and what follows it. None exactly where no such line stands there.
pub fn entry_at(text: &[u8]) -> Option<(RawEntry, &[u8])>
    ensures found { IfSome result (λ read. text.now ≡ entry_line (entry_of read.0) ++ read.1.now) }
    ensures range { IfSome result (λ read. IsEntry (entry_of read.0)) }
    ensures none { IfNone result (Lacks IsEntry entry_line text.now) }
{
    let (stamp, rest) = number_before(text, b' ')?;
    let (event, rest) = event_at(rest)?;
    Some((RawEntry { stamp, event }, rest))
}

// The event up to the end of the first line, by its letter, and what follows it.
fn event_at(text: &[u8]) -> Option<(RawEvent, &[u8])>
    ensures found { IfSome result (λ read. text.now ≡ event_line (event_of read.0) ++ read.1.now) }
    ensures range { IfSome result (λ read. HasNumbers (event_of read.0)) }
    ensures none { IfNone result (Lacks HasNumbers event_line text.now) }
{
    if let Some((node, rest)) = number_behind(text, b"I ", b'\n') {
        return Some((RawEvent::Instr { node }, rest));
    }
    if let Some((node, rest)) = number_behind(text, b"H ", b'\n') {
        return Some((RawEvent::Handle { node }, rest));
    }
    if let Some((from, to, rest)) = pair_behind(text, b"D ") {
        return Some((RawEvent::Deliver { from, to }, rest));
    }
    if let Some((node, set, rest)) = pair_behind(text, b"E ") {
        return Some((RawEvent::Evict { node, set }, rest));
    }
    None
}

// The two numbers behind a fixed text, up to the end of the first line, and what follows it.
fn pair_behind<'a>(text: &'a [u8], front: &[u8]) -> Option<(u64, u64, &'a [u8])>
    ensures found { IfSome result (λ read. text.now ≡ front.now ++ (pair_line read.0 read.1 ++ read.2.now)) }
    ensures range { IfSome result (λ read. IsNumber read.0 × IsNumber read.1) }
    ensures none { IfNone result ((a b : ℕ) → (rest : List ℕ) → IsNumber a → IsNumber b → text.now ≢ front.now ++ (pair_line a b ++ rest)) }
{
    let (first, rest) = number_behind(text, front, b' ')?;
    let (second, rest) = number_before(rest, b'\n')?;
    Some((first, second, rest))
}
