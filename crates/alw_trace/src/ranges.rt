ghost use Rattle.std.specs.Prelude.{◌≡◌, ◌≤◌, ◌<◌, ◌^◌, ◌+◌, ◌↔◌, false, true, nat_lt, length, map, None, Some, IfOk, IfErr, IfSome, IfNone, IsTrue};
ghost use Rattle.std.specs.List.{AllByRecursion};
ghost use Rattle.alw_image.specs.Faults.{first_unfit};
ghost use Rattle.alw_image.specs.Parameters.{may_point};
ghost use Rattle.alw_trace.specs.Readings.{are_parameters, fits_entry, fits_event, tested, IsOfMachine, EntryIsStamped};
ghost use Rattle.alw_trace.specs.Raw.{IsRangeFault, IsJournal, entry_of, event_of, params_of};

use crate::faults::TextErr;
use crate::raw::{RawEntry, RawEvent, RawParams};
use alw_image::{FEW_POINTERS, Params};
use alw_msg::{Entry, Event, Journal};
use alw_num::NodeNo;
use std::alloc::Global;

// The parameters of these numbers, of a machine of so many nodes. None exactly where one is out of range.
#[tactic(auto, using(crate::proofs::ParamRanges::fit, crate::proofs::ParamRanges::unfit, crate::proofs::ParamRanges::unpointed))]
pub fn params_of(raw: &RawParams, nodes: u32) -> Option<Params>
    requires some { 1 ≤ nodes }
    requires few { nodes ≤ 256 }
    ensures some { IfSome result (λ params. params ≡ params_of raw.now) }
    ensures fits { IfSome result (λ params. are_parameters nodes (params_of raw.now) ≡ true) }
    ensures points { IfSome result (λ params. may_point nodes params.pointers ≡ true) }
    ensures none { IfNone result (are_parameters nodes (params_of raw.now) ≡ false) }
{
    let pointers = u16::try_from(raw.pointers).ok()?;
    let sets = u32::try_from(raw.sets).ok()?;
    let limit = u32::try_from(raw.limit).ok()?;
    if !may_point(nodes, pointers) {
        return None;
    }
    Params::new(pointers, sets, limit, 0)
}

// An entry may have so many pointers in a machine of so many nodes.
fn may_point(nodes: u32, pointers: u16) -> bool
    ensures { result ≡ may_point nodes pointers }
{
    (1..=FEW_POINTERS).contains(&pointers) || u32::from(pointers) == nodes
}

// The journal of entries, of which the first line has this number, on a machine of so many nodes
// and sets.
pub fn journal_of(
    alloc: Global,
    entries: &[RawEntry],
    nodes: u32,
    sets: u32,
    first: u64,
) -> Result<Journal, TextErr>
    requires few { length entries.now < 2 ^ 32 }
    requires nodes { nodes ≤ 2 ^ 16 }
    requires first { first ≤ 2 ^ 61 }
    ensures ok { IfOk result (λ journal. IsJournal nodes sets first entries.now journal) }
    ensures err { IfErr result (IsRangeFault (λ line. first_unfit (tested (fits_entry nodes sets) first (map entry_of entries.now)) ≡ Some line)) }
{
    let mut journal = Journal::empty(alloc);
    for entry in entries {
        let Some(entry) = entry_of(entry, nodes, sets) else {
            return Err(TextErr::Range {
                line: first + u64::from(journal.len()),
            });
        };
        journal.push(entry)?;
    }
    Ok(journal)
}

// The entry of these numbers. None exactly where one is out of range.
fn entry_of(raw: &RawEntry, nodes: u32, sets: u32) -> Option<Entry>
    requires { nodes ≤ 2 ^ 16 }
    ensures some { IfSome result (λ entry. entry ≡ entry_of raw.now) }
    ensures fits { IfSome result (λ entry. fits_entry nodes sets (entry_of raw.now) ≡ true) }
    ensures stamped { IfSome result (λ entry. EntryIsStamped nodes sets entry) }
    ensures none { IfNone result (fits_entry nodes sets (entry_of raw.now) ≡ false) }
{
    if raw.stamp == 0 || raw.stamp > u64::from(u32::MAX) {
        return None;
    }
    let event = event_of(raw.event, nodes, sets)?;
    Some(Entry {
        stamp: raw.stamp as u32,
        event,
    })
}

// The event of these numbers. None exactly where one is out of range.
fn event_of(raw: RawEvent, nodes: u32, sets: u32) -> Option<Event>
    requires { nodes ≤ 2 ^ 16 }
    ensures some { IfSome result (λ event. event ≡ event_of raw) }
    ensures fits { IfSome result (λ event. fits_event nodes sets (event_of raw) ≡ true) }
    ensures machine { IfSome result (λ event. IsOfMachine nodes sets event) }
    ensures none { IfNone result (fits_event nodes sets (event_of raw) ≡ false) }
{
    match raw {
        RawEvent::Instr { node } => {
            let node = node_of(node, nodes)?;
            Some(Event::Instr { node })
        }
        RawEvent::Handle { node } => {
            let node = node_of(node, nodes)?;
            Some(Event::Handle { node })
        }
        RawEvent::Deliver { from, to } => {
            let from = node_of(from, nodes)?;
            let to = node_of(to, nodes)?;
            Some(Event::Deliver { from, to })
        }
        RawEvent::Evict { node, set } => {
            let node = node_of(node, nodes)?;
            let set = set_of(set, sets)?;
            Some(Event::Evict { node, set })
        }
    }
}

// The node of this number. None exactly where there is none.
fn node_of(number: u64, nodes: u32) -> Option<NodeNo>
    requires { nodes ≤ 2 ^ 16 }
    ensures some { IfSome result (λ node. node.0 ≡ number) }
    ensures fits { IfSome result (λ node. nat_lt number nodes ≡ true) }
    ensures range { IfSome result (λ node. node.0 < nodes) }
    ensures none { IfNone result (nat_lt number nodes ≡ false) }
{
    if number < u64::from(nodes) {
        Some(NodeNo(number as u16))
    } else {
        None
    }
}

// The set of this number. None exactly where there is none.
fn set_of(number: u64, sets: u32) -> Option<u32>
    ensures some { IfSome result (λ set. set ≡ number) }
    ensures fits { IfSome result (λ set. nat_lt number sets ≡ true) }
    ensures range { IfSome result (λ set. set < sets) }
    ensures none { IfNone result (nat_lt number sets ≡ false) }
{
    if number < u64::from(sets) {
        Some(number as u32)
    } else {
        None
    }
}
