ghost use Rattle.std.specs.Prelude.{◌≡◌, [], ◌∷◌, ◌++◌, filter, not, slice_set, OnOk};
ghost use Rattle.std.specs.List.{list_any};
ghost use Rattle.alw_waits.specs.Waits.{is_line, requests_at};

use alw_num::{LineNo, NoMemory};
use std::alloc::Global;
use std::marker::Model;

/// Lines of a node's requests that the handler has got. Contracts see the list.
#[derive(Drop)]
pub struct Requests {
    lines: Vec<LineNo>,
}

impl Model for Requests {
    ghost use Rattle.std.specs.Prelude.{List};
    ghost use Rattle.alw_num.specs.declared.addresses.LineNo.{LineNo};

    ghost Value = { List LineNo };

    ghost view = { λ r. r.lines.items };
}

impl Requests {
    /// No request, which takes no memory.
    pub fn none(alloc: Global) -> Requests
        ensures { result ≡ [] }
    {
        Requests {
            lines: Vec::new(alloc),
        }
    }

    // One of them is of a line.
    fn has(&self, line: LineNo) -> bool
        ensures { result ≡ list_any (is_line line) self.now }
    {
        for other in &self.lines {
            if *other == line {
                return true;
            }
        }
        false
    }

    // One more.
    fn add(&mut self, line: LineNo) -> Result<(), NoMemory>
        ensures { OnOk result (self.new ≡ self.old ++ line ∷ []) }
    {
        self.lines.push(line)?;
        Ok(())
    }

    // Without those of a line.
    fn end(&mut self, line: LineNo)
        ensures { self.new ≡ filter (λ other. not (is_line line other)) self.old }
    {
        self.lines.retain(|other| *other != line);
    }
}

/// One of a node's requests is of a line.
pub fn has_at(requests: &[Requests], place: usize, line: LineNo) -> bool
    ensures { result ≡ list_any (is_line line) (requests_at requests.now place) }
{
    match requests.get(place) {
        Some(requests) => requests.has(line),
        None => false,
    }
}

/// A request more of a node.
pub fn add_at(requests: &mut Vec<Requests>, place: usize, line: LineNo) -> Result<(), NoMemory>
    ensures { OnOk result (requests.new.items ≡ slice_set requests.old.items place (requests_at requests.old.items place ++ line ∷ [])) }
{
    if place < requests.len() {
        requests[place].add(line)?;
    }
    Ok(())
}

/// A node's requests without those of a line.
pub fn end_at(requests: &mut Vec<Requests>, place: usize, line: LineNo)
    ensures { requests.new.items ≡ slice_set requests.old.items place (filter (λ other. not (is_line line other)) (requests_at requests.old.items place)) }
{
    if place < requests.len() {
        requests[place].end(line);
    }
}
