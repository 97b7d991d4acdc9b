ghost use Rattle.std.specs.Prelude.{◌≡◌, IfOk};
ghost use Rattle.alw_model.specs.Threads.{merged};
ghost use Rattle.alw_cells.specs.Logs.{logged};

use crate::streams::Stream;
use alw_cells::Logs;
use alw_msg::Journal;
use alw_num::NoMemory;
use std::alloc::Global;

/// The merge of all logs, to be read entry by entry: by stamp and then by node number (Lamport 1978). It
/// takes memory for a reader and a head of each log alone. More logs than 65,536, the number of node
/// numbers, are refused as too much memory is.
pub fn stream(alloc: Global, logs: &Logs) -> Result<Stream<'_>, NoMemory>
    ensures { IfOk result (λ stream. stream ≡ logged logs.now) }
{
    Stream::from(alloc, logs, 0)
}

/// The entries of all logs, by stamp and then by node number (Lamport 1978). A journal has fewer than
/// 2^32 - 1 entries: more than a journal can have are refused as too much memory is.
pub fn merge(alloc: Global, logs: &Logs) -> Result<Journal, NoMemory>
    ensures { IfOk result (λ journal. journal ≡ merged (logged logs.now)) }
{
    let mut entries = stream(alloc, logs)?;
    let mut journal = Journal::empty(alloc);
    while let Some(entry) = entries.next() {
        if journal.len() == u32::MAX {
            return Err(NoMemory);
        }
        journal.push(entry)?;
    }
    Ok(journal)
}
