ghost use Rattle.std.specs.Prelude.{◌<◌, ◌↔◌, ℕ, length, IsTrue};
ghost use Rattle.alw_model.specs.Threads.{LinksAgree};
ghost use Rattle.alw_cells.specs.Logs.{logged, Agrees};

use crate::logs::Logs;

/// The links agree: for each ordered pair of nodes, what the second's log took of the first is a front
/// of what the first's log sent it, stamps included.
pub fn links_agree(logs: &Logs) -> bool
    ensures { IsTrue result ↔ LinksAgree (logged logs.now) }
{
    for to in 0..logs.len() {
        if !log_agrees(logs, to) {
            return false;
        }
    }
    true
}

// What a node's log took of each node is a front of what that node's log sent it.
fn log_agrees(logs: &Logs, to: u32) -> bool
    requires { to < length logs.now }
    ensures { IsTrue result ↔ ((from : ℕ) → from < length logs.now → Agrees (logged logs.now) from to) }
{
    let log = logs.at_ref(to);
    for from in 0..logs.len() {
        if !log.took_front(from, logs.at_ref(from), to) {
            return false;
        }
    }
    true
}
