ghost use Rattle.std.specs.Prelude.{◌≡◌, IsTrue};
ghost use Rattle.alw_num.specs.NodeSets.{nodes_of};
ghost use Rattle.alw_msg.specs.Kinds.{to_memory};
ghost use Rattle.alw_msg.specs.Contents.{content};
ghost use Rattle.dir_full.specs.Reactions.{reaction, keeping_of, with_sends, HasRoom};
ghost use Rattle.alw_home.specs.Entries.{home_of, with_home};

use alw_model::Keeping;
use alw_msg::{Msg, Sends};
use alw_num::NodeSet;
use dir_full::FullMap;
use dir_hw::HomeEntry;

/// The home table (ASPLOS 1991, the memory-side states and transitions) for an entry whose pointers P
/// are this set, wherever they are kept: state, counter and bytes change in the entry, the sends are
/// appended to `sent`, and the answer says what becomes of P.
pub fn react(entry: &mut HomeEntry, pointers: NodeSet, msg: &Msg, sent: &mut Sends) -> Keeping
    requires to_memory { IsTrue (to_memory msg.now.kind) }
    requires room { HasRoom (nodes_of pointers) msg.now.src.0 sent.old }
    ensures entry { entry.new ≡ with_home entry.old (reaction (home_of entry.old (nodes_of pointers)) msg.now.src.0 (content msg.now)).0 }
    ensures sends { sent.new ≡ with_sends sent.old msg.now.line.0 (reaction (home_of entry.old (nodes_of pointers)) msg.now.src.0 (content msg.now)).1 }
    ensures keeping { result ≡ keeping_of (home_of entry.old (nodes_of pointers)) msg.now.src.0 (content msg.now) }
{
    let mut home = FullMap::of(entry.state, pointers, entry.acks, entry.body);
    let keeping = home.act(msg, sent);
    entry.state = home.state();
    entry.acks = home.acks();
    entry.body = home.body();
    keeping
}
