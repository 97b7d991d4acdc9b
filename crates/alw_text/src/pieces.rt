ghost use Rattle.std.specs.Prelude.{◌≡◌, ◌++◌, OnOk};
ghost use Rattle.std.specs.List.{flat_map};
ghost use Rattle.std.specs.Fmt.{decimal};
ghost use Rattle.alw_num.specs.NodeSets.{nodes_of, members};
ghost use Rattle.alw_text.specs.Pieces.{next_node, nodes_text};

use crate::texts::{Spell, Text};
use alw_num::{NoMemory, NodeSet};

/// A word and a number.
pub fn put_number(text: &mut Text, word: &[u8], n: u64) -> Result<(), NoMemory>
    ensures { OnOk result (text.new ≡ text.old ++ (word.now ++ decimal n)) }
{
    text.put(word)?;
    text.put_decimal(n)?;
    Ok(())
}

/// Node numbers with commas, or `-` where there is none.
pub fn put_nodes(text: &mut Text, nodes: NodeSet) -> Result<(), NoMemory>
    ensures { OnOk result (text.new ≡ text.old ++ nodes_text (members (nodes_of nodes))) }
{
    match nodes.lowest() {
        Some(first) => {
            text.put_decimal(u64::from(first.0))?;
            put_more_nodes(text, nodes.without(first))
        }
        None => text.put(b"-"),
    }
}

// Nodes behind the first, each behind a comma.
fn put_more_nodes(text: &mut Text, nodes: NodeSet) -> Result<(), NoMemory>
    ensures { OnOk result (text.new ≡ text.old ++ flat_map next_node (members (nodes_of nodes))) }
{
    let mut rest = nodes;
    while let Some(node) = rest.lowest() {
        put_number(text, b",", u64::from(node.0))?;
        rest = rest.without(node);
    }
    Ok(())
}
