ghost use Rattle.std.specs.Prelude.{◌≡◌, ◌<◌, ◌≤◌, ℕ, false, true};
ghost use Rattle.alw_num.specs.NodeSets.{no_nodes, has_node, add_node, count_nodes, nodes_of};

use alw_num::{MOST_NODES, NodeNo, NodeSet};
use std::marker::Model;

/// The nodes that hardware points at, counted. Contracts see the set.
#[derive(Drop)]
pub struct Pointers {
    nodes: NodeSet,
    count: u16,
}

impl Model for Pointers {
    ghost use Rattle.std.specs.Prelude.{◌≡◌};
    ghost use Rattle.alw_num.specs.NodeSets.{Nodes, count_nodes, nodes_of};

    ghost Value = { Nodes };

    ghost view = { λ p. nodes_of p.nodes };

    ghost invariant = { λ p. count_nodes (nodes_of p.nodes) ≡ p.count };
}

#[tactic(auto, using(crate::proofs::Counting::counting))]
impl Pointers {
    /// The set without a member.
    pub fn none() -> Pointers
        ensures { result ≡ no_nodes }
    {
        Pointers {
            nodes: NodeSet::empty(),
            count: 0,
        }
    }

    /// Whether a node is a member.
    pub fn has(&self, node: NodeNo) -> bool
        requires { node.0 < MOST_NODES }
        ensures { result ≡ has_node self.now node.0 }
    {
        self.nodes.has(node)
    }

    /// The number of members.
    pub fn len(&self) -> u16
        ensures { result ≡ count_nodes self.now }
    {
        self.count
    }

    /// A node joins the set.
    pub fn add(&mut self, node: NodeNo)
        requires node { node.0 < MOST_NODES }
        requires absent { has_node self.old node.0 ≡ false }
        ensures { self.new ≡ add_node self.old node.0 }
    {
        self.nodes.add(node);
        self.count += 1;
    }

    /// The set.
    #[inline(always)]
    pub fn set(&self) -> NodeSet
        ensures set { nodes_of result ≡ self.now }
        ensures within { (k : ℕ) → has_node self.now k ≡ true → k < MOST_NODES }
    {
        self.nodes
    }
}
