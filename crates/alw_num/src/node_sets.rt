ghost use Rattle.std.specs.Prelude.{◌≡◌, ℕ, ◌<◌, ◌≤◌, ◌+◌, ◌*◌, ◌↔◌, cond, [], ◌∷◌, slice_get, slice_index, Some, count_ones, IsTrue, IsNone, IfNone, IfSome};
ghost use Rattle.alw_num.specs.NodeSets.{no_nodes, has_node, add_node, drop_node, join_nodes, count_nodes, members, nodes_of};
ghost use Rattle.alw_num.specs.Ranks.{RankIsOfPart, RankIsFound};

use crate::addresses::NodeNo;

/// The number of nodes that a set can hold: node numbers are below it.
pub const MOST_NODES: u16 = 256;

// The number of bits in a word of a set.
const WORD_BITS: u16 = 64;

/// A set of nodes, in 256 bits: node n is bit n % 64 of word n / 64.
#[derive(Clone, Copy, Debug, PartialEq, Eq)]
pub struct NodeSet {
    pub words: [u64; 4],
}

#[tactic(auto, using(crate::proofs::Words::words))]
impl NodeSet {
    /// The set without a member.
    pub fn empty() -> NodeSet
        ensures { nodes_of result ≡ no_nodes }
    {
        NodeSet { words: [0; 4] }
    }

    /// Whether a node is a member.
    pub fn has(&self, n: NodeNo) -> bool
        requires { n.0 < MOST_NODES }
        ensures { result ≡ has_node (nodes_of self.now) n.0 }
    {
        self.words[usize::from(n.0 / WORD_BITS)] >> (n.0 % WORD_BITS) & 1 == 1
    }

    /// A node becomes a member. One word is written.
    #[inline(always)]
    pub fn add(&mut self, n: NodeNo)
        requires { n.0 < MOST_NODES }
        ensures { nodes_of self.new ≡ add_node (nodes_of self.old) n.0 }
    {
        self.words[usize::from(n.0 / WORD_BITS)] |= 1 << (n.0 % WORD_BITS);
    }

    /// A node is no member any more. At most one word is written.
    #[inline(always)]
    pub fn remove(&mut self, n: NodeNo)
        ensures { nodes_of self.new ≡ drop_node (nodes_of self.old) n.0 }
    {
        if n.0 < MOST_NODES {
            self.words[usize::from(n.0 / WORD_BITS)] &= !(1 << (n.0 % WORD_BITS));
        }
    }

    /// A node becomes a member, or is none any more. One word is written.
    #[inline(always)]
    pub fn put(&mut self, n: NodeNo, is_member: bool)
        requires { n.0 < MOST_NODES }
        ensures { nodes_of self.new ≡ cond is_member (add_node (nodes_of self.old) n.0) (drop_node (nodes_of self.old) n.0) }
    {
        let at = usize::from(n.0 / WORD_BITS);
        let place = n.0 % WORD_BITS;
        let others = self.words[at] & !(1 << place);
        self.words[at] = others | u64::from(is_member) << place;
    }

    /// The set and a node.
    #[inline(always)]
    pub fn with(self, n: NodeNo) -> NodeSet
        requires { n.0 < MOST_NODES }
        ensures { nodes_of result ≡ add_node (nodes_of self) n.0 }
    {
        let mut set = self;
        set.add(n);
        set
    }

    /// The set without a node.
    #[inline(always)]
    pub fn without(self, n: NodeNo) -> NodeSet
        ensures { nodes_of result ≡ drop_node (nodes_of self) n.0 }
    {
        let mut set = self;
        set.remove(n);
        set
    }

    /// The nodes of both sets.
    pub fn union(self, o: NodeSet) -> NodeSet
        ensures { nodes_of result ≡ join_nodes (nodes_of self) (nodes_of o) }
    {
        let [a, b, c, d] = self.words;
        let [e, f, g, h] = o.words;
        NodeSet {
            words: [a | e, b | f, c | g, d | h],
        }
    }

    /// The number of members.
    pub fn count(&self) -> u32
        ensures { result ≡ count_nodes (nodes_of self.now) }
    {
        let [a, b, c, d] = self.words;
        a.count_ones() + b.count_ones() + c.count_ones() + d.count_ones()
    }

    /// The least member. With `without` it goes over a set in ascending order.
    #[inline(always)]
    pub fn lowest(&self) -> Option<NodeNo>
        ensures none { IsNone result ↔ (nodes_of self.now ≡ no_nodes) }
        ensures no_members { IfNone result (members (nodes_of self.now) ≡ []) }
        ensures lowest { IfSome result (λ n. members (nodes_of self.now) ≡ n.0 ∷ members (drop_node (nodes_of self.now) n.0)) }
        ensures within { IfSome result (λ n. n.0 < MOST_NODES) }
    {
        let first = self.first();
        let word = self.words[first];
        if word == 0 {
            return None;
        }
        Some(NodeNo(first as u16 * WORD_BITS + word.trailing_zeros() as u16))
    }

    pub fn is_empty(&self) -> bool
        ensures { IsTrue result ↔ (nodes_of self.now ≡ no_nodes) }
    {
        let [a, b, c, d] = self.words;
        a | b | c | d == 0
    }

    /// Member number k in ascending order, where 0 is the least. Counts of bits halve the set, so that
    /// it takes the same few steps for every k.
    pub fn nth(&self, k: u32) -> NodeNo
        requires { k < count_nodes (nodes_of self.now) }
        ensures member { slice_get (members (nodes_of self.now)) k ≡ Some result.0 }
        ensures within { result.0 < MOST_NODES }
    {
        let [a, b, c, d] = self.words;
        let first = a.count_ones();
        if k < first {
            return NodeNo(nth_one(a, k));
        }
        let second = first + b.count_ones();
        if k < second {
            return NodeNo(WORD_BITS + nth_one(b, k - first));
        }
        let third = second + c.count_ones();
        if k < third {
            return NodeNo(2 * WORD_BITS + nth_one(c, k - second));
        }
        NodeNo(3 * WORD_BITS + nth_one(d, k - third))
    }

    // The place of the first word that isn't 0, or of the last word. None of the tests becomes a branch:
    // the place is their sum.
    #[inline(always)]
    fn first(&self) -> usize
        ensures within { result < 4 }
        ensures before { (i : ℕ) → i < result → slice_index self.now.words i ≡ 0 }
        ensures last { slice_index self.now.words result ≡ 0 → result ≡ 3 }
    {
        let [a, b, c, _] = self.words;
        usize::from(a == 0) + usize::from(a | b == 0) + usize::from(a | b | c == 0)
    }
}

// The place of one number k of a word, lowest first.
fn nth_one(word: u64, k: u32) -> u16
    requires { k < count_ones word }
    ensures { RankIsFound word k result }
{
    let whole = Part {
        bits: word,
        left: k,
        at: 0,
    };
    let byte = whole.half(32).half(16).half(8);
    byte.half(4).half(2).half(1).at
}

// A part of a word, with the one that is looked for: the part's bits, how many of its ones stand below
// that one, and the place of the part's lowest bit in the word.
#[derive(Clone, Copy)]
struct Part {
    bits: u64,
    left: u32,
    at: u16,
}

impl Part {
    // The half of so many bits that has the one.
    #[inline(always)]
    fn half(self, width: u16) -> Part
        requires width { width < WORD_BITS }
        requires at { self.at + width ≤ WORD_BITS }
        ensures at { result.at ≤ self.at + width }
        ensures part { (word k : ℕ) → RankIsOfPart word k self.bits self.left self.at (width * 2) → RankIsOfPart word k result.bits result.left result.at width }
    {
        let low = self.bits & ((1 << width) - 1);
        let ones = low.count_ones();
        if self.left < ones {
            Part { bits: low, ..self }
        } else {
            Part {
                bits: self.bits >> width,
                left: self.left - ones,
                at: self.at + width,
            }
        }
    }
}
