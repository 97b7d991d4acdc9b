ghost use Rattle.std.specs.Prelude.{◌<◌};

use alw_num::{NoMemory, NodeNo, NodeSet};
use std::alloc::Global;
use std::sync::atomic::{AtomicBool, AtomicU32, AtomicU64, Ordering};

// The number of nodes in a word of marks, and the most words for each node.
const WORD_NODES: u16 = 64;

const NODE_WORDS: u16 = 4;

// No node comes further ahead of another that has something to do, but for what one visit does.
const MOST_LEAD: u32 = 256;

// A node that has nothing to do holds no other back.
const FREE: u32 = u32::MAX;

/// What workers tell each other beside the messages: for each node, from which nodes its links may have
/// something, and up to which clock others may go on before it is visited again; and that all are to stop.
/// One worker alone takes all nodes in turn, and holds none back. No clause speaks of it.
#[derive(Drop)]
pub struct Signs {
    marks: Vec<AtomicU64>,
    words: u16,
    bounds: Vec<AtomicU32>,
    least: AtomicU32,
    stop: AtomicBool,
}

impl Signs {
    /// No mark for any of so many nodes, each at its start, for so many workers, and nobody is to stop.
    pub fn none(alloc: Global, nodes: u16, workers: u32) -> Result<Signs, NoMemory> {
        let words = nodes / WORD_NODES + u16::from(nodes % WORD_NODES != 0);
        let mut marks = Vec::new(alloc);
        for _ in 0..u32::from(nodes) * u32::from(words) {
            marks.push(AtomicU64::new(0))?;
        }
        let mut bounds = Vec::new(alloc);
        if workers > 1 {
            for _ in 0..nodes {
                bounds.push(AtomicU32::new(MOST_LEAD))?;
            }
        }
        Ok(Signs {
            marks,
            words,
            bounds,
            least: AtomicU32::new(if workers > 1 { 0 } else { FREE }),
            stop: AtomicBool::new(false),
        })
    }

    /// There may be something for a node on its link from another.
    pub fn mark(&self, node: NodeNo, from: NodeNo) {
        let word = self.first(node) as usize + usize::from(from.0 / WORD_NODES);
        if let Some(marks) = self.marks.get(word) {
            marks.fetch_or(1 << (from.0 % WORD_NODES), Ordering::SeqCst);
        }
    }

    /// The nodes whose links to a node are marked, and marks them no longer.
    #[inline(always)]
    pub fn take(&self, node: NodeNo) -> NodeSet {
        let first = self.first(node) as usize;
        let mut set = NodeSet::empty();
        for word in 0..self.words.min(NODE_WORDS) {
            let marks = self.word(first + usize::from(word));
            if marks != 0 {
                add(&mut set, word, marks);
            }
        }
        set
    }

    /// A node was sent a message by one whose clock is this: it has something to do, and holds others back
    /// till it is visited. To be called behind the mark.
    #[inline(always)]
    pub fn wake(&self, node: NodeNo, clock: u32) {
        if let Some(bound) = self.bounds.get(usize::from(node.0)) {
            let most = clock.saturating_add(MOST_LEAD);
            if bound.load(Ordering::SeqCst) > most {
                bound.store(most, Ordering::SeqCst);
            }
        }
    }

    /// A visit leaves a node at this clock, with more to do.
    #[inline(always)]
    pub fn goes_on(&self, node: NodeNo, clock: u32) {
        if let Some(bound) = self.bounds.get(usize::from(node.0)) {
            bound.store(clock.saturating_add(MOST_LEAD), Ordering::SeqCst);
        }
    }

    /// A visit leaves a node with nothing to do. Where a message has come meanwhile it goes first.
    #[inline(always)]
    pub fn rests(&self, node: NodeNo) {
        if let Some(bound) = self.bounds.get(usize::from(node.0)) {
            if bound.load(Ordering::SeqCst) != FREE {
                bound.store(FREE, Ordering::SeqCst);
                if self.is_marked(node) {
                    bound.store(0, Ordering::SeqCst);
                }
            }
        }
    }

    /// A node at this clock has more to do, and is too far ahead of some other that has. One whose own bound
    /// is the least isn't, so that some node can always be visited.
    #[inline(always)]
    pub fn is_held(&self, node: NodeNo, clock: u32) -> bool {
        clock > self.least.load(Ordering::SeqCst) && self.is_above_least(node, clock)
    }

    /// A node that is being visited, and is at this clock, is too far ahead of some node.
    #[inline(always)]
    pub fn is_ahead(&self, clock: u32) -> bool {
        clock > self.least.load(Ordering::SeqCst) && clock > self.least_bound(clock)
    }

    #[inline(never)]
    fn is_above_least(&self, node: NodeNo, clock: u32) -> bool {
        let least = self.least_bound(clock);
        match self.bounds.get(usize::from(node.0)) {
            Some(bound) => {
                let own = bound.load(Ordering::SeqCst);
                clock > least && own > least && own != FREE
            }
            None => false,
        }
    }

    // The least bound of all nodes, which is kept for those that ask next, up to a little above this clock.
    #[inline(never)]
    fn least_bound(&self, clock: u32) -> u32 {
        let mut least = FREE;
        for bound in &self.bounds {
            least = least.min(bound.load(Ordering::SeqCst));
        }
        let kept = least.min(clock.saturating_add(MOST_LEAD));
        self.least.store(kept, Ordering::SeqCst);
        least
    }

    // A link to the node is marked.
    fn is_marked(&self, node: NodeNo) -> bool {
        let first = self.first(node) as usize;
        for word in 0..self.words.min(NODE_WORDS) {
            if let Some(marks) = self.marks.get(first + usize::from(word)) {
                if marks.load(Ordering::SeqCst) != 0 {
                    return true;
                }
            }
        }
        false
    }

    /// All workers are to stop.
    pub fn stop(&self) {
        self.stop.store(true, Ordering::SeqCst);
    }

    /// Whether all workers are to stop.
    #[inline(always)]
    pub fn has_stopped(&self) -> bool {
        self.stop.load(Ordering::SeqCst)
    }

    // The place of the first word of a node.
    #[inline(always)]
    fn first(&self, node: NodeNo) -> u32 {
        u32::from(node.0) * u32::from(self.words)
    }

    // A word of marks, which is then empty. It is written only where it isn't.
    #[inline(always)]
    fn word(&self, at: usize) -> u64 {
        match self.marks.get(at) {
            Some(marks) if marks.load(Ordering::SeqCst) != 0 => marks.swap(0, Ordering::SeqCst),
            _ => 0,
        }
    }
}

// The nodes of a word of marks go into a set.
fn add(set: &mut NodeSet, word: u16, marks: u64)
    requires { word < NODE_WORDS }
{
    set.words[usize::from(word)] |= marks;
}
