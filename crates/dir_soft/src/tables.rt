ghost use Rattle.std.specs.Prelude.{◌≡◌, ◌<◌, ◌≤◌, ◌-◌, ◌^◌, ◌↔◌, None, IfOk, IfSome, option_map, length};
ghost use Rattle.alw_num.specs.NodeSets.{nodes_of, has_node, add_node, count_nodes};
ghost use Rattle.alw_num.specs.Maps.{empty_map, value_at, with_value, without_value};
ghost use Rattle.dir_soft.specs.Tables.{set_of_line, used_lines};

use crate::places::{END, PoolPlace, find, free_place, link, unlink};
use alw_num::{LineNo, MOST_NODES, NoMemory, NodeNo, NodeSet};
use std::alloc::Global;
use std::marker::Model;

/// The software directory of a node (ASPLOS 1991, section 4): a map from lines to nonempty sets of
/// nodes, with room for a fixed number of lines.
///
/// The sets stand in one pool of places, linked by index. A line's place is on the chain of its
/// bucket, the line modulo the number of buckets. The free places, which were given back, are on a
/// chain of their own, whose head stands behind the buckets'. Places that were never used are beyond
/// the pool's end: a line gets the first of them where no place is free.
#[derive(Drop)]
pub struct SoftDir {
    lines: u32,
    buckets: u32,
    used: u32,
    heads: Vec<u32>,
    places: Vec<PoolPlace>,
}

impl Model for SoftDir {
    ghost use Rattle.std.specs.Prelude.{◌≤◌, vec_capacity};
    ghost use Rattle.dir_soft.specs.Tables.{Table};
    ghost use Rattle.dir_soft.specs.Pools.{contents, map_of, IsTable};

    ghost Value = { Table };

    ghost view = { λ d. record { lines = d.lines; buckets = d.buckets; sets = map_of (contents d.places.items) } };

    ghost invariant = { λ d. IsTable d.lines d.buckets d.used d.heads.items d.places.items × (d.lines ≤ vec_capacity d.places) };
}

impl SoftDir {
    /// A table with room for so many lines, whose look-ups go by so many chains. It takes all the
    /// memory that the table ever needs.
    pub fn room(alloc: Global, lines: u32, buckets: u32) -> Result<SoftDir, NoMemory>
        requires lines { 1 ≤ lines }
        requires buckets { 1 ≤ buckets }
        ensures { IfOk result (λ d. d ≡ record { lines = lines; buckets = buckets; sets = empty_map }) }
    {
        let places = Vec::with_capacity(alloc, lines as usize)?;
        let heads = vec![in alloc; END; buckets as usize + 1]?;
        Ok(SoftDir {
            lines,
            buckets,
            used: 0,
            heads,
            places,
        })
    }

    /// A node joins the set of a line. A line without a set needs a free place.
    pub fn add(&mut self, line: LineNo, node: NodeNo)
        requires node { node.0 < MOST_NODES }
        requires room { value_at self.old.sets line.0 ≡ None → used_lines self.old < self.old.lines }
        ensures { self.new ≡ record self.old { sets = with_value self.old.sets line.0 (add_node (set_of_line self.old line.0) node.0) } }
    {
        let bucket = (line.0 % self.buckets) as usize;
        match find(&self.places, self.heads[bucket], line.0) {
            Some(spot) => {
                let place = self.places[spot.at as usize];
                self.places[spot.at as usize] = PoolPlace {
                    nodes: place.nodes.with(node),
                    ..place
                };
            }
            None => {
                let free = self.buckets as usize;
                let at = free_place(&mut self.heads, &mut self.places, free);
                let nodes = NodeSet::empty().with(node);
                link(&mut self.heads, &mut self.places, bucket, at, line.0, nodes);
                self.used += 1;
            }
        }
    }

    // The set of a line, which has a member. None exactly where the line has none.
    fn lookup(&self, line: LineNo) -> Option<NodeSet>
        ensures set { option_map nodes_of result ≡ value_at self.now.sets line.0 }
        ensures nonempty { IfSome result (λ nodes. 1 ≤ count_nodes (nodes_of nodes)) }
    {
        let bucket = (line.0 % self.buckets) as usize;
        match find(&self.places, self.heads[bucket], line.0) {
            Some(spot) => Some(self.places[spot.at as usize].nodes),
            None => None,
        }
    }

    /// The set of a line: empty where it has none.
    #[inline(always)]
    pub fn set(&self, line: LineNo) -> NodeSet
        ensures { nodes_of result ≡ set_of_line self.now line.0 }
    {
        if self.used == 0 {
            return NodeSet::empty();
        }
        match self.lookup(line) {
            Some(nodes) => nodes,
            None => NodeSet::empty(),
        }
    }

    /// Whether a node is in the set of a line.
    pub fn has(&self, line: LineNo, node: NodeNo) -> bool
        requires { node.0 < MOST_NODES }
        ensures { result ≡ has_node (set_of_line self.now line.0) node.0 }
    {
        self.set(line).has(node)
    }

    /// The number of nodes in the set of a line: 0 exactly where it has none, so that each set in the
    /// table has a member.
    pub fn size(&self, line: LineNo) -> u32
        ensures size { result ≡ count_nodes (set_of_line self.now line.0) }
        ensures none { (result ≡ 0) ↔ (value_at self.now.sets line.0 ≡ None) }
    {
        match self.lookup(line) {
            Some(nodes) => nodes.count(),
            None => 0,
        }
    }

    /// Takes the set of a line out of the table. A line without a set leaves all as it is.
    pub fn take(&mut self, line: LineNo) -> NodeSet
        ensures set { nodes_of result ≡ set_of_line self.old line.0 }
        ensures table { self.new ≡ record self.old { sets = without_value self.old.sets line.0 } }
    {
        let bucket = (line.0 % self.buckets) as usize;
        match find(&self.places, self.heads[bucket], line.0) {
            Some(spot) => {
                let nodes = self.places[spot.at as usize].nodes;
                let free = self.buckets as usize;
                unlink(&mut self.heads, &mut self.places, bucket, spot);
                let nobody = NodeSet::empty();
                link(&mut self.heads, &mut self.places, free, spot.at, 0, nobody);
                self.used -= 1;
                nodes
            }
            None => NodeSet::empty(),
        }
    }

    /// The number of lines that there is still room for.
    pub fn free(&self) -> u32
        ensures { result ≡ self.now.lines - used_lines self.now }
    {
        self.lines - self.used
    }
}
