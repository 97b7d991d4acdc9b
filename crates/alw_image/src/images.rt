ghost use Rattle.std.specs.Prelude.{◌≡◌, ◌<◌, ◌≤◌, ◌-◌, ◌*◌, ◌+◌, ◌/◌, ◌%◌, ◌^◌, ◌↔◌, ℕ, filter, length, IfOk, IfSome, IsSome};
ghost use Rattle.alw_image.specs.Nodes.{is_body_of, is_line_of, is_start_of};

use crate::checks::is_image;
use crate::parts::{Code, Parts, Sizes};
use crate::ranges::between;
use alw_num::{Line, LineNo, MOST_LINES, MOST_NODES, NoMemory, NodeNo};
use std::marker::Model;

/// An image: parts that are within their ranges and in order. Contracts see the parts.
#[derive(Drop)]
pub struct Image {
    parts: Parts,
}

impl Model for Image {
    ghost use Rattle.alw_image.specs.declared.parts.Parts.{Parts};
    ghost use Rattle.alw_image.specs.Images.{IsImage};

    ghost Value = { Parts };

    ghost view = { λ i. i.parts };

    ghost invariant = { λ i. IsImage i.parts };
}

impl Image {
    /// The image of these parts. None exactly where no image has them.
    pub fn from_parts(parts: Parts) -> Option<Image>
        ensures same { IfSome result (λ image. image ≡ parts) }
        ensures allowed { IsSome result ↔ IsImage parts }
    {
        if is_image(&parts) {
            Some(Image { parts })
        } else {
            None
        }
    }

    /// The same image, in memory of its own.
    pub fn copy(&self) -> Result<Image, NoMemory>
        ensures { IfOk result (λ copy. copy ≡ self.now) }
    {
        let parts = Parts {
            width: self.parts.width,
            height: self.parts.height,
            contexts: self.parts.contexts,
            per_node: self.parts.per_node,
            code: self.parts.code.copy()?,
            bodies: self.parts.bodies.copy()?,
            starts: self.parts.starts.copy()?,
            always: self.parts.always.copy()?,
        };
        Ok(Image { parts })
    }

    /// What the image says, part by part.
    pub fn parts(&self) -> &Parts
        ensures parts { result.now ≡ self.now }
        ensures allowed { IsImage self.now }
    {
        &self.parts
    }

    /// The image of parts that are known to be one's: nothing is looked at again.
    pub fn checked(parts: Parts) -> Image
        requires { IsImage parts }
        ensures { result ≡ parts }
    {
        Image { parts }
    }

    ghost use Rattle.alw_image.specs.Images.{IsImage, sizes_of, hops_between, node_count, line_count, context_count, body_of, started_at, is_always};

    /// The machine's sizes.
    pub fn sizes(&self) -> Sizes
        ensures { result ≡ sizes_of self.now }
    {
        Sizes {
            width: self.parts.width,
            height: self.parts.height,
            contexts: self.parts.contexts,
            per_node: self.parts.per_node,
        }
    }

    /// Columns of the mesh.
    pub fn width(&self) -> u8
        ensures { result ≡ self.now.width }
    {
        self.parts.width
    }

    /// Rows of the mesh.
    pub fn height(&self) -> u8
        ensures { result ≡ self.now.height }
    {
        self.parts.height
    }

    /// Contexts of each node.
    pub fn contexts(&self) -> u8
        ensures { result ≡ self.now.contexts }
    {
        self.parts.contexts
    }

    /// Lines of shared data that each node is the home of.
    pub fn per_node(&self) -> u16
        ensures { result ≡ self.now.per_node }
    {
        self.parts.per_node
    }

    /// The number of nodes.
    pub fn nodes(&self) -> u16
        ensures count { result ≡ node_count self.now }
        ensures some { 1 ≤ result }
        ensures few { result ≤ MOST_NODES }
        ensures allowed { IsImage self.now }
    {
        u16::from(self.parts.width) * u16::from(self.parts.height)
    }

    /// The columns and rows between two nodes.
    pub fn hops(&self, from: NodeNo, to: NodeNo) -> u64
        ensures hops { result ≡ hops_between self.now from.0 to.0 }
        ensures few { result < 2 ^ 16 + 2 ^ 8 }
    {
        let width = u16::from(self.parts.width);
        distance(from.0 % width, to.0 % width) + distance(from.0 / width, to.0 / width)
    }

    /// The number of lines of shared data.
    pub fn lines(&self) -> u32
        ensures count { result ≡ line_count self.now }
        ensures few { result ≤ MOST_LINES }
        ensures allowed { IsImage self.now }
    {
        u32::from(self.nodes()) * u32::from(self.parts.per_node)
    }

    /// The number of contexts of all nodes.
    pub fn all_contexts(&self) -> u32
        ensures count { result ≡ context_count self.now }
        ensures few { result ≤ 4 * MOST_NODES }
        ensures allowed { IsImage self.now }
    {
        u32::from(self.nodes()) * u32::from(self.parts.contexts)
    }

    /// The program.
    pub fn code(&self) -> &Code
        ensures code { result.now ≡ self.now.code }
        ensures allowed { IsImage self.now }
    {
        &self.parts.code
    }

    /// The bytes of a line at the start.
    pub fn body(&self, line: LineNo) -> Line
        requires { line.0 < line_count self.now }
        ensures { result ≡ body_of self.now line.0 }
    {
        let bodies = self.parts.bodies.members();
        match bodies.binary_search_by_key(&line.0, |listed| listed.0.0) {
            Ok(place) => bodies[place].1,
            Err(_) => Line::ZERO,
        }
    }

    /// The address at which a context starts. None exactly where the image has no start for it.
    pub fn start(&self, context: u32) -> Option<u32>
        requires { context < context_count self.now }
        ensures { result ≡ started_at self.now (context / self.now.contexts) (context % self.now.contexts) }
    {
        let contexts = self.parts.contexts;
        let starts = self.parts.starts.members();
        match starts.binary_search_by_key(&context, |start| context_of(start, contexts)) {
            Ok(place) => Some(starts[place].2),
            Err(_) => None,
        }
    }

    /// The line is Trap-Always.
    pub fn always(&self, line: LineNo) -> bool
        requires { line.0 < line_count self.now }
        ensures { result ≡ is_always self.now line.0 }
    {
        self.parts.always.members().binary_search(&line.0).is_ok()
    }

    /// The data lines of which a node is the home, in order.
    pub fn bodies_of(&self, node: NodeNo) -> &[(LineNo, Line)]
        requires { node.0 < node_count self.now }
        ensures { result.now ≡ filter (is_body_of self.now.per_node node.0) self.now.bodies }
    {
        let (first, past) = self.lines_of(node);
        between(self.parts.bodies.members(), first, past)
    }

    /// The starts of a node's contexts, in order.
    pub fn starts_of(&self, node: NodeNo) -> &[(NodeNo, u8, u32)]
        requires { node.0 < node_count self.now }
        ensures { result.now ≡ filter (is_start_of node.0) self.now.starts }
    {
        let number = u32::from(node.0);
        between(self.parts.starts.members(), number, number + 1)
    }

    /// The Trap-Always lines of which a node is the home, in order.
    pub fn always_of(&self, node: NodeNo) -> &[u32]
        requires { node.0 < node_count self.now }
        ensures { result.now ≡ filter (is_line_of self.now.per_node node.0) self.now.always }
    {
        let (first, past) = self.lines_of(node);
        between(self.parts.always.members(), first, past)
    }

    // The number of a node's first home line, and the number past its last.
    fn lines_of(&self, node: NodeNo) -> (u32, u32)
        requires { node.0 < node_count self.now }
        ensures { result ≡ (node.0 * self.now.per_node, node.0 * self.now.per_node + self.now.per_node) }
    {
        let per_node = u32::from(self.parts.per_node);
        let first = u32::from(node.0) * per_node;
        (first, first + per_node)
    }
}

/// The number of the context that a start is of.
pub(crate) fn context_of(start: &(NodeNo, u8, u32), contexts: u8) -> u32
    ensures { result ≡ start.now.0.0 * contexts + start.now.1 }
{
    let (node, slot, _address) = *start;
    u32::from(node.0) * u32::from(contexts) + u32::from(slot)
}

fn distance(a: u16, b: u16) -> u64
    ensures hops { result ≡ (a - b) + (b - a) }
    ensures few { (most : ℕ) → a ≤ most → b ≤ most → result ≤ most }
{
    u64::from(if a < b { b - a } else { a - b })
}
