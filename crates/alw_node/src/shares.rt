ghost use Rattle.std.specs.Prelude.{◌≡◌, ◌<◌, ◌≤◌, length, IfOk};
ghost use Rattle.std.specs.Arc.{arc_value};
ghost use Rattle.alw_image.specs.Images.{node_count};
ghost use Rattle.alw_node.specs.Shares.{share_of};

use alw_image::{Bodies, Code, Image, LineList, Starts};
use alw_num::{NoMemory, NodeNo, Sequence};
use sparc_exec::Program;
use std::alloc::Global;
use std::marker::Model;
use std::sync::Arc;

/// What a node keeps of an image: its sizes and its code, where the node's contexts start, and the
/// first bytes and the Trap-Always marks of the node's home lines. The nodes of a machine share one
/// program. Contracts see the share as an image's parts.
#[derive(Drop)]
pub struct Share {
    width: u8,
    height: u8,
    contexts: u8,
    per_node: u16,
    bodies: Bodies,
    starts: Starts,
    always: LineList,
    program: Arc<Program, Global>,
}

impl Model for Share {
    ghost use Rattle.std.specs.Arc.{arc_value};
    ghost use Rattle.alw_image.specs.declared.parts.Parts.{Parts};

    ghost Value = { Parts };

    ghost view = { λ s. record { width = s.width; height = s.height; contexts = s.contexts; per_node = s.per_node; code = arc_value s.program; bodies = s.bodies; starts = s.starts; always = s.always } };
}

impl Share {
    /// The share of a node. It keeps no code of its own, but that of `program`, which is the image's.
    #[tactic(auto, using(crate::proofs::KeptMembers::few_kept))]
    pub fn of(
        alloc: Global,
        image: &Image,
        node: NodeNo,
        program: &Arc<Program, Global>,
    ) -> Result<Share, NoMemory>
        requires node { node.0 < node_count image.now }
        requires program { arc_value program.now ≡ image.now.code }
        ensures { IfOk result (λ share. share ≡ share_of image.now node.0) }
    {
        let parts = image.parts();
        Ok(Share {
            width: parts.width,
            height: parts.height,
            contexts: parts.contexts,
            per_node: parts.per_node,
            program: program.clone()?,
            bodies: own(alloc, &parts.bodies, image.bodies_of(node))?,
            starts: own(alloc, &parts.starts, image.starts_of(node))?,
            always: own(alloc, &parts.always, image.always_of(node))?,
        })
    }

    /// Columns of the mesh.
    pub fn width(&self) -> u8
        ensures { result ≡ self.now.width }
    {
        self.width
    }

    /// Rows of the mesh.
    pub fn height(&self) -> u8
        ensures { result ≡ self.now.height }
    {
        self.height
    }

    /// Contexts of each node.
    pub fn contexts(&self) -> u8
        ensures { result ≡ self.now.contexts }
    {
        self.contexts
    }

    /// Lines of shared data that each node is the home of.
    pub fn per_node(&self) -> u16
        ensures { result ≡ self.now.per_node }
    {
        self.per_node
    }

    /// The program.
    pub fn code(&self) -> &Code
        ensures { result.now ≡ self.now.code }
    {
        self.program.code()
    }

    // The same, decoded.
    pub(crate) fn program(&self) -> &Program
        ensures { result.now ≡ self.now.code }
    {
        &self.program
    }

    /// The data lines of which the node is the home, in order.
    pub fn bodies(&self) -> &Bodies
        ensures { result.now ≡ self.now.bodies }
    {
        &self.bodies
    }

    /// Where the node's contexts start, in order.
    pub fn starts(&self) -> &Starts
        ensures { result.now ≡ self.now.starts }
    {
        &self.starts
    }

    /// The Trap-Always lines of which the node is the home, in order.
    pub fn always(&self) -> &LineList
        ensures { result.now ≡ self.now.always }
    {
        &self.always
    }
}

// Members of a table, in memory of their own.
fn own<T: Copy>(alloc: Global, table: &Sequence<T>, members: &[T]) -> Result<Sequence<T>, NoMemory>
    requires { length members.now ≤ length table.now }
    ensures { IfOk result (λ kept. kept ≡ members.now) }
{
    let _most = table.len(); // for its clause
    Sequence::from_slice(alloc, members)
}
