use alw_image::{Params, Sizes};
use alw_model::{Counts, Ended};
use alw_msg::{Prints, Stretches, Words};
use alw_num::{LineNo, Meta, NodeSet, Sequence, State};
use std::marker::Model;

/// What a report tells of a run: the sizes of the image, the parameters, how it ended, what it
/// counted, and its lists.
#[derive(Drop)]
pub struct Report {
    pub sizes: Sizes,
    pub params: Params,
    pub ended: Ended,
    pub counts: Counts,
    /// The turns in stretches, each of one context: the context and how many turns it has.
    pub runs: Stretches,
    /// The printed words, each with its context.
    pub prints: Prints,
    /// The words of shared data that aren't 0 at the end, each with its address.
    pub memory: Words,
    /// The entries of the directory that aren't as at the start, by line.
    pub directory: DirectoryLines,
}

/// An entry of the directory (ASPLOS 1991, section 4): line, state, meta state, the nodes that hardware
/// and those that software points to, and the answers that are still to come. Contracts see the sets as
/// ascending lists.
#[derive(Drop)]
pub struct DirectoryLine {
    pub line: LineNo,
    pub state: State,
    pub meta: Meta,
    pub hardware: NodeSet,
    pub software: NodeSet,
    pub acks: u32,
}

impl Model for DirectoryLine {
    ghost use Rattle.alw_num.specs.NodeSets.{members, nodes_of};
    ghost use Rattle.alw_model.specs.Counts.{DirectoryLine as ListedEntry};

    ghost Value = { ListedEntry };

    ghost view = { λ d. record {
      line = d.line.0;
      state = d.state;
      meta = d.meta;
      hardware = members (nodes_of d.hardware);
      software = members (nodes_of d.software);
      acks = d.acks;
    } };
}

/// Entries of the directory, by line.
pub type DirectoryLines = Sequence<DirectoryLine>;
