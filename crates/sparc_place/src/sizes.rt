ghost use Rattle.std.specs.Prelude.{◌≡◌, ◌≤◌, ◌*◌};
ghost use Rattle.sparc_place.specs.Sizes.{size_of};

use alw_num::{MOST_LINES, MOST_NODES};

/// The sizes that a source gives: None where it doesn't, which stands for 1.
#[derive(Clone, Copy)]
pub struct Sizes {
    /// Columns of the mesh, at most 16.
    pub width: Option<u8>,
    /// Rows of the mesh, at most 16.
    pub height: Option<u8>,
    /// Contexts of each node, at most 4.
    pub contexts: Option<u8>,
    /// Lines of shared data that each node is the home of, at most 4096.
    pub per_node: Option<u16>,
    pub ghost some_width: { 1 ≤ size_of width },
    pub ghost few_columns: { size_of width ≤ 16 },
    pub ghost some_height: { 1 ≤ size_of height },
    pub ghost few_rows: { size_of height ≤ 16 },
    pub ghost some_context: { 1 ≤ size_of contexts },
    pub ghost few_contexts: { size_of contexts ≤ 4 },
    pub ghost some_line: { 1 ≤ size_of per_node },
    pub ghost few_lines: { size_of per_node ≤ 4096 },
}

impl Sizes {
    /// No size is given.
    pub const NONE_GIVEN: Sizes = Sizes {
        width: None,
        height: None,
        contexts: None,
        per_node: None,
    };

    /// The number of nodes.
    pub fn nodes(&self) -> u32
        ensures count { result ≡ size_of self.now.width * size_of self.now.height }
        ensures range { result ≤ MOST_NODES }
    {
        u32::from(self.width.unwrap_or(1)) * u32::from(self.height.unwrap_or(1))
    }

    /// The number of lines of shared data.
    pub fn lines(&self) -> u32
        ensures count { result ≡ size_of self.now.width * size_of self.now.height * size_of self.now.per_node }
        ensures range { result ≤ MOST_LINES }
    {
        self.nodes() * u32::from(self.per_node.unwrap_or(1))
    }

    /// The number of contexts of each node.
    pub fn slots(&self) -> u32
        ensures count { result ≡ size_of self.now.contexts }
        ensures range { result ≤ 4 }
    {
        u32::from(self.contexts.unwrap_or(1))
    }
}
