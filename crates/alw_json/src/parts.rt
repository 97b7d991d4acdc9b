ghost use Rattle.std.specs.Prelude.{◌≡◌, IsUtf8};
ghost use Rattle.alw_num.specs.NodeSets.{nodes_of, members};
ghost use Rattle.alw_json.specs.Data.{natural, listed, params_data};

use crate::values::{ToJson, put};
use crate::writing::Tokens;
use alw_image::Params;
use alw_num::{NoMemory, NodeSet};
use alw_text::Text;

/// The bytes of UTF-8 as a `str`.
pub fn str_of(text: &Text) -> &str
    requires { IsUtf8 text.now }
    ensures { result.now ≡ text.now }
{
    match std::str::from_utf8(text.bytes()) {
        Ok(words) => words,
        Err(_) => unreachable!(),
    }
}

/// A set of nodes, as the list of its members, ascending.
#[derive(Clone, Copy)]
pub struct Nodes(pub NodeSet);

impl ToJson for Nodes {
    ghost value_of = { λ s. listed natural (members (nodes_of s.0)) };

    fn write(&self, out: &mut Tokens) -> Result<(), NoMemory> {
        let mut rest = self.0;
        out.begin_array()?;
        while let Some(node) = rest.lowest() {
            out.number(u64::from(node.0))?;
            rest = rest.without(node);
        }
        out.end_array()
    }
}

/// The parameters of a run, but for evictions.
#[derive(Clone, Copy)]
pub struct ParamsObject<'a>(pub &'a Params);

impl ToJson for ParamsObject<'_> {
    ghost value_of = { λ o. params_data o.0.now };

    fn write(&self, out: &mut Tokens) -> Result<(), NoMemory> {
        let params = self.0;
        out.begin_object()?;
        put(out, "limit", &params.limit())?;
        put(out, "pointers", &params.pointers())?;
        put(out, "sets", &params.sets())?;
        out.end_object()
    }
}
