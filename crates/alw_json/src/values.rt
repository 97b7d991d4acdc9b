ghost use Rattle.std.specs.Prelude.{◌≡◌, [], ◌∷◌, ◌++◌, IfOk, OnOk};
ghost use Rattle.json.specs.Token.{key};
ghost use Rattle.serde_json.specs.Data.{Data, string, array};
ghost use Rattle.serde_json.specs.View.{items_of};
ghost use Rattle.serde_json.specs.Written.{compact_text};
ghost use Rattle.alw_json.specs.Data.{natural, listed};
ghost use Rattle.alw_json.specs.Onto.{value_onto};

use crate::writing::Tokens;
use alw_num::NoMemory;
use alw_text::Text;
use std::alloc::Global;

/// What is written as a value of JSON.
pub trait ToJson {
    ghost value_of: { Self → Data };

    /// Appends the value's tokens.
    fn write(&self, out: &mut Tokens) -> Result<(), NoMemory>
        ensures { OnOk result (out.new ≡ value_onto (value_of self.now) out.old) };
}

/// The text of a value, without blanks.
#[tactic(auto, using(crate::proofs::Onto::print_onto))]
pub fn text_of<T: ToJson>(alloc: Global, value: &T) -> Result<Text, NoMemory>
    ensures { IfOk result (λ text. text ≡ compact_text (T.value_of value.now)) }
{
    let mut out = Tokens::none(alloc)?;
    value.write(&mut out)?;
    Ok(out.into_text())
}

/// Appends a member of an object: a key and its value.
pub fn put<T: ToJson>(out: &mut Tokens, name: &str, value: &T) -> Result<(), NoMemory>
    ensures { OnOk result (out.new ≡ value_onto (T.value_of value.now) (out.old ++ key name.now ∷ [])) }
{
    out.key(name)?;
    value.write(out)
}

impl ToJson for u8 {
    ghost value_of = { natural };

    fn write(&self, out: &mut Tokens) -> Result<(), NoMemory> {
        out.number(u64::from(*self))
    }
}

impl ToJson for u16 {
    ghost value_of = { natural };

    fn write(&self, out: &mut Tokens) -> Result<(), NoMemory> {
        out.number(u64::from(*self))
    }
}

impl ToJson for u32 {
    ghost value_of = { natural };

    fn write(&self, out: &mut Tokens) -> Result<(), NoMemory> {
        out.number(u64::from(*self))
    }
}

impl ToJson for u64 {
    ghost value_of = { natural };

    fn write(&self, out: &mut Tokens) -> Result<(), NoMemory> {
        out.number(*self)
    }
}

impl ToJson for &str {
    ghost value_of = { λ words. string words.now };

    fn write(&self, out: &mut Tokens) -> Result<(), NoMemory> {
        out.string(*self)
    }
}

/// A list of two values.
impl<A: ToJson, B: ToJson> ToJson for (A, B) {
    ghost value_of = { λ p. array (items_of (A.value_of p.0 ∷ B.value_of p.1 ∷ [])) };

    fn write(&self, out: &mut Tokens) -> Result<(), NoMemory> {
        out.begin_array()?;
        self.0.write(out)?;
        self.1.write(out)?;
        out.end_array()
    }
}

/// A list of values.
impl<T: ToJson> ToJson for &[T] {
    ghost value_of = { λ list. listed T.value_of list.now };

    fn write(&self, out: &mut Tokens) -> Result<(), NoMemory> {
        out.begin_array()?;
        for member in self.iter() {
            member.write(out)?;
        }
        out.end_array()
    }
}
