ghost use Rattle.std.specs.Prelude.{◌≡◌, ◌==◌, nat_le, List, ◌++◌, length};
ghost use Rattle.alw_num.specs.declared.addresses.Line.{Line};
ghost use Rattle.alw_model.specs.Lines.{value_by};
ghost use Rattle.alw_laws.specs.Traffic.{carried_by};

use alw_num::Line;

/// The values that the carriers of a line carry: none, one, or several, which aren't told apart.
#[derive(Clone, Copy)]
pub enum Carried {
    Nothing,
    One(Line),
    Several,
}

impl Carried {
    /// The values of both.
    pub fn and(self, other: Carried) -> Carried
        ensures { (ones others : List Line) → self ≡ carried_by ones → other ≡ carried_by others → result ≡ carried_by (ones ++ others) }
    {
        match (self, other) {
            (Carried::Nothing, values) | (values, Carried::Nothing) => values,
            _ => Carried::Several,
        }
    }

    /// There is no carrier.
    pub fn is_nothing(self) -> bool
        ensures { (bodies : List Line) → self ≡ carried_by bodies → result ≡ (length bodies == 0) }
    {
        matches!(self, Carried::Nothing)
    }

    /// There is one carrier.
    pub fn is_one(self) -> bool
        ensures { (bodies : List Line) → self ≡ carried_by bodies → result ≡ (length bodies == 1) }
    {
        matches!(self, Carried::One(_))
    }

    /// There is one carrier at most.
    pub fn is_one_at_most(self) -> bool
        ensures { (bodies : List Line) → self ≡ carried_by bodies → result ≡ nat_le (length bodies) 1 }
    {
        !matches!(self, Carried::Several)
    }

    /// The one carrier's value, and another one where there is none or several.
    pub fn one_or(self, value: Line) -> Line
        ensures { (bodies : List Line) → self ≡ carried_by bodies → result ≡ value_by bodies value }
    {
        match self {
            Carried::One(body) => body,
            Carried::Nothing | Carried::Several => value,
        }
    }
}
