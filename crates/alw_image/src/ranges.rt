ghost use Rattle.std.specs.Prelude.{◌≡◌, ◌&&◌, filter, nat_le, nat_lt};
ghost use Rattle.std.specs.List.Sorted.{IsNonDecreasingBy};

use alw_num::{Line, LineNo, NodeNo};

/// A member of a table that is ordered by a number.
pub trait Numbered {
    ghost use Rattle.std.specs.Prelude.{ℕ};

    ghost number_of: { Self → ℕ };

    fn number(&self) -> u32
        ensures { result ≡ number_of self.now };
}

// A data line, by its line.
impl Numbered for (LineNo, Line) {
    ghost number_of = { λ body. body.0.0 };

    fn number(&self) -> u32 {
        self.0.0
    }
}

// A start, by its node.
impl Numbered for (NodeNo, u8, u32) {
    ghost number_of = { λ start. start.0.0 };

    fn number(&self) -> u32 {
        u32::from(self.0.0)
    }
}

// A Trap-Always line.
impl Numbered for u32 {
    ghost number_of = { λ line. line };

    fn number(&self) -> u32 {
        *self
    }
}

/// The members of an ordered table whose numbers lie from one up to another.
pub fn between<T: Numbered>(members: &[T], first: u32, past: u32) -> &[T]
    requires { IsNonDecreasingBy T.number_of members.now }
    ensures { result.now ≡ filter (λ member. nat_le first (T.number_of member) && nat_lt (T.number_of member) past) members.now }
{
    let (_before, rest) = members.split_at(members.partition_point(|member| member.number()
        < first));
    let (here, _behind) = rest.split_at(rest.partition_point(|member| member.number() < past));
    here
}
