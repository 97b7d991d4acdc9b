ghost use Rattle.std.specs.Prelude.{◌≡◌};
ghost use Rattle.alw_places.specs.Sharing.{may_access, is_shared, class_of};

use alw_num::{LineNo, Mode};

/// What a hint says of a line: several contexts may use it, one alone does, or nobody writes it.
#[derive(Clone, Copy, PartialEq, Eq)]
pub enum Class {
    Shared,
    Own { context: u32 },
    Fixed,
}

/// A context may access a line of this class in this mode.
pub fn may_access(context: u32, mode: Mode, class: Class) -> bool
    ensures { result ≡ may_access context mode class }
{
    match class {
        Class::Shared => true,
        Class::Own { context: owner } => context == owner,
        Class::Fixed => matches!(mode, Mode::Read),
    }
}

/// Several contexts may use the line.
pub fn is_shared(class: Class) -> bool
    ensures { result ≡ is_shared class }
{
    matches!(class, Class::Shared)
}

/// The class of a line.
pub fn class_at(classes: &[Class], line: LineNo) -> Class
    ensures { result ≡ class_of classes.now line.0 }
{
    match classes.get(line.0 as usize) {
        Some(class) => *class,
        None => Class::Shared,
    }
}

/// A turn that doesn't keep to the hint: its context, line and mode.
#[derive(Clone, Copy, PartialEq, Eq)]
pub struct Broken {
    pub context: u32,
    pub line: LineNo,
    pub mode: Mode,
}
