use alw_msg::Msg;
use crossbeam_queue::protocol::{Join, Lesson, Outcome, Protocol, Split};
use std::collections::LinkedList;

// What a pass has pushed, where it may push, and what it has popped, where it may pop. No value of it is
// made.
pub struct View {
    pub pushed: Option<LinkedList<Msg>>,
    pub popped: Option<LinkedList<Msg>>,
}

// The list popped, followed by what the queue holds, is the list pushed.
pub struct FirstInFirstOut;

impl Protocol<Msg, View> for FirstInFirstOut {
    ghost use Rattle.std.specs.Prelude.{Some, []};
    ghost use Rattle.alw_ruled.specs.Order.{view_of, InOrder};

    ghost holds = { InOrder };

    ghost first = { view_of (Some []) (Some []) };
}

// One pass may push, and the other may pop.
pub struct Halves;

impl Split<View> for Halves {
    ghost use Rattle.std.specs.Prelude.{None};
    ghost use Rattle.alw_ruled.specs.Order.{view_of};

    ghost left = { λ v. view_of v.pushed None };

    ghost right = { λ v. view_of None v.popped };
}

impl Join<View> for Halves {
    ghost use Rattle.std.specs.Prelude.{None};
    ghost use Rattle.alw_ruled.specs.Order.{view_of};

    ghost both = { λ v w. view_of v.pushed w.popped };

    ghost spent = { view_of None None };
}

// A push.
pub struct Added;

impl Outcome<Msg, View> for Added {
    ghost use Rattle.alw_ruled.specs.Order.{Adds};

    ghost then = { Adds };
}

impl Lesson<Msg, View> for Added {
    ghost use Rattle.std.specs.Prelude.{⊤};

    ghost fact = { λ v held. ⊤ };
}

// A pop, by a pass that may pop alone.
pub struct Taken;

impl Outcome<Msg, View> for Taken {
    ghost use Rattle.alw_ruled.specs.Order.{Takes};

    ghost then = { Takes };
}

impl Lesson<Msg, View> for Taken {
    ghost use Rattle.std.specs.Prelude.{⊤};

    ghost fact = { λ v held. ⊤ };
}

// What the pass that may push and pop knows of what the queue holds.
pub struct Whole;

impl Lesson<Msg, View> for Whole {
    ghost use Rattle.alw_ruled.specs.Order.{Left};

    ghost fact = { Left };
}
