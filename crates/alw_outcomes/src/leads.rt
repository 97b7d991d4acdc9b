ghost use Rattle.std.specs.Prelude.{◌≡◌, ◌<◌, true, false, IfOk, IfSome, IfNone, OnOk, IsTrue};
ghost use Rattle.alw_image.specs.Images.{line_count};
ghost use Rattle.sparc_table.specs.Turns.{need_of};
ghost use Rattle.alw_places.specs.Places.{to_go};
ghost use Rattle.alw_places.specs.Sharing.{is_allowed, is_private};
ghost use Rattle.alw_places.specs.Threads.{thread_turn, ThreadPrivate};
ghost use Rattle.alw_outcomes.specs.Pools.{thread_in, AreIn, ArePools, GoOn};
ghost use Rattle.alw_outcomes.specs.Leads.{IsLead, IsPrivateChain};

use crate::pools::{Numbers, Pools, Seat, step};
use alw_image::Image;
use alw_num::NoMemory;
use alw_places::{Broken, Class, class_at, has_trapped, is_shared, may_access, need};
use sparc_exec::Outcome;
use sparc_table::Regs;

/// What a context's turn leads to: nothing, where it isn't Ready; a turn that doesn't keep to the hint;
/// a trap; or, with `more` private turns behind it, a memory and a context. It may be taken first where
/// `first` is set.
#[derive(Clone, Copy, PartialEq, Eq)]
pub enum Lead {
    Idle,
    Breaks { turn: Broken },
    Traps { pc: u32, tt: u8 },
    Goes { to: Numbers, more: u32, first: bool },
}

/// What the turn of a context leads to, with up to `most` private turns behind it.
pub fn lead_of(
    image: &Image,
    classes: &[Class],
    pools: &mut Pools,
    at: Numbers,
    context: u32,
    most: u32,
) -> Result<Lead, NoMemory>
    requires at { AreIn pools.old at }
    requires pools { ArePools image.now pools.old }
    ensures grow { OnOk result (GoOn image.now pools.old pools.new) }
    ensures lead { IfOk result (λ lead. IsLead image.now classes.now context (thread_in pools.old at) pools.new lead) }
{
    let seat = pools.seats[at.seat as usize];
    if !seat.is_ready() {
        return Ok(Lead::Idle);
    }
    if let Some(turn) = break_of(image, classes, &seat.regs, context) {
        return Ok(Lead::Breaks { turn });
    }
    let (next, outcome) = step(image, pools, at)?;
    if let Outcome::Trap { tt } = outcome {
        let pc = seat.regs.pc;
        return Ok(Lead::Traps { pc, tt });
    }
    let after = pools.seats[next.seat as usize];
    let first = goes_ahead(image, classes, &seat, &after);
    let (to, more) = chain(image, classes, pools, next, context, most)?;
    Ok(Lead::Goes { to, more, first })
}

// Where a thread's private turns that go forward lead to, and how many they are, but for those past `most`.
fn chain(
    image: &Image,
    classes: &[Class],
    pools: &mut Pools,
    at: Numbers,
    context: u32,
    most: u32,
) -> Result<(Numbers, u32), NoMemory>
    requires at { AreIn pools.old at }
    requires pools { ArePools image.now pools.old }
    ensures grow { OnOk result (GoOn image.now pools.old pools.new) }
    ensures chain { IfOk result (λ end. IsPrivateChain image.now classes.now context (thread_in pools.old at) pools.new end.0 end.1) }
{
    let mut to = at;
    for more in 0..most {
        match private_step(image, classes, pools, to, context)? {
            Some(next) => to = next,
            None => return Ok((to, more)),
        }
    }
    Ok((to, most))
}

// What a thread's turn leads to, where it is private and goes forward.
fn private_step(
    image: &Image,
    classes: &[Class],
    pools: &mut Pools,
    at: Numbers,
    context: u32,
) -> Result<Option<Numbers>, NoMemory>
    requires at { AreIn pools.old at }
    requires pools { ArePools image.now pools.old }
    ensures grow { OnOk result (GoOn image.now pools.old pools.new) }
    ensures inside { IfOk result (λ next. IfSome next (λ next. AreIn pools.new next)) }
    ensures turn { IfOk result (λ next. IfSome next (λ next. thread_in pools.new next ≡ thread_turn image.now (thread_in pools.old at))) }
    ensures private { IfOk result (λ next. IfSome next (λ next. ThreadPrivate image.now classes.now context (thread_in pools.old at))) }
{
    let seat = pools.seats[at.seat as usize];
    if !seat.is_ready() || !keeps(image, classes, &seat.regs, context) {
        return Ok(None);
    }
    let (next, outcome) = step(image, pools, at)?;
    let after = pools.seats[next.seat as usize];
    if has_trapped(outcome) || !goes_ahead(image, classes, &seat, &after) {
        return Ok(None);
    }
    Ok(Some(next))
}

// The turn needs no shared line, and leaves its context less far to go.
fn goes_ahead(image: &Image, classes: &[Class], before: &Seat, after: &Seat) -> bool
    ensures alone { IsTrue result → is_private classes.now (need_of image.now.code before.now.regs (line_count image.now)) ≡ true }
    ensures less { IsTrue result → to_go (record { regs = after.now.regs; status = after.now.status }) < to_go (record { regs = before.now.regs; status = before.now.status }) }
{
    is_own(image, classes, &before.regs) && after.to_go() < before.to_go()
}

// The turn keeps to the hint.
fn keeps(image: &Image, classes: &[Class], regs: &Regs, context: u32) -> bool
    ensures { IsTrue result → is_allowed classes.now context (need_of image.now.code regs.now (line_count image.now)) ≡ true }
{
    match need(image, regs) {
        Some((line, mode)) => may_access(context, mode, class_at(classes, line)),
        None => true,
    }
}

/// The turn needs no shared line.
pub fn is_own(image: &Image, classes: &[Class], regs: &Regs) -> bool
    ensures { IsTrue result → is_private classes.now (need_of image.now.code regs.now (line_count image.now)) ≡ true }
{
    match need(image, regs) {
        Some((line, _mode)) => !is_shared(class_at(classes, line)),
        None => true,
    }
}

// How the turn doesn't keep to the hint, if it doesn't.
fn break_of(image: &Image, classes: &[Class], regs: &Regs, context: u32) -> Option<Broken>
    ensures kept { IfNone result (is_allowed classes.now context (need_of image.now.code regs.now (line_count image.now)) ≡ true) }
    ensures broken { IfSome result (λ _. is_allowed classes.now context (need_of image.now.code regs.now (line_count image.now)) ≡ false) }
{
    match need(image, regs) {
        Some((line, mode)) => {
            if may_access(context, mode, class_at(classes, line)) {
                None
            } else {
                Some(Broken {
                    context,
                    line,
                    mode,
                })
            }
        }
        None => None,
    }
}
