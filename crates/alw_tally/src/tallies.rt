ghost use Rattle.std.specs.Prelude.{◌≡◌, ◌+◌, ◌<◌, ◌≤◌, ◌^◌, ◌++◌, [], length, option_to_list, OnOk};
ghost use Rattle.alw_image.specs.declared.parts.Parts.{Parts};
ghost use Rattle.alw_model.specs.Runs as runs;
ghost use Rattle.alw_tally.specs.Told.{contexts_of, words_printed, told_of, told_with};
ghost use Rattle.alw_tally.specs.Tallies.{EventIsWithin, told_logged};
ghost use Rattle.alw_tally.specs.Moments.{MomentIsTold};

use crate::counting::{count_event, count_logged};
use crate::moments::{Moment, note_trap, turn_of};
use alw_image::Image;
use alw_model::{Counts, TrapAt};
use alw_msg::{Msg, Prints, Sends, Turns};
use alw_num::{MOST_NODES, NoMemory, Roomy};
use sparc_table::Outcome;
use std::alloc::Global;
use std::marker::Model;

// The number of events that memory is asked for at a time.
const BLOCK: u32 = 1024;

/// What a run tells, kept as it goes: the contexts that took turns, the words that they printed, all
/// counts, and the first trapping turn.
///
/// Memory is asked for before an event, by `reserve`, for a block of them, so that the event itself
/// needs none.
#[derive(Drop)]
pub struct Tally {
    room: u32,
    turns: Roomy<u32>,
    prints: Roomy<(u32, u32)>,
    counts: Counts,
    trap: Option<TrapAt>,
}

impl Model for Tally {
    ghost use Rattle.alw_tally.specs.Tallies.{Tallied, EventIsWithin, HasRoomForEvents};

    ghost Value = { Tallied };

    ghost view = { λ t. record {
      told = record { turns = t.turns.list; prints = t.prints.list; counts = t.counts; trap = t.trap };
      room = t.room;
    } };

    ghost invariant = { λ t. EventIsWithin (record { turns = t.turns.list; prints = t.prints.list; counts = t.counts; trap = t.trap })
        × HasRoomForEvents t.counts.entries t.turns.room t.prints.room t.room };
}

impl Tally {
    /// The tally of a run that hasn't begun. It takes no memory.
    pub fn start(alloc: Global) -> Tally
        ensures { (parts : Parts) → result.told ≡ told_of parts [] }
    {
        Tally {
            room: 0,
            turns: Roomy::empty(alloc),
            prints: Roomy::empty(alloc),
            counts: Counts::default(),
            trap: None,
        }
    }

    /// The tally that tells this, without room. It takes no memory.
    pub fn of(turns: Turns, prints: Prints, counts: Counts, trap: Option<TrapAt>) -> Tally
        requires { EventIsWithin (record { turns = turns; prints = prints; counts = counts; trap = trap }) }
        ensures { result.told ≡ record { turns = turns; prints = prints; counts = counts; trap = trap } }
    {
        Tally {
            room: 0,
            turns: Roomy::of(turns),
            prints: Roomy::of(prints),
            counts,
            trap,
        }
    }

    /// Makes room for one event more.
    pub fn reserve(&mut self) -> Result<(), NoMemory>
        ensures told { self.new.told ≡ self.old.told }
        ensures ok { OnOk result (1 ≤ self.new.room) }
        ensures room { self.old.room ≤ self.new.room }
    {
        if self.room > 0 {
            return Ok(());
        }
        self.grow()
    }

    // Makes room for a block of events, where there is none.
    #[cold]
    #[inline(never)]
    fn grow(&mut self) -> Result<(), NoMemory>
        requires { self.old.room ≡ 0 }
        ensures told { self.new.told ≡ self.old.told }
        ensures ok { OnOk result (self.new.room ≡ BLOCK) }
    {
        if self.counts.entries > u64::from(u32::MAX - BLOCK) {
            return Err(NoMemory);
        }
        self.turns.reserve(BLOCK)?;
        self.prints.reserve(BLOCK)?;
        self.room = BLOCK;
        Ok(())
    }

    /// One event more of a run of this image, with what the event sent: whether it was a turn that ended a
    /// hold, and the PC of the slot that ran, before its turn, which is looked at only where that turn trapped.
    #[inline(always)]
    pub fn add(&mut self, image: &Image, moment: &Moment, used: bool, pc: u32, sends: &Sends)
        requires room { 1 ≤ self.old.room }
        requires few { length sends.now.messages ≤ MOST_NODES }
        ensures told { (of : runs.Moment) → MomentIsTold moment.now used pc sends.now.messages of → self.new.told ≡ told_with image.now self.old.told of }
        ensures room { self.old.room ≤ self.new.room + 1 }
    {
        self.room -= 1;
        note_trap(&mut self.trap, self.counts.entries as u32, moment, pc);
        count_event(&mut self.counts, image, moment, used, sends);
        add_turn(&mut self.turns, &mut self.prints, turn_of(image, moment));
    }

    /// One event more whose messages are read off a log: its turn, its print and its counts. Where it
    /// trapped, and whether it ended a hold, isn't told of it.
    #[inline(always)]
    pub fn add_logged(&mut self, image: &Image, moment: &Moment, sends: &[(u16, Msg)])
        requires room { 1 ≤ self.old.room }
        requires few { length sends.now ≤ MOST_NODES }
        ensures told { self.new.told ≡ told_logged image.now self.old.told moment.now sends.now }
        ensures room { self.old.room ≤ self.new.room + 1 }
    {
        self.room -= 1;
        count_logged(&mut self.counts, image, moment, sends);
        add_turn(&mut self.turns, &mut self.prints, turn_of(image, moment));
    }

    /// The contexts that took turns, in order.
    pub fn turns(&self) -> &[u32]
        ensures turns { result.now ≡ self.now.told.turns }
        ensures few { length result.now < 2 ^ 32 }
    {
        self.turns.members()
    }

    /// The words that were printed, in order, each with the context that printed it.
    pub fn prints(&self) -> &[(u32, u32)]
        ensures prints { result.now ≡ self.now.told.prints }
        ensures few { length result.now < 2 ^ 32 }
    {
        self.prints.members()
    }

    /// The counts.
    pub fn counts(&self) -> Counts
        ensures { result ≡ self.now.told.counts }
    {
        self.counts
    }

    /// The first trapping turn. None exactly where no turn trapped.
    pub fn trap(&self) -> Option<TrapAt>
        ensures { result ≡ self.now.told.trap }
    {
        self.trap
    }

    /// The turns and the prints, as lists of their own.
    pub fn into_parts(self) -> (Turns, Prints)
        ensures turns { result.0 ≡ self.told.turns }
        ensures prints { result.1 ≡ self.told.prints }
    {
        let Tally {
            room: _,
            turns,
            prints,
            counts: _,
            trap: _,
        } = self;
        (turns.into_list(), prints.into_list())
    }
}

// A turn more, if there is one, and the word that it printed, if it printed one.
#[inline(always)]
fn add_turn(turns: &mut Roomy<u32>, prints: &mut Roomy<(u32, u32)>, turn: Option<(u32, Outcome)>)
    requires turn { 1 ≤ turns.old.room }
    requires print { 1 ≤ prints.old.room }
    ensures turns { turns.new.list ≡ turns.old.list ++ contexts_of (option_to_list turn) }
    ensures prints { prints.new.list ≡ prints.old.list ++ words_printed (option_to_list turn) }
    ensures turns_room { turns.old.room ≤ turns.new.room + 1 }
    ensures prints_room { prints.old.room ≤ prints.new.room + 1 }
{
    if let Some((context, outcome)) = turn {
        turns.push(context);
        if let Outcome::Out { word } = outcome {
            prints.push((context, word));
        }
    }
}
