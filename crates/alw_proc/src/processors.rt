ghost use Rattle.std.specs.Prelude.{◌≡◌, ◌<◌, ◌≤◌, ◌*◌, IfOk, is_some, length, false, not};
ghost use Rattle.std.specs.Option.{option_map};
ghost use Rattle.alw_num.specs.Maps.{value_at, passes};
ghost use Rattle.alw_num.specs.Weights.{digit, weigh};
ghost use Rattle.alw_msg.specs.Kinds.{to_memory};
ghost use Rattle.alw_image.specs.Images.{node_count};
ghost use Rattle.alw_model.specs.Contexts.{running, slot_at, is_held, all_halted};
ghost use Rattle.alw_msg.specs.Contents.{content};
ghost use Rattle.alw_model.specs.declared.steps.Did.TheVariants.{Took};
ghost use Rattle.alw_model.specs.Sides.{lines_of};
ghost use Rattle.alw_model.specs.ProcessorSteps.{IsProcessorStep, instr, takes, evict_from};
ghost use Rattle.alw_model.specs.NodeStates.{node_start, processor_of};
ghost use Rattle.alw_ctx.specs.Residents.{number_of};
ghost use Rattle.alw_proc.specs.Openings.{opener_of};
ghost use Rattle.alw_proc.specs.Processors.{may_take, mode_of, cached_of, IsProcessor, SendsAreBegun};

use crate::changes::{ask, end, replaces_held, take_turn};
use crate::homeward::{Homes, evict, fill, invalidate};
use crate::openings::Openings;
use crate::shared::Shared;
use alw_cache::Cache;
use alw_ctx::Contexts;
use alw_image::{Image, Params};
use alw_model::Did;
use alw_msg::{Kind, Msg, Sends, Status};
use alw_num::{Divisor, Line, LineNo, Mode, NoMemory, NodeNo};
use sparc_exec::{Outcome, Program};
use sparc_table::Regs;
use std::alloc::Global;
use std::marker::Model;

/// The processor side of a node (ASPLOS 1991, section 2): its contexts, its cache and its open
/// transactions.
#[derive(Drop)]
pub struct Proc {
    number: NodeNo,
    width: u8,
    height: u8,
    per_node: Divisor,
    contexts: Contexts,
    shared: Shared,
    openings: Openings,
}

impl Model for Proc {
    ghost use Rattle.alw_model.specs.Sides.{Processor};
    ghost use Rattle.alw_proc.specs.Processors.{processor_from, IsSide};

    ghost Value = { Processor };

    ghost view = { λ p. processor_from p.number.0 p.width p.height p.per_node p.contexts p.shared.cache p.openings };

    ghost invariant = { λ p. IsSide (processor_from p.number.0 p.width p.height p.per_node p.contexts p.shared.cache p.openings) p.shared.lines };
}

impl Proc {
    /// The processor side of a node at the start: no copy, no transaction, the image's contexts.
    pub fn start(
        alloc: Global,
        image: &Image,
        params: &Params,
        node: NodeNo,
    ) -> Result<Proc, NoMemory>
        requires { node.0 < node_count image.now }
        ensures { IfOk result (λ p. p ≡ processor_of image.now params.now node.0 (node_start image.now node.0)) }
    {
        let lines = image.lines();
        let cache = Cache::room(alloc, params.sets())?;
        Ok(Proc {
            number: node,
            width: image.width(),
            height: image.height(),
            per_node: Divisor::of(u32::from(image.per_node())),
            contexts: Contexts::start(image, node),
            shared: Shared { cache, lines },
            openings: Openings::none(),
        })
    }

    /// An instruction of the slot that runs, over the cache. A turn changes registers, status and
    /// cache; a miss waits, and asks the line's home unless the line was asked for before. `code` has
    /// the words from address 0 on. Where no context is Ready, nothing happens.
    pub fn instr(&mut self, code: &Program, sent: &mut Sends) -> Did
        requires begun { SendsAreBegun self.old.number sent.old }
        ensures { IsProcessorStep self.old self.new sent.old sent.new result (instr code.now sent.old.stamp self.old (running self.old.slots self.old.current)) }
    {
        let Some(slot) = self.contexts.current() else {
            return Did::Took;
        };
        match take_turn(&mut self.contexts, &mut self.shared, slot, code) {
            Outcome::Miss { line, mode } => {
                ask(&mut self.openings, slot, line, mode, self.per_node, sent);
                Did::Missed { slot }
            }
            outcome => Did::Turn { slot, outcome },
        }
    }

    /// A message to a cache: RDATA and WDATA bring a line, BUSY sends the waiters back to try again,
    /// and INV takes the line away.
    pub fn cache_msg(&mut self, msg: &Msg, sent: &mut Sends)
        requires begun { SendsAreBegun self.old.number sent.old }
        requires to_cache { to_memory msg.now.kind ≡ false }
        requires line { msg.now.line.0 < lines_of self.old }
        ensures { IsProcessorStep self.old self.new sent.old sent.new Took (takes sent.old.stamp self.old msg.now.line.0 (content msg.now)) }
    {
        let (line, homes) = (msg.line, self.homes());
        match msg.kind {
            Kind::RDATA => {
                fill(
                    &mut self.shared.cache,
                    line,
                    Mode::Read,
                    msg.body,
                    homes,
                    sent,
                );
                end(&mut self.contexts, &mut self.openings, line, true);
            }
            Kind::WDATA => {
                fill(
                    &mut self.shared.cache,
                    line,
                    Mode::Write,
                    msg.body,
                    homes,
                    sent,
                );
                end(&mut self.contexts, &mut self.openings, line, true);
            }
            Kind::BUSY => end(&mut self.contexts, &mut self.openings, line, false),
            Kind::INV => invalidate(&mut self.shared.cache, line, self.per_node, sent),
            _ => {}
        }
    }

    /// An eviction empties a set of the cache. A Read-Write copy goes home.
    pub fn evict(&mut self, set: u32, sent: &mut Sends) -> Did
        requires begun { SendsAreBegun self.old.number sent.old }
        requires set { set < self.old.sets }
        ensures { IsProcessorStep self.old self.new sent.old sent.new result (evict_from sent.old.stamp self.old set) }
    {
        let homes = self.homes();
        evict(&mut self.shared.cache, set, homes, sent);
        Did::Evicted
    }

    /// The node's number.
    pub fn number(&self) -> NodeNo
        ensures number { result.0 ≡ self.now.number }
        ensures stands { IsProcessor self.now }
    {
        self.number
    }

    /// A context is Ready.
    pub fn is_ready(&self) -> bool
        ensures { result ≡ is_some (running self.now.slots self.now.current) }
    {
        self.contexts.current().is_some()
    }

    /// A message to a cache isn't kept on its link: no INV for a held line, and no RDATA or WDATA
    /// whose set holds another line that is held.
    pub fn may_take(&self, msg: &Msg) -> bool
        requires { to_memory msg.now.kind ≡ false }
        ensures { result ≡ may_take self.now msg.now.line.0 (content msg.now) }
    {
        if self.contexts.holds() == 0 {
            return true;
        }
        match msg.kind {
            Kind::INV => !self.contexts.is_held(msg.line),
            Kind::RDATA | Kind::WDATA => !replaces_held(
                &self.contexts,
                &self.shared.cache,
                msg.line,
            ),
            _ => true,
        }
    }

    /// A set holds a line that isn't held.
    pub fn may_evict(&self, set: u32) -> bool
        requires { set < self.now.sets }
        ensures { result ≡ passes (λ copy. not (is_held self.now.slots copy.line)) (value_at self.now.cache set) }
    {
        match self.shared.cache.held(set) {
            Some(line) => !self.contexts.is_held(line),
            None => false,
        }
    }

    /// The number of sets of the cache.
    pub fn sets(&self) -> u32
        ensures { result ≡ self.now.sets }
    {
        self.shared.cache.sets()
    }

    /// The number of slots.
    pub fn count(&self) -> u8
        ensures count { result ≡ length self.now.slots }
        ensures most { result ≤ 4 }
    {
        self.contexts.count()
    }

    /// The slot that runs. None exactly where no slot is Ready.
    pub fn current(&self) -> Option<u8>
        ensures { result ≡ running self.now.slots self.now.current }
    {
        self.contexts.current()
    }

    /// The current slot: the one that ran last.
    pub fn last(&self) -> u8
        ensures slot { result ≡ self.now.current }
        ensures within { result < length self.now.slots }
    {
        self.contexts.last()
    }

    /// What the context of a slot does.
    pub fn status(&self, slot: u8) -> Status
        requires { slot < length self.now.slots }
        ensures { result ≡ (slot_at self.now.slots slot).status }
    {
        self.contexts.status(slot)
    }

    /// The registers of a slot.
    pub fn regs(&self, slot: u8) -> Regs
        requires { slot < length self.now.slots }
        ensures { result ≡ (slot_at self.now.slots slot).regs }
    {
        self.contexts.regs(slot)
    }

    /// The line that a slot has a hold on. None exactly where it has none.
    pub fn held(&self, slot: u8) -> Option<LineNo>
        requires { slot < length self.now.slots }
        ensures { option_map number_of result ≡ (slot_at self.now.slots slot).hold }
    {
        self.contexts.held(slot)
    }

    /// All contexts have halted.
    pub fn have_halted(&self) -> bool
        ensures { result ≡ all_halted self.now.slots }
    {
        self.contexts.have_halted()
    }

    /// The number of slots with a hold.
    pub fn holds(&self) -> u32
        ensures { result ≡ weigh (λ slot. digit (is_some slot.hold)) self.now.slots }
    {
        self.contexts.holds()
    }

    /// The mode of the transaction on a line. None exactly where there is none.
    pub fn pending(&self, line: LineNo) -> Option<Mode>
        ensures { result ≡ option_map mode_of (value_at self.now.transactions line.0) }
    {
        match self.openings.of(line) {
            Some((_, mode)) => Some(mode),
            None => None,
        }
    }

    /// The slot that opened the transaction on a line. None exactly where there is none.
    pub fn opener(&self, line: LineNo) -> Option<u8>
        ensures { result ≡ option_map opener_of (value_at self.now.transactions line.0) }
    {
        match self.openings.of(line) {
            Some((slot, _)) => Some(slot),
            None => None,
        }
    }

    /// The line, mode and bytes of the copy that a set holds. None exactly where it holds none.
    pub fn cached(&self, set: u32) -> Option<(LineNo, Mode, Line)>
        requires { set < self.now.sets }
        ensures { result ≡ option_map cached_of (value_at self.now.cache set) }
    {
        match self.shared.cache.standing(set) {
            Some(copy) => Some((copy.line, copy.mode, copy.body)),
            None => None,
        }
    }

    /// The number of lines of shared data.
    pub fn lines(&self) -> u32
        ensures { result ≡ lines_of self.now }
    {
        self.shared.lines
    }

    // The number of lines of shared data, and of those of each node.
    fn homes(&self) -> Homes
        ensures lines { result.lines ≡ lines_of self.now }
        ensures per_node { result.per_node ≡ self.now.per_node }
        ensures some { 1 ≤ result.per_node }
        ensures nodes { result.lines ≤ 65536 * result.per_node }
    {
        Homes {
            lines: self.lines(),
            per_node: self.per_node,
        }
    }
}
