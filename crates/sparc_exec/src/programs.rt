ghost use Rattle.std.specs.Prelude.{◌≡◌, ◌↔◌, IfOk};
ghost use Rattle.alw_num.specs.declared.addresses.LineNo.{LineNo};
ghost use Rattle.alw_num.specs.declared.states.Mode.{Mode};
ghost use Rattle.sparc_table.specs.Meaning.{OutcomeIsStill};
ghost use Rattle.sparc_table.specs.Turns.{need_of, turn_of};
ghost use Rattle.sparc_exec.specs.Runs.{Same, seen, IsRunWith, CopyIsMissing};

use crate::ports::Port;
use crate::turns::turn;
use alw_num::{NoMemory, Sequence};
use sparc_table::{Outcome, Regs};
use std::marker::Model;

/// A program: its words from address 0 on. Contracts see the words.
#[derive(Drop)]
pub struct Program {
    code: Sequence<u32>,
}

impl Model for Program {
    ghost use Rattle.std.specs.Prelude.{ℕ, List};

    ghost Value = { List ℕ };

    ghost view = { λ p. p.code };
}

impl Program {
    /// The program of these words, in memory of its own.
    pub fn of(code: &Sequence<u32>) -> Result<Program, NoMemory>
        ensures { IfOk result (λ program. program ≡ code.now) }
    {
        Ok(Program { code: code.copy()? })
    }

    /// The words.
    pub fn code(&self) -> &Sequence<u32>
        ensures { result.now ≡ self.now }
    {
        &self.code
    }

    /// Runs one turn, as `turn` of the words does.
    pub fn turn<P: Port>(&self, regs: &mut Regs, port: &mut P) -> Outcome
        ensures run { IsRunWith (need_of self.now regs.old (P.lines port.old)) (turn_of self.now regs.old (P.lines port.old)) (seen regs.old (P.copy port.old) (P.calls port.old)) (seen regs.new (P.copy port.new) (P.calls port.new)) result }
        ensures missed { (line : LineNo) → (mode : Mode) → (result ≡ Outcome.Miss line mode) ↔ CopyIsMissing (need_of self.now regs.old (P.lines port.old)) (P.copy port.old) line mode }
        ensures still { OutcomeIsStill result → (regs.new ≡ regs.old) × Same (P.copy port.old) (P.copy port.new) }
        ensures sizes { (P.lines port.new ≡ P.lines port.old) × (P.places port.new ≡ P.places port.old) }
    {
        turn(self.code.words(), regs, port)
    }
}
