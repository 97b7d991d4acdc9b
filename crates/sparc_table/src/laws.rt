ghost use Rattle.std.specs.Prelude.{◌≡◌, ◌≢◌, ◌↔◌, ◌<◌, ℕ, List, Some, IsFalse};
ghost use Rattle.alw_num.specs.declared.addresses.Line.{Line};
ghost use Rattle.alw_num.specs.declared.addresses.LineNo.{LineNo};
ghost use Rattle.alw_num.specs.declared.states.Mode.{Mode};
ghost use Rattle.sparc_table.specs.Table.{IsSpelled, instr_of};
ghost use Rattle.sparc_table.specs.Turns.{need_of, turn_of};
ghost use Rattle.alw_num.specs.declared.states.Mode.TheVariants.{Read};
ghost use Rattle.sparc_table.specs.declared.outcomes.Need.TheVariants.{Copy};
ghost use Rattle.sparc_table.specs.Meaning.{effect, writes, OutcomeIsStill};
ghost use Rattle.sparc_table.specs.declared.instructions.Instr.{Instr};
ghost use Rattle.sparc_table.specs.declared.registers.Regs.{Regs};
ghost use Rattle.sparc_table.specs.declared.outcomes.Outcome.TheVariants.{Miss};

/// The table read both ways: a word spells exactly the instruction that the table finds for it, so no
/// word fits two rows.
pub fn one_table()
    ensures { (word : ℕ) → (instr : Instr) → IsSpelled instr word ↔ (instr_of word ≡ Some instr) }
{}

/// What holds of the effect of every instruction: Halt and Trap leave the registers and the line, no
/// effect is a Miss, and only stores, LDSTUB and SWAP change the line.
pub fn orderly_effects()
    ensures still { (instr : Instr) → (regs : Regs) → (line : Line) → OutcomeIsStill (effect instr regs line).2 → ((effect instr regs line).0 ≡ regs) × ((effect instr regs line).1 ≡ line) }
    ensures found { (instr : Instr) → (regs : Regs) → (line : Line) → (l : LineNo) → (mode : Mode) → (effect instr regs line).2 ≢ Miss l mode }
    ensures line { (instr : Instr) → (regs : Regs) → (line : Line) → IsFalse (writes instr) → (effect instr regs line).1 ≡ line }
{}

/// What holds of every turn: the line that it needs exists, where it only needs to read it leaves the
/// line, Halt and Trap leave the registers and the line, and its own outcome is no Miss.
pub fn orderly_turns()
    ensures exists { (code : List ℕ) → (regs : Regs) → (lines : ℕ) → (line : LineNo) → (mode : Mode) → need_of code regs lines ≡ Copy line mode → line.0 < lines }
    ensures reads { (code : List ℕ) → (regs : Regs) → (lines : ℕ) → (line : LineNo) → (value : Line) → need_of code regs lines ≡ Copy line Read → (turn_of code regs lines value).1 ≡ value }
    ensures still { (code : List ℕ) → (regs : Regs) → (lines : ℕ) → (line : Line) → OutcomeIsStill (turn_of code regs lines line).2 → ((turn_of code regs lines line).0 ≡ regs) × ((turn_of code regs lines line).1 ≡ line) }
    ensures found { (code : List ℕ) → (regs : Regs) → (lines : ℕ) → (line : Line) → (l : LineNo) → (mode : Mode) → (turn_of code regs lines line).2 ≢ Miss l mode }
{}
