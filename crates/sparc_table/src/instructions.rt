/// The second operand of a format 3 instruction: a register where bit 13 of the word is 0, and
/// bits 12 to 0 of the word where it is 1 (SPARC V8 manual, chapter 5, instruction formats).
#[derive(Clone, Copy, PartialEq, Eq)]
pub enum Operand {
    Reg { rs2: u8 },
    Imm { bits: u16 },
}

/// An instruction by its row of the table. Each field holds the bits of its field in the word, as
/// an unsigned number (SPARC V8 manual, chapter 5 and appendix B).
#[derive(Clone, Copy, PartialEq, Eq)]
pub enum Instr {
    /// CALL: `disp` has 30 bits.
    Call {
        disp: u32,
    },
    /// SETHI: `imm` has 22 bits.
    Sethi {
        rd: u8,
        imm: u32,
    },
    /// Bicc: `cond` has 4 bits and `disp` 22.
    Branch {
        annul: bool,
        cond: u8,
        disp: u32,
    },
    /// Arithmetic and logic, with and without condition codes.
    Arith {
        op3: u8,
        rd: u8,
        rs1: u8,
        operand: Operand,
    },
    /// SLL, SRL and SRA.
    Shift {
        op3: u8,
        rd: u8,
        rs1: u8,
        operand: Operand,
    },
    /// RDY.
    ReadY {
        rd: u8,
    },
    /// WRY.
    WriteY {
        rs1: u8,
        operand: Operand,
    },
    /// JMPL.
    Jmpl {
        rd: u8,
        rs1: u8,
        operand: Operand,
    },
    /// Ticc.
    TrapOn {
        cond: u8,
        rs1: u8,
        operand: Operand,
    },
    /// Loads, stores, LDSTUB and SWAP.
    Memory {
        op3: u8,
        rd: u8,
        rs1: u8,
        operand: Operand,
    },
}
