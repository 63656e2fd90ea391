//! The base instructions.
ghost use Rattle.std.specs.Prelude.{◌≡◌};
ghost use Rattle.rv_word.specs.Word as spec;

/// An instruction that is one word: one of RV64I and M.
#[derive(Clone, Copy)]
pub enum BaseOp {
    /// `lui`.
    Lui,
    /// `jal`.
    Jal,
    /// `jalr`.
    Jalr,
    /// `beq`.
    Beq,
    /// `bne`.
    Bne,
    /// `blt`.
    Blt,
    /// `bge`.
    Bge,
    /// `bltu`.
    Bltu,
    /// `bgeu`.
    Bgeu,
    /// `lb`.
    Lb,
    /// `lh`.
    Lh,
    /// `lw`.
    Lw,
    /// `lbu`.
    Lbu,
    /// `lhu`.
    Lhu,
    /// `sb`.
    Sb,
    /// `sh`.
    Sh,
    /// `sw`.
    Sw,
    /// `addi`.
    Addi,
    /// `slti`.
    Slti,
    /// `sltiu`.
    Sltiu,
    /// `xori`.
    Xori,
    /// `ori`.
    Ori,
    /// `andi`.
    Andi,
    /// `add`.
    Add,
    /// `sub`.
    Sub,
    /// `sll`.
    Sll,
    /// `slt`.
    Slt,
    /// `sltu`.
    Sltu,
    /// `xor`.
    Xor,
    /// `srl`.
    Srl,
    /// `sra`.
    Sra,
    /// `or`.
    Or,
    /// `and`.
    And,
    /// `lwu`.
    Lwu,
    /// `ld`.
    Ld,
    /// `sd`.
    Sd,
    /// `slli`.
    Slli,
    /// `srli`.
    Srli,
    /// `srai`.
    Srai,
    /// `addiw`.
    Addiw,
    /// `slliw`.
    Slliw,
    /// `srliw`.
    Srliw,
    /// `sraiw`.
    Sraiw,
    /// `addw`.
    Addw,
    /// `subw`.
    Subw,
    /// `sllw`.
    Sllw,
    /// `srlw`.
    Srlw,
    /// `sraw`.
    Sraw,
    /// `mul`.
    Mul,
    /// `mulh`.
    Mulh,
    /// `mulhsu`.
    Mulhsu,
    /// `mulhu`.
    Mulhu,
    /// `div`.
    Div,
    /// `divu`.
    Divu,
    /// `rem`.
    Rem,
    /// `remu`.
    Remu,
    /// `mulw`.
    Mulw,
    /// `divw`.
    Divw,
    /// `divuw`.
    Divuw,
    /// `remw`.
    Remw,
    /// `remuw`.
    Remuw,
}

/// Every base instruction, once.
pub(crate) const OPS: [BaseOp; 61] = [
    BaseOp::Lui,
    BaseOp::Jal,
    BaseOp::Jalr,
    BaseOp::Beq,
    BaseOp::Bne,
    BaseOp::Blt,
    BaseOp::Bge,
    BaseOp::Bltu,
    BaseOp::Bgeu,
    BaseOp::Lb,
    BaseOp::Lh,
    BaseOp::Lw,
    BaseOp::Lbu,
    BaseOp::Lhu,
    BaseOp::Sb,
    BaseOp::Sh,
    BaseOp::Sw,
    BaseOp::Addi,
    BaseOp::Slti,
    BaseOp::Sltiu,
    BaseOp::Xori,
    BaseOp::Ori,
    BaseOp::Andi,
    BaseOp::Add,
    BaseOp::Sub,
    BaseOp::Sll,
    BaseOp::Slt,
    BaseOp::Sltu,
    BaseOp::Xor,
    BaseOp::Srl,
    BaseOp::Sra,
    BaseOp::Or,
    BaseOp::And,
    BaseOp::Lwu,
    BaseOp::Ld,
    BaseOp::Sd,
    BaseOp::Slli,
    BaseOp::Srli,
    BaseOp::Srai,
    BaseOp::Addiw,
    BaseOp::Slliw,
    BaseOp::Srliw,
    BaseOp::Sraiw,
    BaseOp::Addw,
    BaseOp::Subw,
    BaseOp::Sllw,
    BaseOp::Srlw,
    BaseOp::Sraw,
    BaseOp::Mul,
    BaseOp::Mulh,
    BaseOp::Mulhsu,
    BaseOp::Mulhu,
    BaseOp::Div,
    BaseOp::Divu,
    BaseOp::Rem,
    BaseOp::Remu,
    BaseOp::Mulw,
    BaseOp::Divw,
    BaseOp::Divuw,
    BaseOp::Remw,
    BaseOp::Remuw,
];

/// How the parts of an instruction stand in its word.
#[derive(Clone, Copy)]
pub enum Format {
    /// R: three registers.
    Register,
    /// I: two registers and a number of 12 bits.
    Immediate,
    /// I with a count of 6 bits, and six bits of `funct7` above it.
    Count6,
    /// I with a count of 5 bits, and `funct7` above it.
    Count5,
    /// S: two registers that are read, and a number of 12 bits.
    Store,
    /// B: two registers that are read, and an even number of 13 bits.
    Branch,
    /// U: a register and a number of 20 bits.
    Upper,
    /// J: a register and an even number of 21 bits.
    Jump,
}

/// An instruction's format, and the numbers that tell it from others. Those that the format doesn't
/// have are 0.
#[derive(Clone, Copy)]
pub struct Codes {
    /// The format.
    pub format: Format,
    /// Its opcode, of 7 bits.
    pub opcode: u8,
    /// Its `funct3`, of 3 bits.
    pub funct3: u8,
    /// Its `funct7`, of 7 bits.
    pub funct7: u8,
}

/// A base instruction with its registers and its number. What its format doesn't have is 0.
#[derive(Clone, Copy)]
pub struct Base {
    /// The instruction.
    pub op: BaseOp,
    /// The register that is written.
    pub rd: u8,
    /// The first register that is read.
    pub rs1: u8,
    /// The second register that is read.
    pub rs2: u8,
    /// The number: of a branch or a jump, how many bytes further it leads.
    pub imm: i64,
}

impl Format {
    /// Whether an instruction of the format writes a register.
    pub(crate) fn has_rd(self) -> bool
        ensures { result ≡ spec.has_rd self }
    {
        !matches!(self, Format::Store | Format::Branch)
    }

    /// Whether it reads a first register.
    pub(crate) fn has_rs1(self) -> bool
        ensures { result ≡ spec.has_rs1 self }
    {
        !matches!(self, Format::Upper | Format::Jump)
    }

    /// Whether it reads a second register.
    pub(crate) fn has_rs2(self) -> bool
        ensures { result ≡ spec.has_rs2 self }
    {
        matches!(self, Format::Register | Format::Store | Format::Branch)
    }
}
