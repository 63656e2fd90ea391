//! The mnemonics.

/// The name of a line: of an instruction, or of a pseudo-instruction of the assembly manual.
#[derive(Clone, Copy)]
pub enum Mnemonic {
    /// `add`.
    Add,
    /// `sub`.
    Sub,
    /// `and`.
    And,
    /// `or`.
    Or,
    /// `xor`.
    Xor,
    /// `sll`.
    Sll,
    /// `srl`.
    Srl,
    /// `sra`.
    Sra,
    /// `slt`.
    Slt,
    /// `sltu`.
    Sltu,
    /// `addw`.
    Addw,
    /// `subw`.
    Subw,
    /// `sllw`.
    Sllw,
    /// `srlw`.
    Srlw,
    /// `sraw`.
    Sraw,
    /// `mul`.
    Mul,
    /// `mulh`.
    Mulh,
    /// `mulhsu`.
    Mulhsu,
    /// `mulhu`.
    Mulhu,
    /// `div`.
    Div,
    /// `divu`.
    Divu,
    /// `rem`.
    Rem,
    /// `remu`.
    Remu,
    /// `mulw`.
    Mulw,
    /// `divw`.
    Divw,
    /// `divuw`.
    Divuw,
    /// `remw`.
    Remw,
    /// `remuw`.
    Remuw,
    /// `addi`.
    Addi,
    /// `andi`.
    Andi,
    /// `ori`.
    Ori,
    /// `xori`.
    Xori,
    /// `slti`.
    Slti,
    /// `sltiu`.
    Sltiu,
    /// `addiw`.
    Addiw,
    /// `slli`.
    Slli,
    /// `srli`.
    Srli,
    /// `srai`.
    Srai,
    /// `slliw`.
    Slliw,
    /// `srliw`.
    Srliw,
    /// `sraiw`.
    Sraiw,
    /// `lui`.
    Lui,
    /// `lb`.
    Lb,
    /// `lbu`.
    Lbu,
    /// `lh`.
    Lh,
    /// `lhu`.
    Lhu,
    /// `lw`.
    Lw,
    /// `lwu`.
    Lwu,
    /// `ld`.
    Ld,
    /// `sb`.
    Sb,
    /// `sh`.
    Sh,
    /// `sw`.
    Sw,
    /// `sd`.
    Sd,
    /// `beq`.
    Beq,
    /// `bne`.
    Bne,
    /// `blt`.
    Blt,
    /// `bge`.
    Bge,
    /// `bltu`.
    Bltu,
    /// `bgeu`.
    Bgeu,
    /// `bgt`.
    Bgt,
    /// `ble`.
    Ble,
    /// `bgtu`.
    Bgtu,
    /// `bleu`.
    Bleu,
    /// `beqz`.
    Beqz,
    /// `bnez`.
    Bnez,
    /// `blez`.
    Blez,
    /// `bgez`.
    Bgez,
    /// `bltz`.
    Bltz,
    /// `bgtz`.
    Bgtz,
    /// `li`.
    Li,
    /// `la`.
    La,
    /// `mv`.
    Mv,
    /// `not`.
    Not,
    /// `neg`.
    Neg,
    /// `negw`.
    Negw,
    /// `sext.w`.
    SextW,
    /// `seqz`.
    Seqz,
    /// `snez`.
    Snez,
    /// `sltz`.
    Sltz,
    /// `sgtz`.
    Sgtz,
    /// `j`.
    J,
    /// `call`.
    Call,
    /// `jalr`.
    Jalr,
    /// `jr`.
    Jr,
    /// `ret`.
    Ret,
    /// `nop`.
    Nop,
}

/// Every mnemonic, once.
pub const MNEMONICS: [Mnemonic; 86] = [
    Mnemonic::Add,
    Mnemonic::Sub,
    Mnemonic::And,
    Mnemonic::Or,
    Mnemonic::Xor,
    Mnemonic::Sll,
    Mnemonic::Srl,
    Mnemonic::Sra,
    Mnemonic::Slt,
    Mnemonic::Sltu,
    Mnemonic::Addw,
    Mnemonic::Subw,
    Mnemonic::Sllw,
    Mnemonic::Srlw,
    Mnemonic::Sraw,
    Mnemonic::Mul,
    Mnemonic::Mulh,
    Mnemonic::Mulhsu,
    Mnemonic::Mulhu,
    Mnemonic::Div,
    Mnemonic::Divu,
    Mnemonic::Rem,
    Mnemonic::Remu,
    Mnemonic::Mulw,
    Mnemonic::Divw,
    Mnemonic::Divuw,
    Mnemonic::Remw,
    Mnemonic::Remuw,
    Mnemonic::Addi,
    Mnemonic::Andi,
    Mnemonic::Ori,
    Mnemonic::Xori,
    Mnemonic::Slti,
    Mnemonic::Sltiu,
    Mnemonic::Addiw,
    Mnemonic::Slli,
    Mnemonic::Srli,
    Mnemonic::Srai,
    Mnemonic::Slliw,
    Mnemonic::Srliw,
    Mnemonic::Sraiw,
    Mnemonic::Lui,
    Mnemonic::Lb,
    Mnemonic::Lbu,
    Mnemonic::Lh,
    Mnemonic::Lhu,
    Mnemonic::Lw,
    Mnemonic::Lwu,
    Mnemonic::Ld,
    Mnemonic::Sb,
    Mnemonic::Sh,
    Mnemonic::Sw,
    Mnemonic::Sd,
    Mnemonic::Beq,
    Mnemonic::Bne,
    Mnemonic::Blt,
    Mnemonic::Bge,
    Mnemonic::Bltu,
    Mnemonic::Bgeu,
    Mnemonic::Bgt,
    Mnemonic::Ble,
    Mnemonic::Bgtu,
    Mnemonic::Bleu,
    Mnemonic::Beqz,
    Mnemonic::Bnez,
    Mnemonic::Blez,
    Mnemonic::Bgez,
    Mnemonic::Bltz,
    Mnemonic::Bgtz,
    Mnemonic::Li,
    Mnemonic::La,
    Mnemonic::Mv,
    Mnemonic::Not,
    Mnemonic::Neg,
    Mnemonic::Negw,
    Mnemonic::SextW,
    Mnemonic::Seqz,
    Mnemonic::Snez,
    Mnemonic::Sltz,
    Mnemonic::Sgtz,
    Mnemonic::J,
    Mnemonic::Call,
    Mnemonic::Jalr,
    Mnemonic::Jr,
    Mnemonic::Ret,
    Mnemonic::Nop,
];
