//! The words that have a meaning of their own in conditions and statements.
ghost use Rattle.std.specs.Prelude.{◌≡◌};
ghost use Rattle.c_words.specs.Words as spec;

use crate::head::Call;

/// A word with a meaning of its own.
#[derive(Clone, Copy)]
pub enum Keyword {
    /// A name before its parts.
    Call(Call),
    GetCode,
    GetMode,
    ReloadCompleted,
    Operands,
    Op,
    Ival,
    If,
    Else,
    Done,
    Fail,
}

const KEYWORDS: [Keyword; 27] = [
    Keyword::Call(Call::CanCreatePseudo),
    Keyword::Call(Call::Intval),
    Keyword::Call(Call::Regno),
    Keyword::Call(Call::RegP),
    Keyword::Call(Call::MemP),
    Keyword::Call(Call::ConstIntP),
    Keyword::Call(Call::SymbolRefP),
    Keyword::Call(Call::RtxEqual),
    Keyword::Call(Call::InRange),
    Keyword::Call(Call::SmallOperand),
    Keyword::Call(Call::RegDead),
    Keyword::Call(Call::GenInt),
    Keyword::Call(Call::GenIntMode),
    Keyword::Call(Call::GenReg),
    Keyword::Call(Call::ForceReg),
    Keyword::Call(Call::GenLowpart),
    Keyword::Call(Call::EmitMove),
    Keyword::GetCode,
    Keyword::GetMode,
    Keyword::ReloadCompleted,
    Keyword::Operands,
    Keyword::Op,
    Keyword::Ival,
    Keyword::If,
    Keyword::Else,
    Keyword::Done,
    Keyword::Fail,
];

/// Every keyword, once.
pub fn all_keywords() -> &'static [Keyword]
    ensures { result.now ≡ spec.all_keywords }
{
    &KEYWORDS
}

fn call_name(call: Call) -> &'static str
    ensures { result.now ≡ spec.call_name call }
{
    match call {
        Call::CanCreatePseudo => "can_create_pseudo_p",
        Call::Intval => "INTVAL",
        Call::Regno => "REGNO",
        Call::RegP => "REG_P",
        Call::MemP => "MEM_P",
        Call::ConstIntP => "CONST_INT_P",
        Call::SymbolRefP => "SYMBOL_REF_P",
        Call::RtxEqual => "rtx_equal_p",
        Call::InRange => "IN_RANGE",
        Call::SmallOperand => "SMALL_OPERAND",
        Call::RegDead => "peep2_reg_dead_p",
        Call::GenInt => "GEN_INT",
        Call::GenIntMode => "gen_int_mode",
        Call::GenReg => "gen_reg_rtx",
        Call::ForceReg => "force_reg",
        Call::GenLowpart => "gen_lowpart",
        Call::EmitMove => "emit_move_insn",
    }
}

impl Keyword {
    ghost use Rattle.std.specs.Str.{bytes_eq};

    /// The word that a keyword is.
    pub fn name(self) -> &'static str
        ensures { result.now ≡ spec.keyword_name self }
    {
        match self {
            Keyword::Call(call) => call_name(call),
            Keyword::GetCode => "GET_CODE",
            Keyword::GetMode => "GET_MODE",
            Keyword::ReloadCompleted => "reload_completed",
            Keyword::Operands => "operands",
            Keyword::Op => "op",
            Keyword::Ival => "ival",
            Keyword::If => "if",
            Keyword::Else => "else",
            Keyword::Done => "DONE",
            Keyword::Fail => "FAIL",
        }
    }

    fn is_named(self, word: &[u8]) -> bool
        ensures { result ≡ bytes_eq (spec.keyword_name self) word.now }
    {
        self.name().as_bytes() == word
    }

    /// The keyword that a word is, or `None` where it is none.
    pub fn named(word: &[u8]) -> Option<Keyword>
        ensures { result ≡ spec.keyword_named word.now }
    {
        for keyword in all_keywords() {
            if keyword.is_named(word) {
                return Some(*keyword);
            }
        }
        None
    }
}
