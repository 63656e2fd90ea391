//! What conditions and statements are made of.
ghost use Rattle.std.specs.Prelude.{◌≡◌, IfOk};

use plain_data::Memory;
use rtx_tree::{Code, Mode, Name};
use std::alloc::Global;

/// An operator between two operands, from the one that binds least.
#[derive(Clone, Copy, Debug)]
pub enum Binary {
    /// `||`
    Or,
    /// `&&`
    And,
    /// `|`
    BitOr,
    /// `^`
    BitXor,
    /// `&`
    BitAnd,
    /// `==`
    Equal,
    /// `!=`
    Unequal,
    /// `<`
    Less,
    /// `<=`
    LessEqual,
    /// `>`
    Greater,
    /// `>=`
    GreaterEqual,
    /// `<<`
    ShiftLeft,
    /// `>>`
    ShiftRight,
    /// `+`
    Plus,
    /// `-`
    Minus,
    /// `*`
    Times,
}

/// An operator before its operand.
#[derive(Clone, Copy, Debug)]
pub enum Unary {
    /// `!`
    Not,
    /// `~`
    Complement,
    /// `-`
    Negative,
}

/// A name that stands before its parts in parentheses.
#[derive(Clone, Copy, Debug)]
pub enum Call {
    /// `can_create_pseudo_p ()`
    CanCreatePseudo,
    /// `INTVAL (x)`
    Intval,
    /// `REGNO (x)`
    Regno,
    /// `REG_P (x)`
    RegP,
    /// `MEM_P (x)`
    MemP,
    /// `CONST_INT_P (x)`
    ConstIntP,
    /// `SYMBOL_REF_P (x)`
    SymbolRefP,
    /// `rtx_equal_p (x, y)`
    RtxEqual,
    /// `IN_RANGE (e, e, e)`
    InRange,
    /// `SMALL_OPERAND (e)`
    SmallOperand,
    /// `peep2_reg_dead_p (n, x)`
    RegDead,
    /// `GEN_INT (e)`
    GenInt,
    /// `gen_int_mode (e, M)`
    GenIntMode,
    /// `gen_reg_rtx (M)`
    GenReg,
    /// `force_reg (M, X)`
    ForceReg,
    /// `gen_lowpart (M, X)`
    GenLowpart,
    /// `emit_move_insn (X, X)`
    EmitMove,
}

/// One part of a condition or of statements. It stands behind the parts that it is made of.
#[derive(Debug, Drop)]
pub enum CondHead {
    /// A number.
    Number(i64),
    /// `reload_completed`
    ReloadCompleted,
    /// `ival`: the number of the operand under test.
    Ival,
    /// `operands[k]`, by its k. The operand under test, `op`, is operand 0.
    Operand(u32),
    /// A mode.
    Mode(Mode),
    /// An instruction of the window, counted from 0.
    Window(u64),
    /// `GET_CODE (x) == CODE`, or `!=`. It has one part, x.
    CodeIs { code: Code, equal: bool },
    /// `GET_MODE (x) == M`, or `!=`. It has one part, x.
    ModeIs { mode: Mode, equal: bool },
    /// An operator of one part.
    Unary(Unary),
    /// An operator of two parts.
    Binary(Binary),
    /// `? :`, of three parts.
    Choose,
    /// A call of the parts that its name wants.
    Call(Call),
    /// A call of a predicate, by its name. It has two parts, x and a mode.
    Predicate(Name),
    /// `operands[k] = X;`. It has one part, X.
    Assign(u32),
    /// `DONE;`
    Done,
    /// `FAIL;`
    Fail,
    /// `if` without `else`, of two parts: the condition and the statement.
    If,
    /// `if` with `else`, of three parts.
    IfElse,
    /// No statement.
    Nothing,
    /// A statement and those behind it, of two parts.
    Then,
}

impl CondHead {
    /// A copy of the head.
    pub fn copy(&self, alloc: Global) -> Result<CondHead, Memory>
        ensures { IfOk result (λ head. head ≡ self.now) }
    {
        match self {
            CondHead::Predicate(name) => Ok(CondHead::Predicate(name.copy(alloc)?)),
            CondHead::Number(number) => Ok(CondHead::Number(*number)),
            CondHead::ReloadCompleted => Ok(CondHead::ReloadCompleted),
            CondHead::Ival => Ok(CondHead::Ival),
            CondHead::Operand(number) => Ok(CondHead::Operand(*number)),
            CondHead::Mode(mode) => Ok(CondHead::Mode(*mode)),
            CondHead::Window(place) => Ok(CondHead::Window(*place)),
            CondHead::CodeIs { code, equal } => Ok(CondHead::CodeIs {
                code: *code,
                equal: *equal,
            }),
            CondHead::ModeIs { mode, equal } => Ok(CondHead::ModeIs {
                mode: *mode,
                equal: *equal,
            }),
            CondHead::Unary(operator) => Ok(CondHead::Unary(*operator)),
            CondHead::Binary(operator) => Ok(CondHead::Binary(*operator)),
            CondHead::Choose => Ok(CondHead::Choose),
            CondHead::Call(call) => Ok(CondHead::Call(*call)),
            CondHead::Assign(number) => Ok(CondHead::Assign(*number)),
            CondHead::Done => Ok(CondHead::Done),
            CondHead::Fail => Ok(CondHead::Fail),
            CondHead::If => Ok(CondHead::If),
            CondHead::IfElse => Ok(CondHead::IfElse),
            CondHead::Nothing => Ok(CondHead::Nothing),
            CondHead::Then => Ok(CondHead::Then),
        }
    }
}
