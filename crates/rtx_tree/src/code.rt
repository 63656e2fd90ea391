//! The codes and machine modes of RTL, with their names.
ghost use Rattle.std.specs.Prelude.{◌≡◌, ◌↔◌, IsTrue};
ghost use Rattle.std.specs.Str.{bytes_eq};
ghost use Rattle.rtx_tree.specs.Code as spec;
ghost use Rattle.rtx_tree.specs.Code.{HasEvery, HasOnce, class_of_code, code_name, mode_name};
ghost use Rattle.rtx_tree.specs.machine.Row.{row_view};

use crate::class::Class;

/// A machine mode: the width of a value. `Void` stands where an expression has none.
#[derive(Clone, Copy, Debug)]
pub enum Mode {
    /// No mode.
    Void,
    /// 8 bits.
    QI,
    /// 16 bits.
    HI,
    /// 32 bits.
    SI,
    /// 64 bits.
    DI,
}

/// The code at the head of an expression: what it is.
#[derive(Clone, Copy, Debug)]
pub enum Code {
    /// A register.
    Reg,
    /// A 64-bit number.
    ConstInt,
    /// The address of a symbol, by its name.
    SymbolRef,
    /// The memory at an address.
    Mem,
    /// The low part of a register of a wider mode.
    Subreg,
    /// Sum.
    Plus,
    /// Difference.
    Minus,
    /// Product.
    Mult,
    /// Quotient of signed numbers.
    Div,
    /// Quotient of unsigned numbers.
    Udiv,
    /// Remainder of signed numbers.
    Mod,
    /// Remainder of unsigned numbers.
    Umod,
    /// Bitwise and.
    And,
    /// Bitwise inclusive or.
    Ior,
    /// Bitwise exclusive or.
    Xor,
    /// Negative.
    Neg,
    /// Bitwise complement.
    Not,
    /// Left shift.
    Ashift,
    /// Arithmetic right shift.
    Ashiftrt,
    /// Logical right shift.
    Lshiftrt,
    /// Extension by the sign.
    SignExtend,
    /// Extension by zeros.
    ZeroExtend,
    /// The low bits, in a narrower mode.
    Truncate,
    /// Equal.
    Eq,
    /// Not equal.
    Ne,
    /// Less, signed.
    Lt,
    /// Less or equal, signed.
    Le,
    /// Greater, signed.
    Gt,
    /// Greater or equal, signed.
    Ge,
    /// Less, unsigned.
    Ltu,
    /// Less or equal, unsigned.
    Leu,
    /// Greater, unsigned.
    Gtu,
    /// Greater or equal, unsigned.
    Geu,
    /// Stores a value in a place.
    Set,
    /// `use`: the value is needed here.
    Use,
    /// The place is changed in an unknown way.
    Clobber,
    /// Several effects at once.
    Parallel,
    /// A call of a function.
    Call,
    /// A return to the caller.
    Return,
    /// The program counter.
    Pc,
    /// The address of a label, by its uid.
    LabelRef,
    /// One of two values, by a condition.
    IfThenElse,
    /// A register that is still to be chosen.
    Scratch,
    /// An operand of a pattern, by its number.
    MatchOperand,
    /// An operand once more.
    MatchDup,
    /// An operand that may be a scratch register.
    MatchScratch,
    /// An operand that is an operator.
    MatchOperator,
    /// An operator once more.
    MatchOpDup,
}

/// A row of the table of codes.
#[derive(Clone, Copy)]
struct Row {
    name: &'static str,
    class: Class,
}

macro_rules! listed {
    ($name:expr, $class:ident) => {
        Row {
            name: $name,
            class: Class::$class,
        }
    };
}

/// Every code, once.
const CODES: [Code; 48] = [
    Code::Reg,
    Code::ConstInt,
    Code::SymbolRef,
    Code::Mem,
    Code::Subreg,
    Code::Plus,
    Code::Minus,
    Code::Mult,
    Code::Div,
    Code::Udiv,
    Code::Mod,
    Code::Umod,
    Code::And,
    Code::Ior,
    Code::Xor,
    Code::Neg,
    Code::Not,
    Code::Ashift,
    Code::Ashiftrt,
    Code::Lshiftrt,
    Code::SignExtend,
    Code::ZeroExtend,
    Code::Truncate,
    Code::Eq,
    Code::Ne,
    Code::Lt,
    Code::Le,
    Code::Gt,
    Code::Ge,
    Code::Ltu,
    Code::Leu,
    Code::Gtu,
    Code::Geu,
    Code::Set,
    Code::Use,
    Code::Clobber,
    Code::Parallel,
    Code::Call,
    Code::Return,
    Code::Pc,
    Code::LabelRef,
    Code::IfThenElse,
    Code::Scratch,
    Code::MatchOperand,
    Code::MatchDup,
    Code::MatchScratch,
    Code::MatchOperator,
    Code::MatchOpDup,
];

/// The row of each code, in the order of the codes.
static ROWS: [Row; 48] = [
    listed!("reg", Register),
    listed!("const_int", Constant),
    listed!("symbol_ref", Symbol),
    listed!("mem", Memory),
    listed!("subreg", Lowpart),
    listed!("plus", Binary),
    listed!("minus", Binary),
    listed!("mult", Binary),
    listed!("div", Binary),
    listed!("udiv", Binary),
    listed!("mod", Binary),
    listed!("umod", Binary),
    listed!("and", Binary),
    listed!("ior", Binary),
    listed!("xor", Binary),
    listed!("neg", Unary),
    listed!("not", Unary),
    listed!("ashift", Shift),
    listed!("ashiftrt", Shift),
    listed!("lshiftrt", Shift),
    listed!("sign_extend", Extension),
    listed!("zero_extend", Extension),
    listed!("truncate", Truncation),
    listed!("eq", Comparison),
    listed!("ne", Comparison),
    listed!("lt", Comparison),
    listed!("le", Comparison),
    listed!("gt", Comparison),
    listed!("ge", Comparison),
    listed!("ltu", Comparison),
    listed!("leu", Comparison),
    listed!("gtu", Comparison),
    listed!("geu", Comparison),
    listed!("set", Setting),
    listed!("use", Use),
    listed!("clobber", Clobber),
    listed!("parallel", Parallel),
    listed!("call", Call),
    listed!("return", Return),
    listed!("pc", Counter),
    listed!("label_ref", Label),
    listed!("if_then_else", Branch),
    listed!("scratch", Scratch),
    listed!("match_operand", Operand),
    listed!("match_dup", OperandAgain),
    listed!("match_scratch", OperandScratch),
    listed!("match_operator", Operator),
    listed!("match_op_dup", OperatorAgain),
];

/// The modes that have a name.
const NAMED_MODES: [Mode; 4] = [Mode::QI, Mode::HI, Mode::SI, Mode::DI];

fn named_modes() -> &'static [Mode]
    ensures { result.now ≡ spec.named_modes }
{
    &NAMED_MODES
}

impl Code {
    ghost use Rattle.rtx_tree.specs.declared.code.Code.{Code};

    /// Every code, once.
    #[tactic(auto, using(crate::proofs::Codes::has_every, crate::proofs::Distinct::has_once))]
    pub fn all() -> &'static [Code]
        ensures all { result.now ≡ spec.all_codes }
        ensures every { HasEvery }
        ensures once { HasOnce }
    {
        &CODES
    }

    /// The row of a code: its name, and what its expressions are.
    fn row(self) -> Row
        ensures { row_view result ≡ spec.row_of self }
    {
        ROWS[self as usize]
    }

    /// What an expression of this code is.
    pub fn class(self) -> Class
        ensures { result ≡ class_of_code self }
    {
        self.row().class
    }

    /// The code's name in text, as `const_int`. Different codes have different names.
    pub fn name(self) -> &'static str
        ensures name { result.now ≡ code_name self }
        ensures distinct { (other : Code) → code_name other ≡ code_name self → other ≡ self }
    {
        self.row().name
    }

    fn is_named(self, name: &[u8]) -> bool
        ensures { result ≡ bytes_eq (code_name self) name.now }
    {
        self.name().as_bytes() == name
    }

    /// The code with this name, or `None` where no code has it.
    #[tactic(auto, unfolding(crate::specs::Code::code_named))]
    pub fn named(name: &[u8]) -> Option<Code>
        ensures { result ≡ spec.code_named name.now }
    {
        for code in Code::all() {
            if code.is_named(name) {
                return Some(*code);
            }
        }
        None
    }

    /// The code that a word of a text stands for, `simple_return` being a return.
    pub fn written(word: &[u8]) -> Option<Code>
        ensures { result ≡ spec.code_in word.now }
    {
        if word == b"simple_return".as_slice() {
            Some(Code::Return)
        } else {
            Code::named(word)
        }
    }

    /// The comparison that holds exactly where this one doesn't, or `None` where it is none.
    pub fn reversed(self) -> Option<Code>
        ensures { result ≡ spec.reversed self }
    {
        match self {
            Code::Eq => Some(Code::Ne),
            Code::Ne => Some(Code::Eq),
            Code::Lt => Some(Code::Ge),
            Code::Ge => Some(Code::Lt),
            Code::Gt => Some(Code::Le),
            Code::Le => Some(Code::Gt),
            Code::Ltu => Some(Code::Geu),
            Code::Geu => Some(Code::Ltu),
            Code::Gtu => Some(Code::Leu),
            Code::Leu => Some(Code::Gtu),
            _ => None,
        }
    }

    /// Whether two codes are the same.
    pub fn same(self, other: Code) -> bool
        ensures { IsTrue result ↔ (self ≡ other) }
    {
        self == other
    }
}

impl Mode {
    ghost use Rattle.rtx_tree.specs.declared.code.Mode.{Mode};

    /// The mode's name in text, as `DI`. That of `Void` is empty. Different modes have different
    /// names.
    pub fn name(self) -> &'static str
        ensures name { result.now ≡ mode_name self }
        ensures distinct { (other : Mode) → mode_name other ≡ mode_name self → other ≡ self }
    {
        match self {
            Mode::Void => "",
            Mode::QI => "QI",
            Mode::HI => "HI",
            Mode::SI => "SI",
            Mode::DI => "DI",
        }
    }

    fn is_named(self, name: &[u8]) -> bool
        ensures { result ≡ bytes_eq (mode_name self) name.now }
    {
        self.name().as_bytes() == name
    }

    /// The mode other than `Void` with this name, or `None` where none has it.
    #[tactic(auto, unfolding(crate::specs::Code::mode_named))]
    pub fn named(name: &[u8]) -> Option<Mode>
        ensures { result ≡ spec.mode_named name.now }
    {
        for mode in named_modes() {
            if mode.is_named(name) {
                return Some(*mode);
            }
        }
        None
    }

    /// The mode's bits; `Void` has none.
    pub fn bits(self) -> u32
        ensures { result ≡ spec.mode_bits self }
    {
        match self {
            Mode::Void => 0,
            Mode::QI => 8,
            Mode::HI => 16,
            Mode::SI => 32,
            Mode::DI => 64,
        }
    }

    /// The mode, or another where it is `Void`.
    pub fn or(self, other: Mode) -> Mode
        ensures { result ≡ spec.mode_or self other }
    {
        match self {
            Mode::Void => other,
            Mode::QI | Mode::HI | Mode::SI | Mode::DI => self,
        }
    }

    /// Whether two modes are the same.
    pub fn same(self, other: Mode) -> bool
        ensures { IsTrue result ↔ (self ≡ other) }
    {
        self == other
    }
}
