//! The table of the plain forms.
ghost use Rattle.plain_held.specs.Parts.{AreRows, forms_from};

use crate::notation::BARE;
use crate::notation::BINARY;
use crate::notation::CALL;
use crate::notation::CALLED;
use crate::notation::CHOICE;
use crate::notation::EXTENDED;
use crate::notation::FROM_ZERO;
use crate::notation::LABEL;
use crate::notation::MOVED;
use crate::notation::OR_I;
use crate::notation::OR_K;
use crate::notation::OR_L;
use crate::notation::OR_MEMORY;
use crate::notation::PC;
use crate::notation::SET;
use crate::notation::SUM;
use crate::notation::UNARY;
use crate::notation::WITH_ZERO;
use crate::notation::again;
use crate::notation::anything;
use crate::notation::at;
use crate::notation::at_least;
use crate::notation::at_most;
use crate::notation::binary;
use crate::notation::called;
use crate::notation::compares;
use crate::notation::comparison;
use crate::notation::constant;
use crate::notation::constraint;
use crate::notation::equals;
use crate::notation::equals_zero;
use crate::notation::expand;
use crate::notation::extend;
use crate::notation::general;
use crate::notation::insn;
use crate::notation::leaf;
use crate::notation::less;
use crate::notation::minus;
use crate::notation::more;
use crate::notation::moved;
use crate::notation::nonimmediate;
use crate::notation::of;
use crate::notation::one;
use crate::notation::operand;
use crate::notation::or_constant;
use crate::notation::predicate;
use crate::notation::register;
use crate::notation::register_or_0;
use crate::notation::register_or_int;
use crate::notation::shift;
use crate::notation::standard_move;
use crate::notation::truncate;
use crate::notation::two;
use crate::notation::unary;
use crate::notation::wide;
use crate::notation::wide_shift;
use crate::row::Asked;
use crate::row::Constrained;
use crate::row::Node;
use crate::row::Row;
use crate::words::ARE_ADDED;
use crate::words::FORCES_DI;
use crate::words::FORCES_HI;
use crate::words::FORCES_QI;
use crate::words::FORCES_SI;
use crate::words::IS_MASK;
use crate::words::IS_SHORT;
use crate::words::IS_SPLIT;
use crate::words::IS_ZERO;
use crate::words::MAKES_COUNT;
use crate::words::MAKES_REGISTERS;
use crate::words::MAKES_SUM;
use crate::words::MOVES_DI;
use crate::words::MOVES_HI;
use crate::words::MOVES_QI;
use crate::words::MOVES_SI;
use crate::words::NOTHING;
use crate::words::TO_31;
use crate::words::TO_63;
use crate::words::VALUE_IS_ZERO;
use md_forms::FormHead;
use rtx_tree::Code::And;
use rtx_tree::Code::Ashift;
use rtx_tree::Code::Ashiftrt;
use rtx_tree::Code::ConstInt;
use rtx_tree::Code::Div;
use rtx_tree::Code::Eq;
use rtx_tree::Code::Ge;
use rtx_tree::Code::Geu;
use rtx_tree::Code::Gt;
use rtx_tree::Code::Gtu;
use rtx_tree::Code::Ior;
use rtx_tree::Code::Le;
use rtx_tree::Code::Leu;
use rtx_tree::Code::Lshiftrt;
use rtx_tree::Code::Lt;
use rtx_tree::Code::Ltu;
use rtx_tree::Code::MatchDup;
use rtx_tree::Code::MatchOperand;
use rtx_tree::Code::MatchOperator;
use rtx_tree::Code::Minus;
use rtx_tree::Code::Mod;
use rtx_tree::Code::Mult;
use rtx_tree::Code::Ne;
use rtx_tree::Code::Neg;
use rtx_tree::Code::Not;
use rtx_tree::Code::Plus;
use rtx_tree::Code::Return;
use rtx_tree::Code::SignExtend;
use rtx_tree::Code::Truncate;
use rtx_tree::Code::Udiv;
use rtx_tree::Code::Umod;
use rtx_tree::Code::Xor;
use rtx_tree::Code::ZeroExtend;
use rtx_tree::Mode::DI;
use rtx_tree::Mode::HI;
use rtx_tree::Mode::QI;
use rtx_tree::Mode::SI;
use rtx_tree::Mode::Void;

/// A mask of 16 or 32 ones, which is split into two shifts.
const MASKS: Row = Row {
    head: FormHead::InsnAndSplit,
    name: Some("*and_mask"),
    patterns: &[
        register!(0, DI),
        register!(1, DI),
        constant!(2, DI),
        of!(And, DI, 2),
        SET,
    ],
    condition: IS_MASK,
    split_condition: IS_SPLIT,
    statements: MAKES_COUNT,
    sequence: &[
        again!(0),
        again!(1),
        again!(3),
        of!(Ashift, DI, 2),
        SET,
        again!(0),
        again!(0),
        again!(3),
        of!(Lshiftrt, DI, 2),
        SET,
    ],
    constraints: &[at!(0, "=r"), at!(1, "r"), at!(2, "n")],
    template: "#",
    test: Asked::Nothing,
};

/// Two constants that are added to a register other than `sp`, one after the other, where their sum
/// is short.
const SUMS_JOINED: Row = Row {
    head: FormHead::Peephole2,
    patterns: &[
        register!(0, DI),
        again!(0),
        constant!(1, DI),
        SUM,
        SET,
        again!(0),
        again!(0),
        constant!(2, DI),
        SUM,
        SET,
    ],
    condition: ARE_ADDED,
    sequence: &[again!(0), again!(0), again!(3), SUM, SET],
    statements: MAKES_SUM,
    ..BARE
};

// ---- the templates of extensions: of a register, and of memory

const SIGNS_SI: &str = "@\nsext.w\\t%0,%1\nlw\\t%0,%1";

const ZEROS_SI: &str = "@\nslli\\t%0,%1,32\\n\\tsrli\\t%0,%0,32\nlwu\\t%0,%1";

const SIGNS_QI: &str = "@\nslli\\t%0,%1,56\\n\\tsrai\\t%0,%0,56\nlb\\t%0,%1";

const SIGNS_HI: &str = "@\nslli\\t%0,%1,48\\n\\tsrai\\t%0,%0,48\nlh\\t%0,%1";

const ZEROS_QI: &str = "@\nandi\\t%0,%1,255\nlbu\\t%0,%1";

const ZEROS_HI: &str = "@\nslli\\t%0,%1,48\\n\\tsrli\\t%0,%0,48\nlhu\\t%0,%1";

static CONSTRAINTS_ROWS: [Row; 4] = [
    constraint!("I", IS_SHORT),
    constraint!("J", IS_ZERO),
    constraint!("K", TO_31),
    constraint!("L", TO_63),
];

/// The constraints.
#[tactic(auto, unfolding(plain_forms::specs::Forms::plain_forms))]
pub fn constraints() -> &'static [Row]
    ensures { AreRows (forms_from 0 4) result.now }
{
    &CONSTRAINTS_ROWS
}

static PREDICATES_ROWS: [Row; 3] = [
    predicate!("reg_or_0_operand", Asked::RegisterOr(VALUE_IS_ZERO)),
    predicate!("reg_or_int_operand", Asked::RegisterOrConstant),
    predicate!("call_operand", Asked::RegisterOrSymbol),
];

/// The predicates.
#[tactic(auto, unfolding(plain_forms::specs::Forms::plain_forms))]
pub fn predicates() -> &'static [Row]
    ensures { AreRows (forms_from 4 3) result.now }
{
    &PREDICATES_ROWS
}

static MOVES_ROWS: [Row; 9] = [
    standard_move!("movqi", QI, FORCES_QI),
    standard_move!("movhi", HI, FORCES_HI),
    standard_move!("movsi", SI, FORCES_SI),
    standard_move!("movdi", DI, FORCES_DI),
    insn!(
        "*frame",
        &[register!(0, DI), operand!("frame_operand", 1, DI), SET],
        &[at!(0, "=r"), at!(1, "")],
        "#"
    ),
    moved!(
        "*movdi",
        DI,
        MOVES_DI,
        &[at!(0, "=r,r,r,r,m"), at!(1, "r,n,s,m,rJ")],
        "@\nmv\\t%0,%1\nli\\t%0,%1\nla\\t%0,%1\nld\\t%0,%1\nsd\\t%z1,%0"
    ),
    moved!(
        "*movqi",
        QI,
        MOVES_QI,
        MOVED,
        "@\nmv\\t%0,%1\nli\\t%0,%1\nlbu\\t%0,%1\nsb\\t%z1,%0"
    ),
    moved!(
        "*movhi",
        HI,
        MOVES_HI,
        MOVED,
        "@\nmv\\t%0,%1\nli\\t%0,%1\nlhu\\t%0,%1\nsh\\t%z1,%0"
    ),
    moved!(
        "*movsi",
        SI,
        MOVES_SI,
        MOVED,
        "@\nmv\\t%0,%1\nli\\t%0,%1\nlw\\t%0,%1\nsw\\t%z1,%0"
    ),
];

/// The moves.
#[tactic(auto, unfolding(plain_forms::specs::Forms::plain_forms))]
pub fn moves() -> &'static [Row]
    ensures { AreRows (forms_from 7 9) result.now }
{
    &MOVES_ROWS
}

static SUMS_ROWS: [Row; 8] = [
    or_constant!("addsi3", Plus, SI, "add%i2w\\t%0,%1,%2"),
    or_constant!("adddi3", Plus, DI, "add%i2\\t%0,%1,%2"),
    wide!(
        "*addsi3_x",
        Plus,
        register!(1, SI),
        register_or_int!(2, SI),
        OR_I,
        "add%i2w\\t%0,%1,%2"
    ),
    minus!("subsi3", SI, "subw\\t%0,%z1,%2"),
    minus!("subdi3", DI, "sub\\t%0,%z1,%2"),
    wide!(
        "*subsi3_x",
        Minus,
        register_or_0!(1, SI),
        register!(2, SI),
        FROM_ZERO,
        "subw\\t%0,%z1,%2"
    ),
    binary!("mulsi3", Mult, SI, "mulw\\t%0,%1,%2"),
    binary!("muldi3", Mult, DI, "mul\\t%0,%1,%2"),
];

/// Sums, differences and products.
#[tactic(auto, unfolding(plain_forms::specs::Forms::plain_forms))]
pub fn sums() -> &'static [Row]
    ensures { AreRows (forms_from 16 8) result.now }
{
    &SUMS_ROWS
}

static QUOTIENTS_ROWS: [Row; 10] = [
    binary!("divsi3", Div, SI, "divw\\t%0,%1,%2"),
    binary!("udivsi3", Udiv, SI, "divuw\\t%0,%1,%2"),
    binary!("modsi3", Mod, SI, "remw\\t%0,%1,%2"),
    binary!("umodsi3", Umod, SI, "remuw\\t%0,%1,%2"),
    binary!("divdi3", Div, DI, "div\\t%0,%1,%2"),
    binary!("udivdi3", Udiv, DI, "divu\\t%0,%1,%2"),
    binary!("moddi3", Mod, DI, "rem\\t%0,%1,%2"),
    binary!("umoddi3", Umod, DI, "remu\\t%0,%1,%2"),
    unary!("negsi2", Neg, SI, "negw\\t%0,%1"),
    unary!("negdi2", Neg, DI, "neg\\t%0,%1"),
];

/// Quotients, remainders and negations.
#[tactic(auto, unfolding(plain_forms::specs::Forms::plain_forms))]
pub fn quotients() -> &'static [Row]
    ensures { AreRows (forms_from 24 10) result.now }
{
    &QUOTIENTS_ROWS
}

static BITS_ROWS: [Row; 9] = [
    unary!("one_cmplsi2", Not, SI, "not\\t%0,%1"),
    unary!("one_cmpldi2", Not, DI, "not\\t%0,%1"),
    MASKS,
    or_constant!("andsi3", And, SI, "and%i2\\t%0,%1,%2"),
    or_constant!("iorsi3", Ior, SI, "or%i2\\t%0,%1,%2"),
    or_constant!("xorsi3", Xor, SI, "xor%i2\\t%0,%1,%2"),
    or_constant!("anddi3", And, DI, "and%i2\\t%0,%1,%2"),
    or_constant!("iordi3", Ior, DI, "or%i2\\t%0,%1,%2"),
    or_constant!("xordi3", Xor, DI, "xor%i2\\t%0,%1,%2"),
];

/// Operations on bits.
#[tactic(auto, unfolding(plain_forms::specs::Forms::plain_forms))]
pub fn bits() -> &'static [Row]
    ensures { AreRows (forms_from 34 9) result.now }
{
    &BITS_ROWS
}

static SHIFTS_ROWS: [Row; 9] = [
    shift!("ashlsi3", Ashift, SI, OR_K, "sll%i2w\\t%0,%1,%2"),
    shift!("ashrsi3", Ashiftrt, SI, OR_K, "sra%i2w\\t%0,%1,%2"),
    shift!("lshrsi3", Lshiftrt, SI, OR_K, "srl%i2w\\t%0,%1,%2"),
    shift!("ashldi3", Ashift, DI, OR_L, "sll%i2\\t%0,%1,%2"),
    shift!("ashrdi3", Ashiftrt, DI, OR_L, "sra%i2\\t%0,%1,%2"),
    shift!("lshrdi3", Lshiftrt, DI, OR_L, "srl%i2\\t%0,%1,%2"),
    wide_shift!("*ashlsi3_x", Ashift, "sll%i2w\\t%0,%1,%2"),
    wide_shift!("*ashrsi3_x", Ashiftrt, "sra%i2w\\t%0,%1,%2"),
    wide_shift!("*lshrsi3_x", Lshiftrt, "srl%i2w\\t%0,%1,%2"),
];

/// Shifts.
#[tactic(auto, unfolding(plain_forms::specs::Forms::plain_forms))]
pub fn shifts() -> &'static [Row]
    ensures { AreRows (forms_from 43 9) result.now }
{
    &SHIFTS_ROWS
}

static EXTENSIONS_ROWS: [Row; 10] = [
    extend!("extendsidi2", SignExtend, SI, DI, SIGNS_SI),
    extend!("zero_extendsidi2", ZeroExtend, SI, DI, ZEROS_SI),
    extend!("extendqisi2", SignExtend, QI, SI, SIGNS_QI),
    extend!("extendhisi2", SignExtend, HI, SI, SIGNS_HI),
    extend!("extendqidi2", SignExtend, QI, DI, SIGNS_QI),
    extend!("extendhidi2", SignExtend, HI, DI, SIGNS_HI),
    extend!("zero_extendqisi2", ZeroExtend, QI, SI, ZEROS_QI),
    extend!("zero_extendqidi2", ZeroExtend, QI, DI, ZEROS_QI),
    extend!("zero_extendhisi2", ZeroExtend, HI, SI, ZEROS_HI),
    extend!("zero_extendhidi2", ZeroExtend, HI, DI, ZEROS_HI),
];

/// Extensions.
#[tactic(auto, unfolding(plain_forms::specs::Forms::plain_forms))]
pub fn extensions() -> &'static [Row]
    ensures { AreRows (forms_from 52 10) result.now }
{
    &EXTENSIONS_ROWS
}

static TRUNCATIONS_ROWS: [Row; 5] = [
    truncate!("truncdiqi2", DI, QI),
    truncate!("truncdihi2", DI, HI),
    truncate!("truncdisi2", DI, SI),
    truncate!("truncsiqi2", SI, QI),
    truncate!("truncsihi2", SI, HI),
];

/// Truncations.
#[tactic(auto, unfolding(plain_forms::specs::Forms::plain_forms))]
pub fn truncations() -> &'static [Row]
    ensures { AreRows (forms_from 62 5) result.now }
{
    &TRUNCATIONS_ROWS
}

static ORDERS_ROWS: [Row; 12] = [
    less!(Lt, SI, "slt%i2\\t%0,%1,%2"),
    less!(Ltu, SI, "slt%i2u\\t%0,%1,%2"),
    less!(Lt, DI, "slt%i2\\t%0,%1,%2"),
    less!(Ltu, DI, "slt%i2u\\t%0,%1,%2"),
    more!(Gt, SI, "slt\\t%0,%z2,%1"),
    more!(Gtu, SI, "sltu\\t%0,%z2,%1"),
    more!(Gt, DI, "slt\\t%0,%z2,%1"),
    more!(Gtu, DI, "sltu\\t%0,%z2,%1"),
    at_least!(Ge, SI, "slt%i2\\t%0,%1,%2\\n\\txori\\t%0,%0,1"),
    at_least!(Geu, SI, "slt%i2u\\t%0,%1,%2\\n\\txori\\t%0,%0,1"),
    at_least!(Ge, DI, "slt%i2\\t%0,%1,%2\\n\\txori\\t%0,%0,1"),
    at_least!(Geu, DI, "slt%i2u\\t%0,%1,%2\\n\\txori\\t%0,%0,1"),
];

/// Comparisons by less, more and at least.
#[tactic(auto, unfolding(plain_forms::specs::Forms::plain_forms))]
pub fn orders() -> &'static [Row]
    ensures { AreRows (forms_from 67 12) result.now }
{
    &ORDERS_ROWS
}

static EQUALITIES_ROWS: [Row; 12] = [
    at_most!(Le, SI, "slt\\t%0,%z2,%1\\n\\txori\\t%0,%0,1"),
    at_most!(Leu, SI, "sltu\\t%0,%z2,%1\\n\\txori\\t%0,%0,1"),
    at_most!(Le, DI, "slt\\t%0,%z2,%1\\n\\txori\\t%0,%0,1"),
    at_most!(Leu, DI, "sltu\\t%0,%z2,%1\\n\\txori\\t%0,%0,1"),
    equals_zero!(Eq, SI, "seqz\\t%0,%1"),
    equals_zero!(Ne, SI, "snez\\t%0,%1"),
    equals_zero!(Eq, DI, "seqz\\t%0,%1"),
    equals_zero!(Ne, DI, "snez\\t%0,%1"),
    equals!(Eq, SI, "sub\\t%0,%1,%2\\n\\tseqz\\t%0,%0"),
    equals!(Ne, SI, "sub\\t%0,%1,%2\\n\\tsnez\\t%0,%0"),
    equals!(Eq, DI, "sub\\t%0,%1,%2\\n\\tseqz\\t%0,%0"),
    equals!(Ne, DI, "sub\\t%0,%1,%2\\n\\tsnez\\t%0,%0"),
];

/// Comparisons by at most, and with equality.
#[tactic(auto, unfolding(plain_forms::specs::Forms::plain_forms))]
pub fn equalities() -> &'static [Row]
    ensures { AreRows (forms_from 79 12) result.now }
{
    &EQUALITIES_ROWS
}

static STANDARD_COMPARISONS_ROWS: [Row; 2] = [
    expand!(
        "cstoredi4",
        &[
            register!(0, Void),
            register!(2, DI),
            register_or_int!(3, DI),
            comparison!(1),
            SET
        ],
        NOTHING
    ),
    expand!(
        "cstoresi4",
        &[
            again!(4),
            register!(2, SI),
            EXTENDED,
            SET,
            again!(5),
            register!(3, SI),
            EXTENDED,
            SET,
            register!(0, Void),
            again!(4),
            again!(5),
            comparison!(1),
            SET
        ],
        MAKES_REGISTERS
    ),
];

/// The standard names of comparisons.
#[tactic(auto, unfolding(plain_forms::specs::Forms::plain_forms))]
pub fn standard_comparisons() -> &'static [Row]
    ensures { AreRows (forms_from 91 2) result.now }
{
    &STANDARD_COMPARISONS_ROWS
}

static JUMPS_ROWS: [Row; 6] = [
    insn!(
        "cbranchdi4",
        &[
            PC,
            register!(1, DI),
            register_or_0!(2, DI),
            comparison!(0),
            anything!(3),
            LABEL,
            PC,
            CHOICE,
            SET
        ],
        &[at!(1, "r"), at!(2, "rJ"), at!(3, "")],
        "b%C0\\t%1,%z2,%l3"
    ),
    expand!(
        "cbranchsi4",
        &[
            again!(4),
            register!(1, SI),
            EXTENDED,
            SET,
            again!(5),
            register!(2, SI),
            EXTENDED,
            SET,
            PC,
            again!(4),
            again!(5),
            comparison!(0),
            anything!(3),
            LABEL,
            PC,
            CHOICE,
            SET
        ],
        MAKES_REGISTERS
    ),
    insn!(
        "jump",
        &[PC, anything!(0), LABEL, SET],
        &[at!(0, "")],
        "j\\t%l0"
    ),
    insn!(
        "call",
        &[called!(0), CALLED, anything!(1), CALL],
        &[at!(0, "s,r"), at!(1, "")],
        "@\ncall\\t%0\njalr\\tra,0(%0)"
    ),
    insn!(
        "call_value",
        &[
            register!(0, Void),
            called!(1),
            CALLED,
            anything!(2),
            CALL,
            SET
        ],
        &[at!(0, "=r,r"), at!(1, "s,r"), at!(2, "")],
        "@\ncall\\t%1\njalr\\tra,0(%1)"
    ),
    insn!("return", &[leaf!(Return, 0)], &[], "ret"),
];

/// Branches, jumps, calls and returns.
#[tactic(auto, unfolding(plain_forms::specs::Forms::plain_forms))]
pub fn jumps() -> &'static [Row]
    ensures { AreRows (forms_from 93 6) result.now }
{
    &JUMPS_ROWS
}

static SUMS_JOINED_ROWS: [Row; 1] = [SUMS_JOINED];

/// Two sums, one after the other.
#[tactic(auto, unfolding(plain_forms::specs::Forms::plain_forms))]
pub fn sums_joined() -> &'static [Row]
    ensures { AreRows (forms_from 99 1) result.now }
{
    &SUMS_JOINED_ROWS
}
