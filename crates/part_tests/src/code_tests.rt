//! Functions and lines without a text.
ghost use Rattle.std.specs.Prelude.{◌≡◌, ◌<◌, ◌^◌, All, true, IfOk, length};

use plain_data::{Items, Memory};
use rtl_func::{CheckRefusal, check, reaches_exit, successors};
use rtx_tree::{Code, Function, Insn, Kind, Mode, Name, Rtx};
use rv_text::{Line, parse_line, print_line};
use std::alloc::Global;

fn insn(alloc: Global, uid: u32, kind: Kind, pattern: Rtx) -> Insn {
    Insn {
        uid,
        kind,
        pattern,
        uses: Items::new(alloc),
    }
}

/// A function with these instructions.
fn function_of(alloc: Global, insns: Items<Insn>) -> Result<Function, Memory>
    ensures { IfOk result (λ f. length f.insns ≡ length insns) }
{
    Ok(Function {
        name: Name::of(alloc, b"f")?,
        insns,
        locals: 16,
        result: None,
        result_reg: 10,
    })
}

/// A function with one instruction.
fn function(alloc: Global, kind: Kind, pattern: Rtx) -> Result<Function, Memory>
    ensures { IfOk result (λ f. length f.insns ≡ 1) }
{
    let mut insns = Items::new(alloc);
    insns.push(insn(alloc, 7, kind, pattern))?;
    function_of(alloc, insns)
}

fn are_short(functions: &[Function]) -> bool
    ensures { result ≡ true → All (λ f. length f.insns < 2 ^ 32) functions.now }
{
    functions.iter().all(|f| f.insns.len() < 100_000)
}

/// The rule that is told of a function, or 0.
fn rule_of(alloc: Global, f: Function) -> Result<u8, Memory> {
    let functions = [f];
    if !are_short(&functions) {
        return Err(Memory);
    }
    match check(alloc, &functions, 0) {
        Ok(()) => Ok(0),
        Err(CheckRefusal::IllFormed { rule, .. }) => Ok(rule),
        Err(CheckRefusal::Memory) => Err(Memory),
    }
}

/// The rule that is told of a function with one instruction, or 0.
fn rule(alloc: Global, kind: Kind, pattern: Rtx) -> Result<u8, Memory> {
    let f = function(alloc, kind, pattern)?;
    rule_of(alloc, f)
}

/// A register of 64 bits.
fn reg(alloc: Global, number: u32) -> Rtx {
    Rtx::reg(alloc, Mode::DI, number)
}

fn set(alloc: Global, source: Rtx) -> Result<Rtx, Memory> {
    Rtx::of_two(alloc, Code::Set, Mode::Void, reg(alloc, 64), source)
}

fn leave(alloc: Global) -> Rtx {
    Rtx::leaf(alloc, Code::Return, Mode::Void, 0)
}

/// Whether a mark with a pattern breaks a rule, whatever the pattern.
fn breaks(alloc: Global, kind: Kind, want: u8) -> Result<bool, Memory> {
    let moves = set(alloc, reg(alloc, 10))?;
    Ok(rule(alloc, kind, leave(alloc))? == want && rule(alloc, kind, moves)? == want)
}

/// Labels and barriers with a pattern.
#[test]
fn patterns_of_marks(rt: HostRuntime) {
    assert!(rt; matches!(breaks(rt.alloc(), Kind::Label, 3), Ok(true)));
    assert!(rt; matches!(breaks(rt.alloc(), Kind::Barrier, 0), Ok(true)));
}

/// The rule that is told of a set with this source, or 0.
fn rule_of_source(alloc: Global, source: Rtx) -> Result<u8, Memory> {
    rule(alloc, Kind::Plain, set(alloc, source)?)
}

/// The rule that is told of a set whose source is an operator over two parts, or 0.
fn rule_of_two(alloc: Global, code: Code, a: Rtx, b: Rtx) -> Result<u8, Memory> {
    rule_of_source(alloc, Rtx::of_two(alloc, code, Mode::DI, a, b)?)
}

/// The rule that is told of a set whose source is an operand of a pattern, or 0.
fn rule_of_operand(alloc: Global) -> Result<u8, Memory> {
    let operand = Rtx::of_one(alloc, Code::MatchOperand, Mode::DI, reg(alloc, 65))?;
    rule_of_source(alloc, operand)
}

/// A number.
fn one(alloc: Global) -> Rtx {
    Rtx::const_int(alloc, 1)
}

/// A parallel without parts.
fn nothing(alloc: Global) -> Rtx {
    Rtx::of_kids(alloc, Code::Parallel, Mode::Void, Items::new(alloc))
}

/// Sources of a set that no text writes: an operator over two parts.
#[test]
fn operators_that_no_text_writes(rt: HostRuntime) {
    let alloc = rt.alloc();
    let x = reg(alloc, 65);
    assert!(rt; matches!(rule_of_two(alloc, Code::Plus, x, nothing(alloc)), Ok(4)));
    let x = one(alloc);
    assert!(rt; matches!(rule_of_two(alloc, Code::Lt, x, one(alloc)), Ok(4)));
}

/// Sources of a set that no text writes: two parts below a code that is no operator over two.
#[test]
fn codes_that_are_no_operators_over_two(rt: HostRuntime) {
    let alloc = rt.alloc();
    let x = reg(alloc, 65);
    assert!(rt; matches!(rule_of_two(alloc, Code::Neg, x, one(alloc)), Ok(4)));
    let x = reg(alloc, 65);
    assert!(rt; matches!(rule_of_two(alloc, Code::Set, x, reg(alloc, 65)), Ok(4)));
}

/// Sources of a set that no text writes: an operator over one part, a register and a leaf.
#[test]
fn leaves_that_no_text_writes(rt: HostRuntime) {
    assert!(rt; matches!(rule_of_operand(rt.alloc()), Ok(4)));
    let x = reg(rt.alloc(), 33);
    assert!(rt; matches!(rule_of_source(rt.alloc(), x), Ok(4)));
    let x = nothing(rt.alloc());
    assert!(rt; matches!(rule_of_source(rt.alloc(), x), Ok(4)));
}

fn pc(alloc: Global) -> Rtx {
    Rtx::leaf(alloc, Code::Pc, Mode::Void, 0)
}

fn label(alloc: Global, uid: i64) -> Result<Rtx, Memory> {
    Rtx::of_one(
        alloc,
        Code::LabelRef,
        Mode::Void,
        Rtx::const_int(alloc, uid),
    )
}

/// A jump to one of two places, by a test.
fn jump(alloc: Global, test: Rtx, holds: Rtx, fails: Rtx) -> Result<Rtx, Memory> {
    let choice = Rtx::of_three(alloc, Code::IfThenElse, Mode::Void, test, holds, fails)?;
    Rtx::of_two(alloc, Code::Set, Mode::Void, pc(alloc), choice)
}

/// A branch to the label 7 that falls through where its condition holds.
fn other_branch(alloc: Global) -> Result<Function, Memory>
    ensures { IfOk result (λ f. length f.insns ≡ 1) }
{
    let to = label(alloc, 7)?;
    let pattern = jump(alloc, reg(alloc, 10), pc(alloc), to)?;
    function(alloc, Kind::Jump, pattern)
}

/// A branch that falls through where its condition holds leads nowhere.
#[test]
fn branches_the_other_way(rt: HostRuntime) {
    let Ok(f) = other_branch(rt.alloc()) else {
        panic!(rt; "no function");
    };
    let next = successors(&f, 0);
    assert!(rt; next.first.is_none() && next.second.is_none());
}

/// A branch to the label 5000.
fn branch(alloc: Global) -> Result<Rtx, Memory> {
    let zero = Rtx::const_int(alloc, 0);
    let test = Rtx::of_two(alloc, Code::Ne, Mode::Void, reg(alloc, 10), zero)?;
    let to = label(alloc, 5000)?;
    jump(alloc, test, to, pc(alloc))
}

/// Appends a label, and the branch to the last one with its number.
fn push_link(alloc: Global, label: u32, jump: u32, insns: &mut Items<Insn>) -> Result<(), Memory> {
    insns.push(insn(alloc, label, Kind::Label, nothing(alloc)))?;
    let pattern = branch(alloc)?;
    insns.push(insn(alloc, jump, Kind::Jump, pattern))
}

/// 5,000 labels, each with a branch to the last.
fn long_chain(alloc: Global) -> Result<Function, Memory> {
    let mut insns = Items::new(alloc);
    for uid in 1..5_001 {
        push_link(alloc, uid, uid + 20_000, &mut insns)?;
    }
    function_of(alloc, insns)
}

/// Whether the exit of a long function is reached.
fn is_left(alloc: Global, f: &Function) -> bool {
    f.insns.len() < 100_000 && matches!(reaches_exit(alloc, f), Ok(true))
}

/// 5,000 labels, each with a branch to the last: a label is looked up at once.
#[test]
fn long_chains(rt: HostRuntime) {
    let Ok(f) = long_chain(rt.alloc()) else {
        panic!(rt; "no function");
    };
    assert!(rt; is_left(rt.alloc(), &f));
    assert!(rt; matches!(rule_of(rt.alloc(), f), Ok(0)));
}

/// A line with a register that its mnemonic doesn't have.
fn spoilt_line(alloc: Global) -> Option<Line> {
    match parse_line(alloc, b"sd s1,-8(sp)") {
        Ok(Some(line)) => Some(Line { rd: 1, ..line }),
        _ => None,
    }
}

/// Whether a line does nothing.
fn does_nothing(line: &Line) -> bool {
    line.action().is_none()
}

/// Whether nothing is printed of a line.
fn is_not_printed(alloc: Global, line: &Line) -> bool {
    let mut out = Vec::new(alloc);
    print_line(alloc, line, &mut out).is_ok() && out.is_empty()
}

#[test]
fn spoilt_lines(rt: HostRuntime) {
    let Some(spoilt) = spoilt_line(rt.alloc()) else {
        panic!(rt; "no line");
    };
    assert!(rt; does_nothing(&spoilt));
    assert!(rt; is_not_printed(rt.alloc(), &spoilt));
}
