//! The operands of a shape that are tried.
ghost use Rattle.std.specs.Prelude.{◌≡◌, ◌∷◌, IfOk, map};
ghost use Rattle.lint_made.specs.declared.candidate.Candidate.TheVariants as candidate;
ghost use Rattle.lint_made.specs.Candidates.{tree_with as tree_over};
ghost use Rattle.lint_functions.specs.Operands as spec;

use lint_made::{Candidate, tree_with};
use plain_data::{Items, Memory};
use plain_shape::Part;
use rtx_tree::{Kids, Mode, VIRTUAL_STACK_VARS};
use std::alloc::Global;

type Candidates = Items<Candidate>;

static BYTES: [i64; 5] = [0, 1, -1, -128, 127];

static HALVES: [i64; 7] = [0, 1, -1, -2048, 2047, -32_768, 32_767];

static WORDS: [i64; 9] = [
    0,
    1,
    -1,
    -2048,
    2047,
    -2049,
    2048,
    -2_147_483_648,
    2_147_483_647,
];

static DOUBLES: [i64; 11] = [
    0,
    1,
    -1,
    -2048,
    2047,
    -2049,
    2048,
    -2_147_483_648,
    2_147_483_648,
    i64::MIN,
    i64::MAX,
];

static WORD_COUNTS: [i64; 2] = [1, 31];

static DOUBLE_COUNTS: [i64; 2] = [1, 63];

/// The constants at the ends of what a mode holds.
fn ends(mode: Mode) -> &'static [i64]
    ensures { result.now ≡ spec.ends mode }
{
    match mode {
        Mode::QI => &BYTES,
        Mode::HI => &HALVES,
        Mode::SI => &WORDS,
        Mode::DI | Mode::Void => &DOUBLES,
    }
}

/// The counts at the ends of those by which a mode is shifted.
fn counts(mode: Mode) -> &'static [i64]
    ensures { result.now ≡ spec.counts mode }
{
    match mode {
        Mode::SI => &WORD_COUNTS,
        _ => &DOUBLE_COUNTS,
    }
}

#[tactic(auto, using(lint_choices::proofs::PushedLaws::mapped_next, lint_choices::proofs::PushedLaws::pushed_ends))]
fn numbers(alloc: Global, numbers: &[i64]) -> Result<Candidates, Memory>
    ensures { IfOk result (λ out. out ≡ spec.numbers numbers.now) }
{
    let mut out = Items::new(alloc);
    for number in numbers {
        out.push(Candidate::Number { number: *number })?;
    }
    Ok(out)
}

fn memories(alloc: Global, mode: Mode) -> Result<Candidates, Memory>
    ensures { IfOk result (λ out. out ≡ spec.memories mode) }
{
    let memories = [
        Candidate::Memory { mode, offset: 0 },
        Candidate::Memory {
            mode,
            offset: -2048,
        },
        Candidate::Memory { mode, offset: 2047 },
    ];
    Items::from_slice(alloc, &memories)
}

fn frames(alloc: Global) -> Result<Candidates, Memory>
    ensures { IfOk result (λ out. out ≡ spec.frames) }
{
    let frames = [
        Candidate::Address { offset: -8 },
        Candidate::Address { offset: -2056 },
        Candidate::Address { offset: -40_000 },
    ];
    Items::from_slice(alloc, &frames)
}

/// A register in front of other candidates.
fn register_or(alloc: Global, mode: Mode, others: Candidates) -> Result<Candidates, Memory>
    ensures { IfOk result (λ out. out ≡ candidate.Register mode ∷ others) }
{
    let register = Items::from_slice(alloc, &[Candidate::Register { mode }])?;
    register.append(others)
}

/// What may stand in the place of a part.
fn candidates_of(alloc: Global, part: Part) -> Result<Candidates, Memory>
    ensures { IfOk result (λ out. out ≡ spec.candidates_of part) }
{
    match part {
        Part::Register(mode) => Items::from_slice(alloc, &[Candidate::Register { mode }]),
        Part::AnyRegister => Items::from_slice(alloc, &[Candidate::Register { mode: Mode::DI }]),
        Part::Constant(mode) => numbers(alloc, ends(mode)),
        Part::RegisterOrConstant(mode) => register_or(alloc, mode, numbers(alloc, ends(mode))?),
        Part::Count(mode) => register_or(alloc, Mode::QI, numbers(alloc, counts(mode))?),
        Part::Memory(mode) => memories(alloc, mode),
        Part::RegisterOrMemory(mode) => register_or(alloc, mode, memories(alloc, mode)?),
        Part::Symbol => Items::from_slice(alloc, &[Candidate::Symbol]),
        Part::Frame => frames(alloc),
    }
}

/// The register over which a part is tried.
fn base_of(part: Part, reg: u32) -> u32
    ensures { result ≡ spec.base_of part reg }
{
    match part {
        Part::Frame => VIRTUAL_STACK_VARS,
        _ => reg,
    }
}

/// The trees of candidates over a register.
#[tactic(auto, using(lint_choices::proofs::PushedLaws::mapped_next, lint_choices::proofs::PushedLaws::pushed_ends))]
fn trees_of(alloc: Global, reg: u32, candidates: &[Candidate]) -> Result<Kids, Memory>
    ensures { IfOk result (λ trees. trees ≡ map (tree_over reg) candidates.now) }
{
    let mut trees = Items::new(alloc);
    for candidate in candidates {
        trees.push(tree_with(alloc, reg, *candidate)?)?;
    }
    Ok(trees)
}

/// The operands that are tried in the place of a part, over a register.
pub fn operands_of(alloc: Global, part: Part, reg: u32) -> Result<Kids, Memory>
    ensures { IfOk result (λ trees. trees ≡ spec.operands_of part reg) }
{
    let candidates = candidates_of(alloc, part)?;
    trees_of(alloc, base_of(part, reg), candidates.as_slice())
}
