//! What a line reads, and what it needs.
ghost use Rattle.std.specs.Prelude.{◌≡◌, ◌++◌, [], ◌∷◌, map, option_map, IfOk, OnOk};
ghost use Rattle.std.specs.Int.{cast_unsigned, w64};
ghost use Rattle.bits64.specs.declared.Width.TheVariants.{W64};
ghost use Rattle.term_tree.specs.View.{tree_of};
ghost use Rattle.term_mean.specs.Sums as sums;
ghost use Rattle.term_mean.specs.Compared as comparisons;
ghost use Rattle.sym_state.specs.State.{Symbol};
ghost use Rattle.sym_state.specs.Views.{changed_of, need_of};
ghost use Rattle.sym_state.specs.machine.Places.{listed};
ghost use Rattle.sym_lines.specs.Step as spec;
ghost use Rattle.sym_lines.specs.machine.Parts as parts;
ghost use Rattle.sym_lines.specs.machine.Parts.{AreNoted};

use bits64::Width;
use plain_data::Memory;
use rv_text::{Line, Source};
use std::alloc::Global;
use sym_state::{NeedOf, SymNeed, SymNeeds, SymRegs, read, read_need};
use sym_term::TermMaker;
use term_sums::constant_term;
use term_tree::{Atom, Measured, Term};

/// What a register holds.
pub(crate) fn register(
    maker: &mut TermMaker,
    alloc: Global,
    regs: &SymRegs,
    reg: u8,
) -> Result<Term, Memory>
    ensures { IfOk result (λ r. tree_of r ≡ spec.register (map changed_of regs.now) reg) }
{
    read(maker, alloc, regs, u64::from(reg), Width::W64)
}

/// A number of a line.
fn number(alloc: Global, number: i64) -> Term
    ensures { tree_of result ≡ sums.constant W64 (cast_unsigned w64 number) }
{
    constant_term(alloc, Width::W64, number.cast_unsigned())
}

/// What stands at a source.
pub(crate) fn source(
    maker: &mut TermMaker,
    alloc: Global,
    regs: &SymRegs,
    line: &Line,
    source: Source,
) -> Result<Term, Memory>
    ensures { IfOk result (λ r. tree_of r ≡ spec.source (map changed_of regs.now) line.now source) }
{
    match source {
        Source::First => register(maker, alloc, regs, line.rs),
        Source::Second => register(maker, alloc, regs, line.rt),
        Source::ReturnAddress => register(maker, alloc, regs, 1),
        Source::Immediate => Ok(number(alloc, line.imm)),
        Source::Constant { number: constant } => Ok(number(alloc, constant)),
    }
}

/// The address of a line's access.
pub(crate) fn address(
    maker: &mut TermMaker,
    alloc: Global,
    regs: &SymRegs,
    line: &Line,
) -> Result<Term, Memory>
    ensures { IfOk result (λ r. tree_of r ≡ spec.address (map changed_of regs.now) line.now) }
{
    let base = register(maker, alloc, regs, line.rs)?;
    let mut atoms = Vec::new(alloc);
    atoms.push(Atom {
        coefficient: 1,
        term: base,
    })?;
    maker.summed(Width::W64, line.imm.cast_unsigned(), atoms.as_slice())
}

/// The low bits of `rt`.
pub(crate) fn stored(
    maker: &mut TermMaker,
    alloc: Global,
    regs: &SymRegs,
    line: &Line,
    w: Width,
) -> Result<Term, Memory>
    ensures { IfOk result (λ r. tree_of r
        ≡ comparisons.low_bits w (spec.register (map changed_of regs.now) line.now.rt)) }
{
    let value = register(maker, alloc, regs, line.rt)?;
    maker.cut(w, &value)
}

/// The need that a register is set, where that is not known.
fn register_need(regs: &SymRegs, reg: u8) -> Option<NeedOf>
    ensures { listed (option_map need_of result)
        ≡ spec.register_needs (map changed_of regs.now) reg }
{
    read_need(regs, u64::from(reg), Width::W8)
}

/// What reading a source needs.
fn source_need(regs: &SymRegs, line: &Line, source: Source) -> Option<NeedOf>
    ensures { listed (option_map need_of result)
        ≡ spec.source_needs (map changed_of regs.now) line.now source }
{
    match source {
        Source::First => register_need(regs, line.rs),
        Source::Second => register_need(regs, line.rt),
        Source::ReturnAddress => register_need(regs, 1),
        Source::Immediate | Source::Constant { .. } => None,
    }
}

/// Notes a need of the line at a place.
pub(crate) fn note(needs: &mut SymNeeds, index: u32, what: NeedOf) -> Result<(), Memory>
    ensures { OnOk result (AreNoted needs.old needs.new index (need_of what ∷ [])) }
{
    needs.push(SymNeed { index, what })
}

/// Notes a need, if there is one.
fn note_any(needs: &mut SymNeeds, index: u32, need: Option<NeedOf>) -> Result<(), Memory>
    ensures { OnOk result (AreNoted needs.old needs.new index (listed (option_map need_of need))) }
{
    match need {
        Some(what) => note(needs, index, what),
        None => Ok(()),
    }
}

/// Notes that a register has to be set.
pub(crate) fn need_register(
    needs: &mut SymNeeds,
    index: u32,
    regs: &SymRegs,
    reg: u8,
) -> Result<(), Memory>
    ensures { OnOk result (AreNoted needs.old needs.new index
        (spec.register_needs (map changed_of regs.now) reg)) }
{
    note_any(needs, index, register_need(regs, reg))
}

fn need_source(
    needs: &mut SymNeeds,
    index: u32,
    regs: &SymRegs,
    line: &Line,
    source: Source,
) -> Result<(), Memory>
    ensures { OnOk result (AreNoted needs.old needs.new index
        (spec.source_needs (map changed_of regs.now) line.now source)) }
{
    note_any(needs, index, source_need(regs, line, source))
}

/// Notes what reading two sources needs.
#[tactic(auto, using(crate::proofs::Needs::needs_join))]
pub(crate) fn need_sources(
    needs: &mut SymNeeds,
    index: u32,
    regs: &SymRegs,
    line: &Line,
    left: Source,
    right: Source,
) -> Result<(), Memory>
    ensures { OnOk result (AreNoted needs.old needs.new index
        (parts.both_needs (map changed_of regs.now) line.now left right)) }
{
    need_source(needs, index, regs, line, left)?;
    need_source(needs, index, regs, line, right)
}

/// Notes what an access needs: that `rs` is set, and memory at the address.
#[tactic(auto, using(crate::proofs::Needs::needs_join))]
pub(crate) fn need_access(
    needs: &mut SymNeeds,
    index: u32,
    regs: &SymRegs,
    line: &Line,
    at: Term,
    w: Width,
) -> Result<(), Memory>
    ensures { OnOk result (AreNoted needs.old needs.new index
        (parts.access_needs (map changed_of regs.now) line.now (tree_of at) w)) }
{
    need_register(needs, index, regs, line.rs)?;
    note(
        needs,
        index,
        NeedOf::Access {
            address: Measured::of(at),
            width: w,
        },
    )
}

/// Notes what a store needs: that `rt` is set, and what its access needs.
#[tactic(auto, using(crate::proofs::Needs::needs_join))]
pub(crate) fn need_store(
    needs: &mut SymNeeds,
    index: u32,
    regs: &SymRegs,
    line: &Line,
    at: Term,
    w: Width,
) -> Result<(), Memory>
    ensures { OnOk result (AreNoted needs.old needs.new index
        (spec.register_needs (map changed_of regs.now) line.now.rt
        ++ parts.access_needs (map changed_of regs.now) line.now (tree_of at) w)) }
{
    need_register(needs, index, regs, line.rt)?;
    need_access(needs, index, regs, line, at, w)
}

/// Notes that a line's symbol has to have an address.
pub(crate) fn need_symbol(
    alloc: Global,
    needs: &mut SymNeeds,
    index: u32,
    line: &Line,
) -> Result<(), Memory>
    ensures { OnOk result (AreNoted needs.old needs.new index (Symbol line.now.target ∷ [])) }
{
    let name = line.target.copy(alloc)?;
    note(needs, index, NeedOf::Symbol { name })
}
