//! What a plain instruction does to a symbolic state.
ghost use Rattle.std.specs.Prelude.{◌≡◌, ◌++◌, [], ◌∷◌, map, IfOk, OnOk};
ghost use Rattle.rtl_step.specs.Effect.{register_of as register_spec};
ghost use Rattle.sym_state.specs.State.{Access, needs_at};
ghost use Rattle.term_tree.specs.View.{tree_of};
ghost use Rattle.sym_state.specs.Views.{need_at_of, need_of, state_of};
ghost use Rattle.sym_insns.specs.Effects as spec;
ghost use Rattle.sym_insns.specs.Value.{made_of};
ghost use Rattle.sym_insns.specs.machine.Making.{IsMade, at_place, effect_view, effected_view, regs_of, stores_of, with_effect};

use crate::before::Before;
use crate::operation::Needs;
use crate::value::make;
use bits64::Width;
use plain_data::{Items, Memory};
use rtl_step::{address_of, register_of, width_of};
use rtx_tree::{Code, Rtx};
use std::alloc::Global;
use sym_state::{NeedOf, SymNeed, SymNeeds, SymState, put};
use sym_term::{SymStore, TermMaker};
use term_tree::{Measured, Term};

/// What one part of an instruction does, its terms made.
#[derive(Drop)]
pub enum EffectOf {
    /// Nothing.
    Nothing,
    /// A register is set.
    Sets {
        /// The register's number.
        reg: u64,
        /// What is known of it then.
        value: Term,
    },
    /// A register is unset.
    Unsets {
        /// The register's number.
        reg: u64,
    },
    /// Memory is written.
    Stores {
        /// Where.
        address: Term,
        /// What, in the bits that are written.
        value: Term,
    },
}

/// What one part of an instruction does, and what it needs.
#[derive(Drop)]
pub struct EffectedOf {
    /// What the part does.
    pub effect: EffectOf,
    /// What the part needs.
    pub needs: Needs,
}

/// What has no effect needs what nothing meets.
fn no_effect(alloc: Global) -> Result<EffectedOf, Memory>
    ensures { IfOk result (λ e. effected_view e ≡ spec.no_effect) }
{
    let mut needs = Needs::new(alloc);
    needs.push(NeedOf::Lost {
        reg: 0,
        width: Width::W8,
    })?;
    Ok(EffectedOf {
        effect: EffectOf::Nothing,
        needs,
    })
}

/// An effect without needs.
fn simply(alloc: Global, effect: EffectOf) -> EffectedOf
    ensures { effected_view result ≡ spec.simply (effect_view effect) }
{
    EffectedOf {
        effect,
        needs: Needs::new(alloc),
    }
}

fn set_register(
    maker: &mut TermMaker,
    before: &Before,
    place: &Rtx,
    source: &Rtx,
    w: Width,
) -> Result<EffectedOf, Memory>
    ensures { IfOk result (λ e. effected_view e
        ≡ spec.set_register (register_spec place.now)
        (made_of (regs_of before.now) (stores_of before.now) source.now w)) }
{
    let Some(reg) = register_of(place) else {
        return no_effect(before.alloc);
    };
    let mut needs = Needs::new(before.alloc);
    let value = make(maker, before, source, w, &mut needs)?;
    Ok(EffectedOf {
        effect: EffectOf::Sets { reg, value },
        needs,
    })
}

/// Notes that memory at an address is written.
fn need_access(alloc: Global, address: &Term, w: Width, needs: &mut Needs) -> Result<(), Memory>
    ensures { OnOk result (map need_of needs.new
        ≡ map need_of needs.old ++ Access (tree_of address.now) w ∷ []) }
{
    needs.push(NeedOf::Access {
        address: Measured::of(address.copy(alloc)?),
        width: w,
    })?;
    Ok(())
}

/// The address of a place in memory.
fn make_place(
    maker: &mut TermMaker,
    before: &Before,
    address: &Rtx,
    w: Width,
    needs: &mut Needs,
) -> Result<Term, Memory>
    ensures { IfOk result (λ r. IsMade needs.old needs.new (tree_of r)
        (at_place
        (made_of (regs_of before.now) (stores_of before.now) address.now Width.W64) w)) }
{
    let term = make(maker, before, address, Width::W64, needs)?;
    need_access(before.alloc, &term, w, needs)?;
    Ok(term)
}

fn set_memory(
    maker: &mut TermMaker,
    before: &Before,
    address: &Rtx,
    source: &Rtx,
    w: Width,
) -> Result<EffectedOf, Memory>
    ensures { IfOk result (λ e. effected_view e
        ≡ spec.set_memory
        (made_of (regs_of before.now) (stores_of before.now) address.now Width.W64)
        (made_of (regs_of before.now) (stores_of before.now) source.now w) w) }
{
    let mut needs = Needs::new(before.alloc);
    let value = make(maker, before, source, w, &mut needs)?;
    let address = make_place(maker, before, address, w, &mut needs)?;
    Ok(EffectedOf {
        effect: EffectOf::Stores { address, value },
        needs,
    })
}

fn set_effect(
    maker: &mut TermMaker,
    before: &Before,
    place: &Rtx,
    source: &Rtx,
) -> Result<EffectedOf, Memory>
    ensures { IfOk result (λ e. effected_view e
        ≡ spec.set_effect (regs_of before.now) (stores_of before.now)
        place.now source.now) }
{
    let Some(w) = width_of(place.mode) else {
        return no_effect(before.alloc);
    };
    match address_of(place) {
        None => set_register(maker, before, place, source, w),
        Some(address) => set_memory(maker, before, address, source, w),
    }
}

fn unset(alloc: Global, reg: Option<u64>) -> Result<EffectedOf, Memory>
    ensures { IfOk result (λ e. effected_view e ≡ spec.unset reg) }
{
    match reg {
        None => no_effect(alloc),
        Some(reg) => Ok(simply(alloc, EffectOf::Unsets { reg })),
    }
}

fn clobber_effect(alloc: Global, place: &Rtx) -> Result<EffectedOf, Memory>
    ensures { IfOk result (λ e. effected_view e ≡ spec.clobber_effect place.now) }
{
    match place.code {
        Code::Mem | Code::Scratch => Ok(simply(alloc, EffectOf::Nothing)),
        _ => unset(alloc, register_of(place)),
    }
}

/// The effect of a `set`, a `use` or a `clobber`.
fn effect_of(maker: &mut TermMaker, before: &Before, x: &Rtx) -> Result<EffectedOf, Memory>
    ensures { IfOk result (λ e. effected_view e
        ≡ spec.effect_of (regs_of before.now) (stores_of before.now) x.now) }
{
    match (x.code, x.kids.as_slice()) {
        (Code::Set, [place, source]) => set_effect(maker, before, place, source),
        (Code::Use, [_]) => Ok(simply(before.alloc, EffectOf::Nothing)),
        (Code::Clobber, [place]) => clobber_effect(before.alloc, place),
        _ => no_effect(before.alloc),
    }
}

/// Each part's effect, all by one state.
fn all_effects(
    maker: &mut TermMaker,
    before: &Before,
    parts: &[Rtx],
) -> Result<Items<EffectedOf>, Memory>
    ensures { IfOk result (λ effects. map effected_view effects
        ≡ map (spec.effect_of (regs_of before.now) (stores_of before.now)) parts.now) }
{
    let mut effects = Items::new(before.alloc);
    for part in parts {
        effects.push(effect_of(maker, before, part)?)?;
    }
    Ok(effects)
}

fn one_effect(maker: &mut TermMaker, before: &Before, x: &Rtx) -> Result<Items<EffectedOf>, Memory>
    ensures { IfOk result (λ effects. map effected_view effects
        ≡ spec.effect_of (regs_of before.now) (stores_of before.now) x.now ∷ []) }
{
    let mut effects = Items::new(before.alloc);
    effects.push(effect_of(maker, before, x)?)?;
    Ok(effects)
}

/// The effects of an instruction that goes on to the next, all by one state.
fn effects_of(maker: &mut TermMaker, before: &Before, x: &Rtx) -> Result<Items<EffectedOf>, Memory>
    ensures { IfOk result (λ effects. map effected_view effects
        ≡ spec.effects_of (regs_of before.now) (stores_of before.now) x.now) }
{
    match x.code {
        Code::Parallel => all_effects(maker, before, x.kids.as_slice()),
        _ => one_effect(maker, before, x),
    }
}

/// Puts needs of an instruction at a place behind those that were met before.
#[tactic(auto, using(crate::proofs::Steps::needs_step))]
pub fn add_needs(all: &mut SymNeeds, index: u32, needs: Needs) -> Result<(), Memory>
    ensures { OnOk result (map need_at_of all.new
        ≡ map need_at_of all.old ++ needs_at index (map need_of needs)) }
{
    for what in needs.into_vec() {
        all.push(SymNeed { index, what })?;
    }
    Ok(())
}

/// Makes an effect.
fn change(state: &mut SymState, effect: EffectOf) -> Result<(), Memory>
    ensures { OnOk result (state_of state.new
        ≡ with_effect (effect_view effect) (state_of state.old)) }
{
    match effect {
        EffectOf::Nothing => Ok(()),
        EffectOf::Sets { reg, value } => put(&mut state.regs, reg, Some(value)),
        EffectOf::Unsets { reg } => put(&mut state.regs, reg, None),
        EffectOf::Stores { address, value } => state.stores.push(SymStore {
            address: Measured::of(address),
            value: Measured::of(value),
        }),
    }
}

/// Makes an effect, with its needs at a place.
fn make_effect(state: &mut SymState, index: u32, effected: EffectedOf) -> Result<(), Memory>
    ensures { OnOk result (state_of state.new
        ≡ spec.make index (effected_view effected) (state_of state.old)) }
{
    let EffectedOf { effect, needs } = effected;
    change(state, effect)?;
    add_needs(&mut state.needs, index, needs)
}

/// Makes all effects, in order.
#[tactic(auto, using(crate::proofs::Steps::make_more))]
fn make_effects(state: &mut SymState, index: u32, effects: Items<EffectedOf>) -> Result<(), Memory>
    ensures { OnOk result (state_of state.new
        ≡ spec.make_all index (map effected_view effects) (state_of state.old)) }
{
    for effect in effects.into_vec() {
        make_effect(state, index, effect)?;
    }
    Ok(())
}

/// Runs a plain instruction at a place.
pub fn run_plain(
    maker: &mut TermMaker,
    alloc: Global,
    state: &mut SymState,
    index: u32,
    x: &Rtx,
) -> Result<(), Memory>
    ensures { OnOk result (state_of state.new ≡ spec.after_plain index x.now (state_of state.old)) }
{
    let before = Before {
        alloc,
        regs: &state.regs,
        stores: &state.stores,
    };
    let effects = effects_of(maker, &before, x)?;
    make_effects(state, index, effects)
}
