//! Inputs and outputs, by the pattern.
ghost use Rattle.std.specs.Prelude.{◌≡◌, ◌||◌, [], ◌∷◌};
ghost use Rattle.std.specs.Int.{cast_unsigned, w64};
ghost use Rattle.std.specs.List.{flat_map, list_any};
ghost use Rattle.rtx_tree.specs.Tree.{head_of};
ghost use Rattle.md_constr.specs.Inputs as inputs;
ghost use Rattle.reload_operands.specs.Directions as spec;

use md_constr::effects_of;
use rtx_tree::{Code, Rtx};

fn is_numbered(x: &Rtx, number: u32) -> bool
    ensures { result ≡ spec.has_number number (cast_unsigned w64 (head_of x.now).number ∷ []) }
{
    x.number.cast_unsigned() == u64::from(number)
}

/// Whether an expression itself stands for an operand.
fn stands_for(x: &Rtx, number: u32) -> bool
    ensures { result ≡
        spec.has_number number (inputs.operand_here (head_of x.now).code (head_of x.now).number) }
{
    match x.code {
        Code::MatchOperand | Code::MatchDup | Code::MatchScratch | Code::MatchOperator => {
            is_numbered(x, number)
        }
        _ => false,
    }
}

/// Whether an expression of a pattern takes an operand's value.
#[tactic(auto, using(crate::proofs::NumberLaws::takes_out))]
fn takes(x: &Rtx, number: u32) -> bool
    ensures { result ≡ spec.has_number number (inputs.taken_in x.now) }
{
    if stands_for(x, number) {
        return true;
    }
    for kid in x.kids.as_slice() {
        if takes(kid, number) {
            return true;
        }
    }
    false
}

fn any_takes(parts: &[Rtx], number: u32) -> bool
    ensures { result ≡ list_any (λ part. spec.has_number number (inputs.taken_in part)) parts.now }
{
    parts.iter().any(|part| takes(part, number))
}

/// Whether one of some parts takes an operand's value.
fn parts_take(parts: &[Rtx], number: u32) -> bool
    ensures { result ≡ spec.has_number number (flat_map inputs.taken_in parts.now) }
{
    any_takes(parts, number)
}

fn target_takes(target: &Rtx, number: u32) -> bool
    ensures { result ≡ spec.has_number number (inputs.taken_at target.now) }
{
    match (target.code, target.kids.as_slice()) {
        (Code::Subreg, [inner]) => parts_take(inner.kids.as_slice(), number),
        (_, parts) => parts_take(parts, number),
    }
}

#[tactic(auto, using(crate::proofs::NumberLaws::has_in_both))]
fn set_takes(target: &Rtx, source: &Rtx, number: u32) -> bool
    ensures { result ≡ (spec.has_number number
        (inputs.taken_at target.now) || spec.has_number number (inputs.taken_in source.now)) }
{
    target_takes(target, number) || takes(source, number)
}

/// Whether an effect takes an operand's value.
#[tactic(auto, using(crate::proofs::NumberLaws::has_in_both))]
fn effect_takes(effect: &Rtx, number: u32) -> bool
    ensures { result ≡ spec.has_number number (inputs.taken_by effect.now) }
{
    match (effect.code, effect.kids.as_slice()) {
        (Code::Set, [target, source]) => set_takes(target, source, number),
        (
            Code::Use
            | Code::Clobber
            | Code::MatchOperand
            | Code::MatchDup
            | Code::MatchScratch
            | Code::MatchOperator
            | Code::MatchOpDup,
            _,
        ) => false,
        _ => takes(effect, number),
    }
}

fn any_effect_takes(effects: &[Rtx], number: u32) -> bool
    ensures { result ≡
        list_any (λ effect. spec.has_number number (inputs.taken_by effect)) effects.now }
{
    effects.iter().any(|effect| effect_takes(effect, number))
}

/// Whether a pattern takes an operand's value.
pub fn is_input(pattern: &Rtx, number: u32) -> bool
    ensures { result ≡ spec.is_input pattern.now number }
{
    any_effect_takes(effects_of(pattern), number)
}

/// Whether an operand is a target, or its low part is.
fn is_target(target: &Rtx, number: u32) -> bool
    ensures { result ≡ spec.has_number number (inputs.changed_at target.now) }
{
    match (target.code, target.kids.as_slice()) {
        (Code::Subreg, [inner]) => stands_for(inner, number),
        _ => stands_for(target, number),
    }
}

fn is_set_by(effect: &Rtx, number: u32) -> bool
    ensures { result ≡ spec.has_number number (inputs.set_by effect.now) }
{
    match (effect.code, effect.kids.as_slice()) {
        (Code::Set, [target, _]) => is_target(target, number),
        _ => false,
    }
}

fn is_clobbered_by(effect: &Rtx, number: u32) -> bool
    ensures { result ≡ spec.has_number number (inputs.clobbered_by effect.now) }
{
    match (effect.code, effect.kids.as_slice()) {
        (Code::Clobber, [target]) => is_target(target, number),
        _ => false,
    }
}

/// Whether a `set` or a `clobber` of a pattern changes an operand.
pub fn is_changed_by(effect: &Rtx, number: u32) -> bool
    ensures { result ≡ spec.has_number number (inputs.changed_by effect.now) }
{
    match (effect.code, effect.kids.as_slice()) {
        (Code::Set, [target, _]) => is_target(target, number),
        (Code::Clobber, [target]) => is_target(target, number),
        _ => false,
    }
}

fn any_effect_sets(effects: &[Rtx], number: u32) -> bool
    ensures { result ≡
        list_any (λ effect. spec.has_number number (inputs.set_by effect)) effects.now }
{
    effects.iter().any(|effect| is_set_by(effect, number))
}

/// Whether a `set` of a pattern sets an operand, or its low part.
pub fn is_output(pattern: &Rtx, number: u32) -> bool
    ensures { result ≡ spec.is_output pattern.now number }
{
    any_effect_sets(effects_of(pattern), number)
}

fn any_effect_clobbers(effects: &[Rtx], number: u32) -> bool
    ensures { result ≡
        list_any (λ effect. spec.has_number number (inputs.clobbered_by effect)) effects.now }
{
    effects.iter().any(|effect| is_clobbered_by(effect, number))
}

/// Whether a `clobber` of a pattern names an operand.
pub fn is_clobbered(pattern: &Rtx, number: u32) -> bool
    ensures { result ≡ spec.is_clobbered pattern.now number }
{
    any_effect_clobbers(effects_of(pattern), number)
}

fn is_operator(effect: &Rtx) -> bool
    ensures { result ≡ spec.is_operator_code (head_of effect.now).code }
{
    matches!(effect.code, Code::MatchOperator | Code::MatchOpDup)
}

fn is_scratch_here(x: &Rtx, number: u32) -> bool
    ensures { result ≡
        spec.has_number number (spec.scratch_here (head_of x.now).code (head_of x.now).number) }
{
    match x.code {
        Code::MatchScratch => is_numbered(x, number),
        _ => false,
    }
}

/// Whether an operand is a scratch of an expression of a pattern.
#[tactic(auto, using(crate::proofs::NumberLaws::scratches_out))]
fn has_scratch(x: &Rtx, number: u32) -> bool
    ensures { result ≡ spec.has_number number (spec.scratches_in x.now) }
{
    if is_scratch_here(x, number) {
        return true;
    }
    for kid in x.kids.as_slice() {
        if has_scratch(kid, number) {
            return true;
        }
    }
    false
}

fn reads_scratch(effect: &Rtx, number: u32) -> bool
    ensures { result ≡ spec.reads_scratch number (head_of effect.now).code effect.now }
{
    match effect.code {
        Code::Clobber => false,
        _ => has_scratch(effect, number),
    }
}

fn hides(effect: &Rtx, number: u32) -> bool
    ensures { result ≡ spec.hides number effect.now }
{
    (is_operator(effect) && takes(effect, number)) || reads_scratch(effect, number)
}

fn any_hides(effects: &[Rtx], number: u32) -> bool
    ensures { result ≡ list_any (spec.hides number) effects.now }
{
    effects.iter().any(|effect| hides(effect, number))
}

/// Whether an operand stands inside an effect of which the pattern doesn't say what it does with
/// it.
pub fn is_hidden(pattern: &Rtx, number: u32) -> bool
    ensures { result ≡ spec.is_hidden pattern.now number }
{
    any_hides(effects_of(pattern), number)
}
