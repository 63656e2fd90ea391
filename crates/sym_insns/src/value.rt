//! The value of an expression as a term.
ghost use Rattle.std.specs.Prelude.{◌≡◌, ◌++◌, [], ◌∷◌, map, Some, option_map, IfOk, OnOk};
ghost use Rattle.rtx_tree.specs.Code.{class_of_code};
ghost use Rattle.rtx_tree.specs.declared.tree.Rtx.{out-Rtx};
ghost use Rattle.rtl_step.specs.Value as step;
ghost use Rattle.rtl_step.specs.Value.{first_width, count_width};
ghost use Rattle.term_tree.specs.View.{tree_of};
ghost use Rattle.bits64.specs.Operators.{asks_of};
ghost use Rattle.sym_state.specs.Makers.{related, term_of};
ghost use Rattle.sym_state.specs.State.{Access};
ghost use Rattle.sym_state.specs.Views.{need_of};
ghost use Rattle.sym_state.specs.machine.Places.{listed};
ghost use Rattle.sym_insns.specs.Value as spec;
ghost use Rattle.sym_insns.specs.Value.{made_of};
ghost use Rattle.sym_insns.specs.machine.Making.{IsMade, reading_by_mode, regs_of, stores_of};

use crate::before::Before;
use crate::operation::{Needs, Operation, binary, compared, conversion_of, need_divisor, unary};
use bits64::{Operator, Width};
use plain_data::{Items, Memory};
use rtl_step::{alone, counting, operator_of, relation_of, width_of};
use rtx_tree::{Class, Code, Mode, Name, Rtx};
use std::alloc::Global;
use sym_state::{Comparison, NeedOf, one, own_symbol, read, read_need};
use sym_term::TermMaker;
use term_sums::constant_term;
use term_tree::{Head, Measured, Term};

/// What has no value: it needs what nothing meets.
pub fn no_value(alloc: Global, w: Width, needs: &mut Needs) -> Result<Term, Memory>
    ensures { IfOk result (λ r. IsMade needs.old needs.new (tree_of r) (spec.no_value w)) }
{
    needs.push(NeedOf::Lost { reg: 0, width: w })?;
    Ok(constant_term(alloc, w, 0))
}

/// Notes a need, if there is one.
fn note(need: Option<NeedOf>, needs: &mut Needs) -> Result<(), Memory>
    ensures { OnOk result (map need_of needs.new
        ≡ map need_of needs.old ++ listed (option_map need_of need)) }
{
    if let Some(need) = need {
        needs.push(need)?;
    }
    Ok(())
}

/// The low bits of a register.
pub fn read_register(
    maker: &mut TermMaker,
    before: &Before,
    reg: u64,
    w: Width,
    needs: &mut Needs,
) -> Result<Term, Memory>
    ensures { IfOk result (λ r. IsMade needs.old needs.new (tree_of r)
        (spec.of_register (regs_of before.now) reg w)) }
{
    note(read_need(before.regs, reg, w), needs)?;
    read(maker, before.alloc, before.regs, reg, w)
}

/// The address of a symbol.
fn symbol(
    maker: &mut TermMaker,
    alloc: Global,
    name: &Name,
    w: Width,
    needs: &mut Needs,
) -> Result<Term, Memory>
    ensures { IfOk result (λ r. IsMade needs.old needs.new (tree_of r)
        (spec.of_symbol name.now w)) }
{
    needs.push(NeedOf::Symbol {
        name: name.copy(alloc)?,
    })?;
    let address = own_symbol(alloc, name)?;
    maker.cut(w, &address)
}

/// An expression without parts.
fn made_of_none(
    maker: &mut TermMaker,
    before: &Before,
    x: &Rtx,
    w: Width,
    needs: &mut Needs,
) -> Result<Term, Memory>
    ensures { IfOk result (λ r. IsMade needs.old needs.new (tree_of r)
        (spec.made_of_none (regs_of before.now) (class_of_code (out-Rtx x.now).code)
        (out-Rtx x.now).number (out-Rtx x.now).name w)) }
{
    match x.code.class() {
        Class::Register => read_register(maker, before, x.number.cast_unsigned(), w, needs),
        Class::Constant => Ok(constant_term(before.alloc, w, x.number.cast_unsigned())),
        Class::Symbol => symbol(maker, before.alloc, &x.name, w, needs),
        _ => no_value(before.alloc, w, needs),
    }
}

/// What stands at an address, behind all stores so far.
fn load(
    maker: &mut TermMaker,
    before: &Before,
    w: Width,
    address: Term,
    needs: &mut Needs,
) -> Result<Term, Memory>
    ensures { IfOk result (λ r. IsMade needs.old needs.new (tree_of r)
        (record {
          term = spec.load_at (stores_of before.now) w (tree_of address);
          needs = Access (tree_of address) w ∷ [];
        })) }
{
    needs.push(NeedOf::Access {
        address: Measured::of(address.copy(before.alloc)?),
        width: w,
    })?;
    let mut parts = Vec::new(before.alloc);
    parts.push(address)?;
    let count = before.stores.len() as u64;
    maker.built(
        before.stores,
        Head::Load,
        w,
        count,
        Name::empty(before.alloc),
        parts,
    )
}

/// An extension or a truncation, whose operand is read in its own mode.
#[cycle(make)]
fn of_converted(
    maker: &mut TermMaker,
    before: &Before,
    code: Code,
    a: &Rtx,
    w: Width,
    needs: &mut Needs,
) -> Result<Term, Memory>
    ensures { IfOk result (λ r. IsMade needs.old needs.new (tree_of r)
        (spec.of_converted (stores_of before.now)
        (reading_by_mode (regs_of before.now) (stores_of before.now) a.now).width code
        (reading_by_mode (regs_of before.now) (stores_of before.now) a.now) w)) }
{
    let (Some(head), Some(own)) = (conversion_of(code), width_of(a.mode)) else {
        return no_value(before.alloc, w, needs);
    };
    let term = make(maker, before, a, own, needs)?;
    one(maker, before.alloc, before.stores, head, w, term)
}

/// The operator of a code of one number.
fn alone_of(code: Code) -> Option<Operator>
    ensures { result ≡ step.alone (step.operator_of code) }
{
    alone(operator_of(code)?)
}

/// The operator of a code of a number and a count.
fn counting_of(code: Code) -> Option<Operator>
    ensures { result ≡ step.counting (step.operator_of code) }
{
    counting(operator_of(code)?)
}

/// An expression of one part.
#[cycle(make)]
fn made_of_one(
    maker: &mut TermMaker,
    before: &Before,
    code: Code,
    a: &Rtx,
    w: Width,
    needs: &mut Needs,
) -> Result<Term, Memory>
    ensures { IfOk result (λ r. IsMade needs.old needs.new (tree_of r)
        (spec.made_of_one (stores_of before.now) (class_of_code code) code
        (reading_by_mode (regs_of before.now) (stores_of before.now) a.now) w)) }
{
    match code.class() {
        Class::Memory => {
            let address = make(maker, before, a, Width::W64, needs)?;
            load(maker, before, w, address, needs)
        }
        Class::Lowpart => make(maker, before, a, w, needs),
        Class::Unary => {
            let Some(operator) = alone_of(code) else {
                return no_value(before.alloc, w, needs);
            };
            let term = make(maker, before, a, w, needs)?;
            unary(maker, before, operator, w, term)
        }
        Class::Extension | Class::Truncation => { of_converted(maker, before, code, a, w, needs) }
        _ => no_value(before.alloc, w, needs),
    }
}

/// The width in which the operands of a comparison are read: that of the first mode, or else of
/// the second.
fn own_width(a: &Rtx, b: &Rtx) -> Option<Width>
    ensures { result ≡ first_width (step.width_of (out-Rtx a.now).mode)
        (step.width_of (out-Rtx b.now).mode) }
{
    match width_of(a.mode) {
        None => width_of(b.mode),
        Some(w) => Some(w),
    }
}

/// The width in which a count is read: that of its mode, or 64 bits.
fn count_width_of(b: &Rtx) -> Width
    ensures { result ≡ count_width (step.width_of (out-Rtx b.now).mode) }
{
    width_of(b.mode).unwrap_or(Width::W64)
}

/// An operation on two terms, the second of which may be a divisor.
fn of_operands(
    maker: &mut TermMaker,
    before: &Before,
    operation: Operation,
    a: Term,
    b: Term,
    needs: &mut Needs,
) -> Result<Term, Memory>
    ensures { IfOk result (λ r. IsMade needs.old needs.new (tree_of r)
        (record {
          term = term_of (stores_of before.now) operation.operator operation.width (tree_of a)
              (tree_of b);
          needs = spec.divisor_needs (asks_of operation.operator) (tree_of b);
        })) }
{
    need_divisor(before.alloc, operation.operator.asks(), &b, needs)?;
    binary(maker, before, operation, a, b)
}

/// An operation, of which the first operand is made.
#[cycle(make)]
fn binary_with(
    maker: &mut TermMaker,
    before: &Before,
    operation: Operation,
    b: &Rtx,
    first: Term,
    needs: &mut Needs,
) -> Result<Term, Memory>
    ensures { IfOk result (λ r. IsMade needs.old needs.new (tree_of r)
        (spec.of_operands (stores_of before.now) (Some operation.operator) operation.width
        (record { term = tree_of first; needs = [] })
        (made_of (regs_of before.now) (stores_of before.now) b.now operation.operand))) }
{
    let second = make(maker, before, b, operation.operand, needs)?;
    of_operands(maker, before, operation, first, second, needs)
}

/// A shift, of which the first operand is made.
#[cycle(make)]
fn shift_with(
    maker: &mut TermMaker,
    before: &Before,
    operation: Operation,
    b: &Rtx,
    first: Term,
    needs: &mut Needs,
) -> Result<Term, Memory>
    ensures { IfOk result (λ r. IsMade needs.old needs.new (tree_of r)
        (spec.of_one
        (term_of (stores_of before.now) operation.operator operation.width (tree_of first))
        (made_of (regs_of before.now) (stores_of before.now) b.now operation.operand))) }
{
    let count = make(maker, before, b, operation.operand, needs)?;
    binary(maker, before, operation, first, count)
}

/// A comparison, of which the first operand is made.
#[cycle(make)]
fn compared_with(
    maker: &mut TermMaker,
    before: &Before,
    comparison: Comparison,
    b: &Rtx,
    first: Term,
    needs: &mut Needs,
) -> Result<Term, Memory>
    ensures { IfOk result (λ r. IsMade needs.old needs.new (tree_of r)
        (spec.of_one
        (related (stores_of before.now) comparison.relation comparison.operand comparison.width
        (tree_of first))
        (made_of (regs_of before.now) (stores_of before.now) b.now comparison.operand))) }
{
    let second = make(maker, before, b, comparison.operand, needs)?;
    compared(maker, before, comparison, first, second)
}

/// An expression of two parts; one of more has no value.
#[cycle(make)]
fn made_of_parts(
    maker: &mut TermMaker,
    before: &Before,
    code: Code,
    parts: &[Rtx],
    w: Width,
    needs: &mut Needs,
) -> Result<Term, Memory>
    ensures { IfOk result (λ r. IsMade needs.old needs.new (tree_of r)
        (spec.made_of_parts (stores_of before.now) (class_of_code code) code
        (map (reading_by_mode (regs_of before.now) (stores_of before.now)) parts.now) w)) }
{
    match parts {
        [a, b] => match code.class() {
            Class::Binary => match operator_of(code) {
                None => no_value(before.alloc, w, needs),
                Some(operator) => {
                    let first = make(maker, before, a, w, needs)?;
                    let operation = Operation {
                        operator,
                        operand: w,
                        width: w,
                    };
                    binary_with(maker, before, operation, b, first, needs)
                }
            },
            Class::Shift => match counting_of(code) {
                None => no_value(before.alloc, w, needs),
                Some(operator) => {
                    let first = make(maker, before, a, w, needs)?;
                    let operation = Operation {
                        operator,
                        operand: count_width_of(b),
                        width: w,
                    };
                    shift_with(maker, before, operation, b, first, needs)
                }
            },
            Class::Comparison => match own_width(a, b) {
                None => no_value(before.alloc, w, needs),
                Some(operand) => match relation_of(code) {
                    None => no_value(before.alloc, w, needs),
                    Some(relation) => {
                        let first = make(maker, before, a, operand, needs)?;
                        let comparison = Comparison {
                            relation,
                            operand,
                            width: w,
                        };
                        compared_with(maker, before, comparison, b, first, needs)
                    }
                },
            },
            _ => no_value(before.alloc, w, needs),
        },
        [] => no_value(before.alloc, w, needs),
        [_a] => no_value(before.alloc, w, needs),
        [_a, _b, _c, ..] => no_value(before.alloc, w, needs),
    }
}

/// What is made of an expression in a width; its needs are put behind those that were met before.
#[cycle(make)]
#[tactic(auto, using(crate::proofs::Values::made_read))]
pub fn make(
    maker: &mut TermMaker,
    before: &Before,
    x: &Rtx,
    w: Width,
    needs: &mut Needs,
) -> Result<Term, Memory>
    ensures { IfOk result (λ r. IsMade needs.old needs.new (tree_of r)
        (spec.made_of (regs_of before.now) (stores_of before.now) x.now w)) }
{
    match x.kids.as_slice() {
        [] => made_of_none(maker, before, x, w, needs),
        [a] => made_of_one(maker, before, x.code, a, w, needs),
        parts => made_of_parts(maker, before, x.code, parts, w, needs),
    }
}
