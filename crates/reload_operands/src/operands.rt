//! The operands of an instruction.
ghost use Rattle.std.specs.Prelude.{◌≡◌, ◌++◌, [], ◌∷◌, if◌then◌else◌, IfOk, OnOk, MatchOption, option_map, option_and_then};
ghost use Rattle.std.specs.Option.{option_copied};
ghost use Rattle.rtx_tree.specs.Tree.{head_of};
ghost use Rattle.md_operand.specs.Operand.{built_in_named};
ghost use Rattle.reload_homes.specs.Homes.{AreOrdered};
ghost use Rattle.reload_operands.specs.Operands as spec;

use crate::bases::{base_of, in_slot};
use crate::changes::{changes_address, other_memory};
use crate::directions::{is_clobbered, is_hidden, is_input, is_output};
use crate::inside::in_lowpart;
use crate::numbers::numbers_of;
use crate::operand::Operand;
use assign::{Homes, Layout};
use md_match::giver;
use md_operand::BuiltIn;
use plain_data::{Items, Memory};
use reload_homes::with_homes;
use rtx_tree::{Code, Mode, Operands, Rtx};
use std::alloc::Global;

fn is_operator(placeholder: &Rtx) -> bool
    ensures { result ≡ spec.is_operator_code (head_of placeholder.now).code }
{
    matches!(placeholder.code, Code::MatchOperator)
}

fn is_scratch(x: &Rtx) -> bool
    ensures { result ≡ spec.is_scratch_code (head_of x.now).code }
{
    matches!(x.code, Code::Scratch)
}

fn is_address(placeholder: &Rtx) -> bool
    ensures { result ≡ spec.is_address_predicate (built_in_named (head_of placeholder.now).name) }
{
    matches!(
        BuiltIn::named(placeholder.name.bytes()),
        Some(BuiltIn::Address)
    )
}

/// An instruction whose operands are looked at: the pattern that matched it, the instruction with
/// its references to the frame put in, and with its homes.
#[derive(Clone, Copy)]
struct Homed<'a> {
    pattern: &'a Rtx,
    placed: &'a Rtx,
    homed: &'a Rtx,
    homes: &'a Homes,
    layout: &'a Layout,
}

/// What is known of an operand, by its number, its placeholder and its tree before homes are put
/// in.
fn operand_for(
    alloc: Global,
    of: &Homed<'_>,
    number: u32,
    placeholder: &Rtx,
    x: &Rtx,
) -> Result<Operand, Memory>
    requires { AreOrdered of.now.homes.now of.now.layout.now }
    ensures { IfOk result (λ operand.
        operand ≡ spec.operand_for of.now.pattern.now of.now.placed.now of.now.homed.now
        of.now.homes.now of.now.layout.now number placeholder.now x.now) }
{
    let Homed {
        pattern,
        placed,
        homed,
        homes,
        layout,
    } = of;
    let tree = with_homes(alloc, x, homes, layout)?;
    let base = base_of(homes, layout, x);
    let changed_address = changes_address(homes, placed, homed, base.is_some(), x, &tree);
    Ok(Operand {
        number,
        tree,
        mode: x.mode.or(placeholder.mode),
        is_operator: is_operator(placeholder),
        is_scratch: is_scratch(x),
        is_address: is_address(placeholder),
        is_input: is_input(pattern, number),
        is_output: is_output(pattern, number),
        is_clobbered: is_clobbered(pattern, number),
        is_hidden: is_hidden(pattern, number),
        in_slot: in_slot(homes, x),
        in_lowpart: in_lowpart(pattern, placed, number),
        base,
        changed_address,
        other_memory: other_memory(pattern, placed, number),
    })
}

/// Adds the operand with a number, where it is there.
fn add_operand(
    alloc: Global,
    of: &Homed<'_>,
    found: &Operands,
    number: u32,
    operands: &mut Items<Operand>,
) -> Result<(), Memory>
    requires { AreOrdered of.now.homes.now of.now.layout.now }
    ensures { OnOk result (operands.new ≡ operands.old ++ spec.operand_with of.now.pattern.now
        found.now of.now.placed.now of.now.homed.now of.now.homes.now of.now.layout.now number) }
{
    let Some(placeholder) = giver(of.pattern, number) else {
        return Ok(());
    };
    let Some(x) = found.get(number as usize) else {
        return Ok(());
    };
    let operand = operand_for(alloc, of, number, placeholder, x)?;
    operands.push(operand)
}

/// The operands that a pattern has found in an instruction, in increasing number. The instruction
/// is handed in as it was matched, with its references to the frame put in, and with its homes.
pub fn operands_of(
    alloc: Global,
    pattern: &Rtx,
    found: &Operands,
    placed: &Rtx,
    homed: &Rtx,
    homes: &Homes,
    layout: &Layout,
) -> Result<Items<Operand>, Memory>
    requires { AreOrdered homes.now layout.now }
    ensures { IfOk result (λ operands.
        operands ≡ spec.operands_of pattern.now found.now placed.now homed.now homes.now
        layout.now) }
{
    let numbers = numbers_of(alloc, pattern)?;
    let of = Homed {
        pattern,
        placed,
        homed,
        homes,
        layout,
    };
    let mut operands = Items::new(alloc);
    for number in numbers.as_slice() {
        add_operand(alloc, &of, found, *number, &mut operands)?;
    }
    Ok(operands)
}
