//! The rules of well-formed functions, and the limits.
ghost use Rattle.std.specs.Prelude.{◌≡◌, ◌+◌, ◌<◌, ◌↔◌, ◌^◌, All, IfOk, IsTrue, List, length};
ghost use Rattle.rtl_func.specs.Faults.{first_fault};
ghost use Rattle.rtl_func.specs.Names.{AreNames};
ghost use Rattle.rtl_func.specs.Rules.{faults_of};
ghost use Rattle.rtx_tree.specs.declared.function.Function.{Function};
ghost use Rattle.func_input.specs.Refused.{rule_broken, over, limit_passed, refused_behind};
ghost use Rattle.func_input.specs.Input.{GivesNothing};
ghost use Rattle.func_input.specs.machine.Steps.{IsOrMemory, Checked};
ghost use Rattle.run_refusal.specs.declared.refusal.Refusal.TheVariants as refused;

use plain_data::Memory;
use rtl_chain::{instruction_count, next_pseudo};
use rtl_func::{CheckRefusal, Names, check_behind};
use rtx_tree::{Function, Limit, MOST_INSTRUCTIONS, MOST_PSEUDOS, Name};
use run_refusal::Refusal;
use std::alloc::Global;

fn ill_formed(alloc: Global, function: &Name, uid: u32, rule: u8) -> Refusal
    ensures { IsOrMemory result (refused.IllFormed function.now uid rule) }
{
    match function.copy(alloc) {
        Ok(function) => Refusal::IllFormed {
            function,
            uid,
            rule,
        },
        Err(_) => Refusal::Memory,
    }
}

/// Checks that a function keeps the rules, behind those with these names.
fn check_rules(alloc: Global, names: &Names, f: &Function) -> Result<(), Refusal>
    requires { length f.now.insns < 2 ^ 32 }
    ensures { (before : List Function) → AreNames before names.now →
        Checked result (rule_broken f.now (first_fault (faults_of before f.now))) }
{
    match check_behind(alloc, names, f) {
        Ok(()) => Ok(()),
        Err(CheckRefusal::IllFormed { uid, rule }) => Err(ill_formed(alloc, &f.name, uid, rule)),
        Err(CheckRefusal::Memory) => Err(Refusal::Memory),
    }
}

/// Checks that a count is not above the most that there may be.
fn within(which: Limit, most: u64, count: u64) -> Result<(), Refusal>
    ensures { Checked result (over which most count) }
{
    if count <= most {
        Ok(())
    } else {
        Err(Refusal::Limit { which, count })
    }
}

/// Checks that a function is within the limits.
fn check_limits(f: &Function) -> Result<(), Refusal>
    ensures { Checked result (limit_passed f.now) }
{
    within(
        Limit::Instructions,
        MOST_INSTRUCTIONS,
        instruction_count(f.insns.as_slice()) as u64,
    )?;
    within(
        Limit::Pseudos,
        MOST_PSEUDOS,
        next_pseudo(f.insns.as_slice()),
    )
}

/// Checks a function behind those with these names: the rules, and then the limits.
fn check_function(alloc: Global, names: &Names, f: &Function) -> Result<(), Refusal>
    requires { length f.now.insns < 2 ^ 32 }
    ensures { (before : List Function) → AreNames before names.now →
        Checked result (refused_behind before f.now) }
{
    check_rules(alloc, names, f)?;
    check_limits(f)
}

/// The number behind a number of 32 bits. It wants the number, as it wants memory.
pub fn next_number(number: u32) -> Result<u32, Memory>
    ensures next { IfOk result (λ next. next ≡ number + 1) }
    ensures small { number < 2 ^ 32 }
{
    match number.checked_add(1) {
        Some(next) => Ok(next),
        None => Err(Memory),
    }
}

/// Checks functions whose places have numbers of 32 bits, in order.
fn check_each(alloc: Global, functions: &[Function]) -> Result<(), Refusal>
    requires { All (λ f. length f.insns < 2 ^ 32) functions.now }
    ensures { GivesNothing result functions.now }
{
    let mut names = Names::new(alloc);
    for f in functions {
        check_function(alloc, &names, f)?;
        names.put(alloc, &f.name)?;
    }
    Ok(())
}

fn are_short(functions: &[Function]) -> bool
    ensures { IsTrue result ↔ All (λ f. length f.insns < 2 ^ 32) functions.now }
{
    functions.iter().all(|f| f.insns.len() <= 0xffff_ffff)
}

/// Checks that functions are well-formed and within the limits. A chain with more places than have
/// a number is wanted as memory is.
///
/// # Errors
///
/// `IllFormed` or `Limit` for the first function that is refused, or `Memory` where memory ran out.
pub fn check_functions(alloc: Global, functions: &[Function]) -> Result<(), Refusal>
    ensures { GivesNothing result functions.now }
{
    if are_short(functions) {
        check_each(alloc, functions)
    } else {
        Err(Refusal::Memory)
    }
}
