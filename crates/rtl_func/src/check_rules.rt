//! Whether a function is well formed.
ghost use Rattle.std.specs.Prelude.{◌≡◌, ◌<◌, ◌^◌, All, IfOk, List, length};
ghost use Rattle.rtx_tree.specs.declared.function.Function.{Function};
ghost use Rattle.rtl_func.specs.Faults.{earlier, first_fault};
ghost use Rattle.rtl_func.specs.Names.{AreNames};
ghost use Rattle.rtl_func.specs.Rules as spec;

use crate::fault::{Fault, note};
use crate::names::Names;
use crate::rules::note_rules;
use crate::tables::tables_of;
use crate::uids::note_uids;
use plain_data::Memory;
use rtx_tree::Function;
use std::alloc::Global;
use thiserror::Error;

/// Why a function is refused.
#[derive(Clone, Copy, Debug, Error)]
pub enum CheckRefusal {
    /// The lowest uid at which a rule fails, and the lowest rule that fails there.
    #[error("ill formed")]
    IllFormed { uid: u32, rule: u8 },
    /// Memory ran out.
    #[error("out of memory")]
    Memory,
}

impl From<Memory> for CheckRefusal {
    ghost use Rattle.std.specs.Prelude.{◌≡◌};
    ghost use Rattle.rtl_func.specs.declared.check_rules.CheckRefusal.TheVariants as refusal;

    ghost from_gives = { λ _ e. e ≡ refusal.Memory };

    fn from(_e: Memory) -> CheckRefusal {
        CheckRefusal::Memory
    }
}

fn has_own_name(names: &Names, f: &Function) -> bool
    ensures { (before : List Function) → AreNames before names.now →
        result ≡ spec.has_own_name before f.now }
{
    !names.has(&f.name) && f.result_reg == 10
}

fn note_name(names: &Names, f: &Function, first: &mut Option<Fault>)
    ensures { (before : List Function) → AreNames before names.now →
        first.new ≡ earlier first.old (first_fault (spec.name_faults before f.now)) }
{
    if !has_own_name(names, f) {
        note(first, 0, 10);
    }
}

/// The first place at which a function breaks a rule, behind the functions with these names.
fn first_of_function(alloc: Global, names: &Names, f: &Function) -> Result<Option<Fault>, Memory>
    requires { length f.now.insns < 2 ^ 32 }
    ensures { IfOk result (λ first. (before : List Function) → AreNames before names.now →
        first ≡ first_fault (spec.faults_of before f.now)) }
{
    let mut first = None;
    note_uids(alloc, f.insns.as_slice(), &mut first)?;
    let tables = tables_of(alloc, f)?;
    note_rules(alloc, f, &tables, &mut first)?;
    note_name(names, f, &mut first);
    Ok(first)
}

/// Whether a function keeps the ten rules of a well-formed function behind others, of which these
/// are the names. Where it does not, the refusal tells the lowest uid at which a rule fails, and
/// the lowest rule that fails there.
pub fn check_behind(alloc: Global, names: &Names, f: &Function) -> Result<(), CheckRefusal>
    requires { length f.now.insns < 2 ^ 32 }
    ensures { (before : List Function) → AreNames before names.now →
        spec.Gives result (first_fault (spec.faults_of before f.now)) }
{
    match first_of_function(alloc, names, f)? {
        None => Ok(()),
        Some(fault) => Err(CheckRefusal::IllFormed {
            uid: fault.uid,
            rule: fault.rule,
        }),
    }
}

/// The names of functions.
fn names_of(alloc: Global, functions: &[Function]) -> Result<Names, Memory>
    ensures { IfOk result (λ names. AreNames functions.now names) }
{
    let mut names = Names::new(alloc);
    for f in functions {
        names.put(alloc, &f.name)?;
    }
    Ok(names)
}

/// Whether the function at `index` keeps the ten rules of a well-formed function among the others
/// of its input. Where it does not, the refusal tells the lowest uid at which a rule fails, and the
/// lowest rule that fails there.
pub fn check(alloc: Global, functions: &[Function], index: u32) -> Result<(), CheckRefusal>
    requires within { index < length functions.now }
    requires short { All (λ f. length f.insns < 2 ^ 32) functions.now }
    ensures { spec.Gives result (first_fault (spec.faults functions.now index)) }
{
    let place = index as usize;
    let names = names_of(alloc, &functions[..place])?;
    check_behind(alloc, &names, &functions[place])
}
