//! The lines of instructions.
ghost use Rattle.std.specs.Prelude.{◌≡◌, ◌++◌, ◌∷◌, [], OnOk};
ghost use Rattle.std.specs.Fmt.{decimal};
ghost use Rattle.md_forms.specs.Forms.{names_of};
ghost use Rattle.func_input.specs.machine.Steps.{AppendedSome};
ghost use Rattle.func_after.specs.Each.{EachComes};
ghost use Rattle.func_text.specs.Recog as spec;
ghost use Rattle.func_text.specs.Recog.{OutputComes};
ghost use Rattle.func_text.specs.machine.Steps.{ComesToText};

use form_needs::{name_at, needs_form, output_facts};
use func_after::unmatched;
use md_desc::{Chosen, Description};
use pass_name::Pass;
use plain_data::Memory;
use rtx_tree::{Insn, Name};
use run_refusal::Refusal;
use std::alloc::Global;
use text_words::{print_count, print_text};

/// Appends a text and what ends it.
pub(crate) fn print_part(text: &[u8], end: u8, out: &mut Vec<u8>) -> Result<(), Memory>
    ensures { OnOk result (out.new.items ≡ out.old.items ++ (text.now ++ end ∷ [])) }
{
    print_text(text, out)?;
    out.push(end)?;
    Ok(())
}

/// Appends a number and what ends it.
pub(crate) fn print_number(number: u64, end: u8, out: &mut Vec<u8>) -> Result<(), Memory>
    ensures { OnOk result (out.new.items ≡ out.old.items ++ (decimal number ++ end ∷ [])) }
{
    print_count(number, out)?;
    out.push(end)?;
    Ok(())
}

/// Appends the line of an instruction.
#[tactic(auto, using(crate::proofs::Line::line_made))]
fn print_chosen(
    names: &[Name],
    function: &Name,
    uid: u32,
    chosen: &Chosen,
    out: &mut Vec<u8>,
) -> Result<(), Memory>
    ensures { OnOk result (out.new.items ≡ out.old.items ++ spec.line_of names.now function.now uid
        chosen.now.form chosen.now.alternative) }
{
    print_part(function.bytes(), b' ', out)?;
    print_number(u64::from(uid), b' ', out)?;
    print_part(name_at(names, chosen.form), b' ', out)?;
    print_number(u64::from(chosen.alternative), b'\n', out)
}

/// Appends the line of an instruction, where it needs a form.
fn print_insn(
    alloc: Global,
    desc: &Description,
    names: &[Name],
    function: &Name,
    insn: &Insn,
    out: &mut Vec<u8>,
) -> Result<(), Refusal>
    requires { names.now ≡ names_of desc.now }
    ensures { AppendedSome out.old.items out.new.items result
        (OutputComes desc.now function.now insn.now) }
{
    if !needs_form(insn) {
        return Ok(());
    }
    match desc.recog_out(alloc, &insn.pattern, &output_facts(alloc))? {
        Some(chosen) => Ok(print_chosen(names, function, insn.uid, &chosen, out)?),
        None => Err(unmatched(alloc, Pass::Output, function, insn)?),
    }
}

/// Appends the lines of a chain.
#[tactic(auto, using(func_after::proofs::Each::makes_start, func_after::proofs::Each::makes_on, func_after::proofs::Each::makes_wrong, func_after::proofs::Each::makes_all))]
pub(crate) fn print_insns(
    alloc: Global,
    desc: &Description,
    names: &[Name],
    function: &Name,
    insns: &[Insn],
    out: &mut Vec<u8>,
) -> Result<(), Refusal>
    requires { names.now ≡ names_of desc.now }
    ensures { AppendedSome out.old.items out.new.items result
        (EachComes (OutputComes desc.now function.now) insns.now) }
{
    for insn in insns {
        print_insn(alloc, desc, names, function, insn, out)?;
    }
    Ok(())
}

/// Whether an instruction has a form at output, where it needs one.
fn check_insn(
    alloc: Global,
    desc: &Description,
    function: &Name,
    insn: &Insn,
) -> Result<(), Refusal>
    ensures { ComesToText result (OutputComes desc.now function.now insn.now) }
{
    if !needs_form(insn) {
        return Ok(());
    }
    match desc.recog_out(alloc, &insn.pattern, &output_facts(alloc))? {
        Some(_) => Ok(()),
        None => Err(unmatched(alloc, Pass::Output, function, insn)?),
    }
}

/// Whether each instruction of a chain that needs a form at output has one.
#[tactic(auto, using(crate::proofs::Looked::looked_start, crate::proofs::Looked::looked_on, crate::proofs::Looked::looked_wrong, crate::proofs::Looked::looked_all))]
pub(crate) fn check_insns(
    alloc: Global,
    desc: &Description,
    function: &Name,
    insns: &[Insn],
) -> Result<(), Refusal>
    ensures { ComesToText result (EachComes (OutputComes desc.now function.now) insns.now) }
{
    for insn in insns {
        check_insn(alloc, desc, function, insn)?;
    }
    Ok(())
}
