//! What a member of a constraint admits.
ghost use Rattle.std.specs.Prelude.{◌≡◌, IfOk, option_and_then};
ghost use Rattle.std.specs.Option.{option_copied};
ghost use Rattle.rtx_tree.specs.declared.code.Mode.TheVariants.{Void};
ghost use Rattle.rv_regs.specs.Classes.{is_in_class};
ghost use Rattle.pred_rows.specs.Tests.{test_holds};
ghost use Rattle.md_constr.specs.Admits as spec;
ghost use Rattle.md_constr.specs.Fits as fits;
ghost use Rattle.md_desc.specs.md_attr.Alternatives as alternatives;
ghost use Rattle.md_desc.specs.md_forms.md_tables.Tables.{defines_constraint};
ghost use Rattle.md_desc.specs.md_pred.Holds.{holds};
ghost use Rattle.lint_idle.specs.Idle.{named_in};

use c_eval::{register_in, same_tree};
use md_desc::Description;
use md_forms::{Entry, Form, FormHead, RegisterClass, defines_constraint};
use md_operand::{is_memory, is_register, is_symbol, legitimate_address};
use md_text::{Letter, Member};
use plain_data::Memory;
use pred_expr::Test;
use pred_rows::TestRows;
use rtx_tree::{Code, Mode, Name, Operands, Rtx};
use rv_regs::{Class, in_class};
use std::alloc::Global;
use text_words::same;

// ---- letters

fn is_immediate(x: &Rtx) -> bool
    ensures { result ≡ spec.is_immediate x.now }
{
    x.is_constant() || is_symbol(x)
}

/// Whether a letter of the manual admits an operand.
fn letter_admits(letter: Letter, x: &Rtx) -> bool
    ensures { result ≡ spec.letter_admits letter x.now }
{
    match letter {
        Letter::Register => is_register(x),
        Letter::Memory => is_memory(x),
        Letter::Immediate => is_immediate(x),
        Letter::Constant => x.is_constant(),
        Letter::Symbol => is_symbol(x),
        Letter::General => is_register(x) || is_memory(x) || is_immediate(x),
        Letter::Anything => true,
        Letter::Address => legitimate_address(x),
    }
}

// ---- classes of registers

fn class_of(class: RegisterClass) -> Class
    ensures { result ≡ spec.class_of class }
{
    match class {
        RegisterClass::General => Class::General,
        RegisterClass::Args => Class::Args,
        RegisterClass::Saved => Class::Saved,
        RegisterClass::Nothing => Class::Nothing,
    }
}

/// The number of the register that an operand is, or is the low part of.
fn register_of(x: &Rtx) -> Option<u32>
    ensures { result ≡ spec.register_of x.now }
{
    match (x.code, x.kids.as_slice()) {
        (Code::Reg, _) => register_in(x),
        (Code::Subreg, [inner]) => register_in(inner),
        _ => None,
    }
}

/// Whether a register is in a class, which pseudo registers are not.
#[tactic(auto, using(md_constr::proofs::ClassLaws::no_pseudo))]
fn has_register(class: Class, reg: u32) -> bool
    ensures { result ≡ is_in_class class reg }
{
    match u8::try_from(reg) {
        Ok(reg) => in_class(class, reg),
        Err(_) => false,
    }
}

/// Whether a class of registers admits an operand.
fn class_admits(class: RegisterClass, x: &Rtx) -> bool
    ensures { result ≡ spec.class_admits class x.now }
{
    match register_of(x) {
        Some(reg) => has_register(class_of(class), reg),
        None => false,
    }
}

// ---- what the description defines

/// Whether a test holds of an operand, in no mode.
fn test_admits(
    alloc: Global,
    description: &Description,
    test: &Test,
    x: &Rtx,
) -> Result<bool, Memory>
    ensures { IfOk result (λ admits.
        admits ≡ test_holds (holds description.now) x.now Void test.now) }
{
    let mut rows = TestRows::new(alloc);
    let root = rows.push(alloc, test)?;
    Ok(rows.holds(root, description.preds(), x, Mode::Void))
}

fn form_admits(
    alloc: Global,
    description: &Description,
    form: &Form,
    x: &Rtx,
) -> Result<bool, Memory>
    ensures { IfOk result (λ admits.
        admits ≡ spec.form_admits (holds description.now) form.now x.now) }
{
    match (form.class, &form.test) {
        (Some(class), _) => Ok(class_admits(class, x)),
        (None, Some(test)) => test_admits(alloc, description, test, x),
        (None, None) => Ok(false),
    }
}

fn has_name(name: &[u8], own: &Option<Name>) -> bool
    ensures { result ≡ alternatives.has_name name.now own.now }
{
    match own {
        Some(own) => same(own.bytes(), name),
        None => false,
    }
}

/// Whether a form defines the constraint with a name, be it accepted or set aside.
fn defines(name: &[u8], entry: &Entry) -> bool
    ensures { result ≡ alternatives.defines defines_constraint name.now entry.now }
{
    defines_constraint(FormHead::named(entry.head.bytes())) && has_name(name, &entry.name)
}

/// The first definition of the constraint with a name.
fn definition_of<'a>(forms: &'a [Entry], name: &[u8]) -> Option<&'a Entry>
    ensures { option_copied result ≡
        alternatives.definition_of defines_constraint forms.entry.now name.now }
{
    for entry in forms {
        if defines(name, entry) {
            return Some(entry);
        }
    }
    None
}

/// What the first definition of a name says, where it is accepted.
fn defined<'a>(forms: &'a [Entry], name: &[u8]) -> Option<&'a Form>
    ensures { option_copied result ≡ option_and_then alternatives.accepted
        (alternatives.definition_of defines_constraint forms.entry.now name.now) }
{
    match &definition_of(forms, name)?.form {
        Ok(form) => Some(form),
        Err(_) => None,
    }
}

/// Whether the constraint with a name admits an operand.
fn name_admits(
    alloc: Global,
    description: &Description,
    name: &[u8],
    x: &Rtx,
) -> Result<bool, Memory>
    ensures { IfOk result (λ admits. admits ≡ named_in description.now name.now x.now) }
{
    match defined(description.forms().as_slice(), name) {
        Some(form) => form_admits(alloc, description, form, x),
        None => Ok(false),
    }
}

// ---- members

/// Whether an operand is the same tree as the one with a number.
fn is_same(operands: &Operands, number: u8, x: &Rtx) -> bool
    ensures { result ≡ fits.is_same operands.now number x.now }
{
    match operands.get(number as usize) {
        Some(other) => same_tree(x, other),
        None => false,
    }
}

/// Whether a member of a constraint admits an operand, among others.
pub fn member_admits(
    alloc: Global,
    description: &Description,
    operands: &Operands,
    x: &Rtx,
    member: &Member,
) -> Result<bool, Memory>
    ensures { IfOk result (λ admits. admits ≡
        fits.member_admits (named_in description.now) operands.now x.now member.now) }
{
    match member {
        Member::Letter(letter) => Ok(letter_admits(*letter, x)),
        Member::Same(number) => Ok(is_same(operands, *number, x)),
        Member::Defined(name) => name_admits(alloc, description, name.bytes(), x),
    }
}
