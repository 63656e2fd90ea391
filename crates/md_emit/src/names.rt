//! The forms that have standard names.
ghost use Rattle.std.specs.Prelude.{◌≡◌};
ghost use Rattle.md_emit.specs.Named as spec;

use md_desc::Description;
use md_draft::FormHead;
use md_forms::Entry;
use rtx_tree::Name;

fn makes_by_name(head: FormHead) -> bool
    ensures { result ≡ spec.makes_by_name head }
{
    matches!(head, FormHead::Expand | FormHead::Insn)
}

fn has_name(name: &Name, own: &Option<Name>) -> bool
    ensures { result ≡ spec.has_name name.now own.entry.now }
{
    match own {
        Some(own) => own.same(name),
        None => false,
    }
}

fn is_named_form(name: &Name, entry: &Entry) -> bool
    ensures { result ≡ spec.is_named_form name.now entry.now }
{
    match &entry.form {
        Ok(form) => has_name(name, &entry.name) && makes_by_name(form.head),
        Err(_) => false,
    }
}

/// The first accepted `define_expand` or `define_insn` of a name, from an index on. It takes no
/// memory.
pub fn named(desc: &Description, name: &Name, from: u32) -> Option<u32>
    ensures { result ≡ spec.named desc.now name.now from }
{
    let forms = desc.forms().as_slice();
    for form in from..forms.len() as u32 {
        if is_named_form(name, &forms[form as usize]) {
            return Some(form);
        }
    }
    None
}
