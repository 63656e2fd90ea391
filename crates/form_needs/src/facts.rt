//! What conditions know at each stage, and how a form is shown.
ghost use Rattle.std.specs.Prelude.{◌≡◌};
ghost use Rattle.form_needs.specs.Needs as spec;

use c_eval::Facts;
use plain_data::Items;
use rtx_tree::Name;
use std::alloc::Global;

/// What conditions know before registers have homes.
pub fn lower_facts(alloc: Global) -> Facts
    ensures { result ≡ spec.lower_facts }
{
    Facts {
        reloaded: false,
        new_pseudos: true,
        dead: Items::new(alloc),
    }
}

/// What conditions know once registers have homes.
pub fn output_facts(alloc: Global) -> Facts
    ensures { result ≡ spec.output_facts }
{
    Facts {
        reloaded: true,
        new_pseudos: false,
        dead: Items::new(alloc),
    }
}

/// The name under which a form is shown, by the names of all.
pub fn name_at(names: &[Name], form: u32) -> &[u8]
    ensures { result.now ≡ spec.name_at names.now form }
{
    match names.get(form as usize) {
        Some(name) => name.bytes(),
        None => b"",
    }
}
