//! A function that is refused.
ghost use Rattle.std.specs.Prelude.{◌≡◌};
ghost use Rattle.std.specs.List.{list_any};
ghost use Rattle.lint_refused.specs.Refused as spec;

use rtx_tree::Name;

/// Where a refusal is told.
#[derive(Clone, Copy)]
pub enum Site {
    /// Of the description.
    Description,
    /// At a form that splits an instruction of the function.
    Split {
        /// The index of the form.
        form: u32,
    },
    /// At a peephole that replaces a window of the function.
    Peephole {
        /// The index of the form.
        form: u32,
    },
}

/// Why something is refused.
#[derive(Clone, Copy)]
pub enum Why {
    /// No form matches it, and none makes it.
    Missing,
    /// What stands in its place later has no form.
    Unmatched,
    /// A form matches it, of which no alternative can be reached.
    Untaken,
    /// Reload or the frame ask for what no form does, or it is refused for another reason.
    Cannot,
    /// What would stand in its place is not known to do the same.
    Wrong,
}

/// A function that is refused.
#[derive(Drop)]
pub struct Refused {
    /// Where that is told.
    pub site: Site,
    /// Why.
    pub why: Why,
    /// What the function is called.
    pub what: Name,
    /// The line of the refusal.
    pub line: Name,
}

/// Whether something is refused as it is not known to do the same.
pub fn any_unequal(refused: &[Refused]) -> bool
    ensures { result ≡ list_any spec.is_unequal refused.now }
{
    for one in refused {
        if matches!(one.why, Why::Wrong) {
            return true;
        }
    }
    false
}
