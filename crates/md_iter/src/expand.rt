//! All forms of a description.
ghost use Rattle.std.specs.Prelude.{◌≡◌, ◌++◌, ◌≤◌, OnOk, IfErr, length};
ghost use Rattle.md_iter.specs.Expansion as spec;
ghost use Rattle.md_iter.specs.machine.Steps as steps;
ghost use Rattle.rtx_tree.specs.Limit.{most_forms};

use crate::choice::{choice_at, choice_count, iterators_of};
use crate::definition::{Definitions, definitions_in, is_form};
use crate::refusal::IterRefusal;
use crate::substitution::{Instance, form_under};
use lisp_read::Tree;
use name_places::Constants;
use plain_data::{Items, Memory};
use rtx_tree::MOST_FORMS;
use std::alloc::Global;

/// A description without its iterators.
#[derive(Drop)]
pub struct Expanded {
    /// The forms, in order.
    pub forms: Items<Instance>,
    /// All constants that the description defines, in order. Of a name that stands twice the first
    /// counts.
    pub constants: Constants,
}

/// Why the forms of one tree were not made.
enum TreeRefusal {
    /// The forms would be too many.
    Limit,
    Memory,
}

impl From<Memory> for TreeRefusal {
    ghost use Rattle.std.specs.Prelude.{◌≡◌};
    ghost use Rattle.md_iter.specs.declared.expand.TreeRefusal.TheVariants as refusal;

    ghost from_gives = { λ _ e. e ≡ refusal.Memory };

    fn from(_e: Memory) -> TreeRefusal {
        TreeRefusal::Memory
    }
}

/// Appends the forms that a form makes.
fn expand_form(
    alloc: Global,
    definitions: &Definitions,
    form: &Tree,
    forms: &mut Items<Instance>,
) -> Result<(), TreeRefusal>
    requires { length forms.old ≤ most_forms }
    ensures ok { OnOk result (forms.new ≡ forms.old ++ spec.forms_of_form definitions.now
        form.now) }
    ensures bound { OnOk result (length forms.new ≤ most_forms) }
    ensures limit { IfErr result (λ e.
        steps.IsTooMany e forms.old (spec.forms_of_form definitions.now form.now)) }
{
    let used = iterators_of(alloc, &definitions.iterators, form)?;
    let count = choice_count(used.as_slice());
    if count > MOST_FORMS - forms.len() {
        return Err(TreeRefusal::Limit);
    }
    for at in 0..count {
        let choices = choice_at(alloc, used.as_slice(), count, at)?;
        forms.push(form_under(alloc, definitions, choices.as_slice(), form)?)?;
    }
    Ok(())
}

/// Appends the forms that a tree makes, which are none where it is a definition.
fn expand_tree(
    alloc: Global,
    definitions: &Definitions,
    tree: &Tree,
    forms: &mut Items<Instance>,
) -> Result<(), TreeRefusal>
    requires { length forms.old ≤ most_forms }
    ensures ok { OnOk result (forms.new ≡ forms.old ++ spec.forms_of_tree definitions.now
        tree.now) }
    ensures bound { OnOk result (length forms.new ≤ most_forms) }
    ensures limit { IfErr result (λ e.
        steps.IsTooMany e forms.old (spec.forms_of_tree definitions.now tree.now)) }
{
    if is_form(alloc, tree)? {
        expand_form(alloc, definitions, tree, forms)
    } else {
        Ok(())
    }
}

/// The refusal at a tree. One whose place can't be told is want of memory.
fn limit_at(at: usize) -> IterRefusal
    ensures { steps.IsLimitAt at result }
{
    match u32::try_from(at) {
        Ok(form) => IterRefusal::Limit { form },
        Err(_) => IterRefusal::Memory,
    }
}

fn expand_trees(
    alloc: Global,
    definitions: &Definitions,
    trees: &[Tree],
) -> Result<Items<Instance>, IterRefusal>
    ensures { steps.Gives definitions.now trees.now result }
{
    let mut forms = Items::new(alloc);
    for at in 0..trees.len() {
        match expand_tree(alloc, definitions, &trees[at], &mut forms) {
            Ok(()) => {}
            Err(TreeRefusal::Limit) => return Err(limit_at(at)),
            Err(TreeRefusal::Memory) => return Err(IterRefusal::Memory),
        }
    }
    Ok(forms)
}

/// The forms of a description, in the order of its trees, and its constants.
///
/// Definitions of iterators, of their attributes and of constants are taken out and hold for the
/// whole text, wherever they stand; of a name that is defined twice the first definition counts. A
/// definition whose parts are missing, too many or of the wrong kind is a form like all other
/// trees. A form stands once for each choice of values of the iterators that its atoms use, the
/// first of them varying slowest, with the values' conditions beside it. `Limit` is answered
/// exactly where there are more than 20,000 forms, with the tree that passes this number, or
/// `Memory`.
pub fn expand_forms(alloc: Global, trees: &[Tree]) -> Result<Expanded, IterRefusal>
    ensures { spec.Gives trees.now result }
{
    let definitions = definitions_in(alloc, trees)?;
    let forms = expand_trees(alloc, &definitions, trees)?;
    let Definitions { constants, .. } = definitions;
    Ok(Expanded { forms, constants })
}
