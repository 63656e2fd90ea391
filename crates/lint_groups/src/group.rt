//! The groups of functions that are tried.
ghost use Rattle.std.specs.Prelude.{◌≡◌, ◌++◌, IfOk, OnOk, map, flat_map};
ghost use Rattle.lint_groups.specs.declared.group.Group.TheVariants as groups;
ghost use Rattle.lint_groups.specs.Groups as spec;

use md_forms::{Entry, Form, FormHead};
use plain_data::{Items, Memory};
use plain_shape::{Shape, all_shapes};
use rtx_tree::Mode;
use std::alloc::Global;

/// Functions of which the first that is refused is told.
#[derive(Clone, Copy)]
pub enum Group {
    /// Those with an instruction of a shape.
    Shape(Shape),
    /// One that keeps values over a call.
    Kept {
        /// The mode of the values.
        mode: Mode,
        /// Whether its frame is large.
        is_far: bool,
    },
    /// Those with an instruction that a form splits.
    Split {
        /// The index of the form.
        form: u32,
    },
    /// Those with a window of a peephole.
    Peephole {
        /// The index of the form.
        form: u32,
    },
}

static MODES: [Mode; 4] = [Mode::QI, Mode::HI, Mode::SI, Mode::DI];

fn kept_modes() -> &'static [Mode]
    ensures { result.now ≡ spec.kept_modes }
{
    &MODES
}

#[tactic(auto, using(lint_choices::proofs::PushedLaws::mapped_next, lint_choices::proofs::PushedLaws::pushed_ends))]
fn push_shapes(shapes: &[Shape], out: &mut Items<Group>) -> Result<(), Memory>
    ensures { OnOk result (out.new ≡ out.old ++ map groups.Shape shapes.now) }
{
    for shape in shapes {
        out.push(Group::Shape(*shape))?;
    }
    Ok(())
}

#[tactic(auto, unfolding(crate::specs::Groups::shape_groups))]
fn push_all_shapes(out: &mut Items<Group>) -> Result<(), Memory>
    ensures { OnOk result (out.new ≡ out.old ++ spec.shape_groups) }
{
    push_shapes(all_shapes(), out)
}

fn push_kept_in(mode: Mode, out: &mut Items<Group>) -> Result<(), Memory>
    ensures { OnOk result (out.new ≡ out.old ++ spec.kept_in mode) }
{
    out.push(Group::Kept {
        mode,
        is_far: false,
    })?;
    out.push(Group::Kept { mode, is_far: true })
}

#[tactic(auto, using(lint_choices::proofs::PushedLaws::pushed_next, lint_choices::proofs::PushedLaws::pushed_ends))]
fn push_kept(modes: &[Mode], out: &mut Items<Group>) -> Result<(), Memory>
    ensures { OnOk result (out.new ≡ out.old ++ flat_map spec.kept_in modes.now) }
{
    for mode in modes {
        push_kept_in(*mode, out)?;
    }
    Ok(())
}

#[tactic(auto, using(lint_choices::proofs::PushedLaws::nothing_pushed))]
fn push_split(form: u32, says: &Form, out: &mut Items<Group>) -> Result<(), Memory>
    ensures { OnOk result (out.new ≡ out.old ++ spec.split_groups form says.now) }
{
    match says.head {
        FormHead::Split | FormHead::InsnAndSplit => out.push(Group::Split { form }),
        _ => Ok(()),
    }
}

#[tactic(auto, using(lint_choices::proofs::PushedLaws::nothing_pushed))]
fn push_peephole(form: u32, says: &Form, out: &mut Items<Group>) -> Result<(), Memory>
    ensures { OnOk result (out.new ≡ out.old ++ spec.peephole_groups form says.now) }
{
    match says.head {
        FormHead::Peephole2 => out.push(Group::Peephole { form }),
        _ => Ok(()),
    }
}

/// Appends the groups of a form.
#[tactic(auto, using(lint_choices::proofs::PushedLaws::nothing_pushed, lint_choices::proofs::PushedLaws::pushed_both))]
fn push_form(form: u32, entry: &Entry, out: &mut Items<Group>) -> Result<(), Memory>
    ensures { OnOk result (out.new ≡ out.old ++ spec.form_groups form entry.now.form) }
{
    match &entry.form {
        Ok(says) => {
            push_split(form, says, out)?;
            push_peephole(form, says, out)
        }
        Err(_) => Ok(()),
    }
}

#[tactic(auto, using(crate::proofs::GroupLaws::forms_next, lint_choices::proofs::PushedLaws::pushed_ends))]
fn push_forms(forms: &[Entry], out: &mut Items<Group>) -> Result<(), Memory>
    ensures { OnOk result (out.new ≡ out.old ++ spec.forms_groups 0 forms.now) }
{
    let mut form: u32 = 0;
    for entry in forms {
        push_form(form, entry, out)?;
        let Some(next) = form.checked_add(1) else {
            return Err(Memory);
        };
        form = next;
    }
    Ok(())
}

/// The groups that are tried for a description with these forms.
#[tactic(auto, using(lint_choices::proofs::PushedLaws::pushed_three))]
pub fn groups_of(alloc: Global, forms: &[Entry]) -> Result<Items<Group>, Memory>
    ensures { IfOk result (λ out. out ≡ spec.groups_of forms.now) }
{
    let mut out = Items::new(alloc);
    push_all_shapes(&mut out)?;
    push_kept(kept_modes(), &mut out)?;
    push_forms(forms, &mut out)?;
    Ok(out)
}
