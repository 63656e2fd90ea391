//! The forms that split instructions.
ghost use Rattle.std.specs.Prelude.{◌≡◌, ◌↔◌, ◌∷◌, [], ◌<◌, Some, None, IfOk, length};
ghost use Rattle.md_desc.specs.md_pred.Holds.{holds};
ghost use Rattle.md_recog.specs.Recog.{IsFirst, NoneBetween};
ghost use Rattle.md_recog.specs.declared.recog.FormMatch.{FormMatch};
ghost use Rattle.md_recog.specs.declared.half.Half.TheVariants as half;

use c_eval::Facts;
use md_desc::Description;
use md_recog::{FormMatch, Half, Matching, Steps};
use plain_data::Memory;
use recog_tree::recog;
use rtx_tree::Rtx;
use std::alloc::Global;
use std::marker::Brand;
use std::sync::ledger::{Blank, Ledger};

/// The first form from an index on whose split half matches an instruction, by steps that are
/// counted in a ledger.
fn split_counted<L: Ledger>(
    alloc: Global,
    desc: &Description,
    insn: &Rtx,
    facts: &Facts,
    from: u32,
    blank: Blank,
) -> Result<Option<FormMatch>, Memory>
    requires name { blank.name ≡ L.name }
    requires parts { blank.parts ≡ L.parts }
    requires some { 0 < blank.parts }
    ensures first { IfOk result (λ r. (m : FormMatch) →
        (r ≡ Some m) ↔ IsFirst (holds desc.now) facts.now half.Split
        (insn.now ∷ []) desc.now from m) }
    ensures none { IfOk result (λ r. r ≡ None →
        NoneBetween (holds desc.now) facts.now half.Split (insn.now ∷ []) desc.now from
        (length desc.now)) }
{
    let mut steps = Steps::<L>::new(blank);
    let matching = Matching {
        half: Half::Split,
        facts,
        preds: desc.preds(),
    };
    recog(
        alloc,
        desc.splits(),
        desc.forms().as_slice(),
        &matching,
        insn,
        from,
        &mut steps,
    )
}

/// The first form from an index on whose split half matches an instruction, or `None` exactly where
/// there is none such.
///
/// # Errors
///
/// `Memory` where memory ran out.
pub fn split_of(
    alloc: Global,
    desc: &Description,
    insn: &Rtx,
    facts: &Facts,
    from: u32,
) -> Result<Option<FormMatch>, Memory>
    ensures first { IfOk result (λ r. (m : FormMatch) →
        (r ≡ Some m) ↔ IsFirst (holds desc.now) facts.now half.Split
        (insn.now ∷ []) desc.now from m) }
    ensures none { IfOk result (λ r. r ≡ None →
        NoneBetween (holds desc.now) facts.now half.Split (insn.now ∷ []) desc.now from
        (length desc.now)) }
{
    split_counted::<Brand>(alloc, desc, insn, facts, from, Blank::new(1))
}
