//! The forms that put others in the place of a window of instructions.
ghost use Rattle.std.specs.Prelude.{◌≡◌, ◌↔◌, ◌<◌, not, false, Some, IfOk, MatchOption, length, map};
ghost use Rattle.std.specs.List.{count_by};
ghost use Rattle.md_desc.specs.md_pred.Holds.{holds};
ghost use Rattle.md_match.specs.Pattern.{Ops};
ghost use Rattle.md_match.specs.Match.{Matches};
ghost use Rattle.md_recog.specs.Recog.{MatchesHere, is_scratch, window_of};
ghost use Rattle.md_recog.specs.declared.recog.FormMatch.{FormMatch};
ghost use Rattle.md_recog.specs.declared.half.Half.TheVariants as half;
ghost use Rattle.recog_tree.specs.Windows.{NoneBegins, MayBegin};
ghost use Rattle.md_window.specs.Windows as spec;

use c_eval::Facts;
use md_desc::Description;
use md_forms::Entry;
use md_match::match_shapes;
use md_recog::{FormMatch, Half, Matching, Steps, is_scratch, match_at};
use plain_data::{Items, Memory};
use rtx_tree::{Insn, Kids, Rtx};
use std::alloc::Global;
use std::marker::Brand;
use std::sync::ledger::{Blank, Ledger};

/// The first form from an index on whose window may begin with an instruction.
pub fn next_window(desc: &Description, insn: &Rtx, from: u32) -> Option<u32>
    ensures { MatchOption result (NoneBegins desc.now insn.now from (length desc.now))
        (λ form. MayBegin desc.now insn.now from form) }
{
    recog_tree::next_window(desc.windows(), insn, from)
}

/// How many of some elements of a window are instructions.
fn count_insns(patterns: &[Rtx]) -> usize
    ensures { result ≡ count_by (λ p. not (is_scratch p)) patterns.now }
{
    let mut count = 0;
    for pattern in patterns {
        if !is_scratch(pattern) {
            count += 1;
        }
    }
    count
}

fn size_of(entry: &Entry) -> usize
    ensures { result ≡ spec.size_in entry.now.form }
{
    match &entry.form {
        Ok(form) => count_insns(form.patterns.as_slice()),
        Err(_) => 0,
    }
}

/// How many instructions the window of the form with an index has, or 0 where it is not accepted.
pub fn window_size(desc: &Description, form: u32) -> usize
    ensures { result ≡ spec.window_size desc.now form }
{
    match desc.forms().as_slice().get(form as usize) {
        Some(entry) => size_of(entry),
        None => 0,
    }
}

/// The patterns of instructions.
fn patterns_of<'a>(alloc: Global, insns: &'a [Insn]) -> Result<Vec<&'a Rtx>, Memory>
    ensures { IfOk result (λ r. map (λ p. p.now) r.items ≡ map (λ i. i.pattern) insns.now) }
{
    let mut patterns = Vec::new(alloc);
    for insn in insns {
        patterns.push(&insn.pattern)?;
    }
    Ok(patterns)
}

/// The instructions among some elements of a window.
fn insns_among(alloc: Global, patterns: &[Rtx]) -> Result<Kids, Memory>
    ensures { IfOk result (λ insns. insns ≡ window_of patterns.now) }
{
    let mut insns = Items::new(alloc);
    for pattern in patterns {
        if !is_scratch(pattern) {
            insns.push(pattern.copy(alloc)?)?;
        }
    }
    Ok(insns)
}

/// Whether patterns have the shape of expressions, by steps that are counted in a ledger.
fn shape_counted<L: Ledger>(
    alloc: Global,
    patterns: &[Rtx],
    insns: &[&Rtx],
    blank: Blank,
) -> Result<bool, Memory>
    requires name { blank.name ≡ L.name }
    requires parts { blank.parts ≡ L.parts }
    requires some { 0 < blank.parts }
    ensures { IfOk result (λ has. has ≡ false → (operands : Ops) →
        Matches patterns.now (map (λ insn. insn.now) insns.now) operands → ⊥) }
{
    let mut steps = Steps::<L>::new(blank);
    match match_shapes(alloc, patterns, insns, &mut steps)? {
        Some(_) => Ok(true),
        None => Ok(false),
    }
}

/// Whether some elements of a window have the shape of expressions.
fn elements_fit(alloc: Global, elements: &[Rtx], insns: &[&Rtx]) -> Result<bool, Memory>
    ensures { IfOk result (λ has. has ≡ false → (operands : Ops) →
        Matches (window_of elements.now) (map (λ insn. insn.now) insns.now) operands → ⊥) }
{
    let patterns = insns_among(alloc, elements)?;
    shape_counted::<Brand>(alloc, patterns.as_slice(), insns, Blank::new(1))
}

/// Whether the window of a form has the shape of instructions.
fn entry_fits(alloc: Global, entry: &Entry, insns: &[Insn]) -> Result<bool, Memory>
    ensures { IfOk result (λ has. has ≡ false →
        spec.NeverMatches (map (λ i. i.pattern) insns.now) entry.now) }
{
    let patterns = patterns_of(alloc, insns)?;
    match &entry.form {
        Ok(form) => elements_fit(alloc, form.patterns.as_slice(), patterns.as_slice()),
        Err(_) => Ok(false),
    }
}

/// Whether the window of a form has the shape of instructions, predicates and condition aside.
/// Where it has not, it never matches them.
///
/// # Errors
///
/// `Memory` where memory ran out.
pub fn has_shape(
    alloc: Global,
    desc: &Description,
    insns: &[Insn],
    form: u32,
) -> Result<bool, Memory>
    ensures { IfOk result (λ has. has ≡ false →
        spec.NeverMatchesAt desc.now (map (λ i. i.pattern) insns.now) form) }
{
    match desc.forms().as_slice().get(form as usize) {
        Some(entry) => entry_fits(alloc, entry, insns),
        None => Ok(false),
    }
}

/// The match of the window of a form with instructions, by steps that are counted in a ledger.
fn window_counted<L: Ledger>(
    alloc: Global,
    desc: &Description,
    insns: &[Insn],
    facts: &Facts,
    form: u32,
    blank: Blank,
) -> Result<Option<FormMatch>, Memory>
    requires name { blank.name ≡ L.name }
    requires parts { blank.parts ≡ L.parts }
    requires some { 0 < blank.parts }
    requires form { form < length desc.now }
    ensures { IfOk result (λ r. (m : FormMatch) → (r ≡ Some m) ↔ MatchesHere (holds desc.now)
        facts.now half.Window (map (λ i. i.pattern) insns.now) desc.now form m) }
{
    let mut steps = Steps::<L>::new(blank);
    let patterns = patterns_of(alloc, insns)?;
    let matching = Matching {
        half: Half::Window,
        facts,
        preds: desc.preds(),
    };
    match_at(
        alloc,
        desc.forms().as_slice(),
        &matching,
        patterns.as_slice(),
        form,
        &mut steps,
    )
}

/// The match of the window of a form with instructions, or `None` exactly where it does not match
/// them. Its scratch registers are not given yet.
///
/// # Errors
///
/// `Memory` where memory ran out.
pub fn window_match(
    alloc: Global,
    desc: &Description,
    insns: &[Insn],
    facts: &Facts,
    form: u32,
) -> Result<Option<FormMatch>, Memory>
    requires { form < length desc.now }
    ensures { IfOk result (λ r. (m : FormMatch) → (r ≡ Some m) ↔ MatchesHere (holds desc.now)
        facts.now half.Window (map (λ i. i.pattern) insns.now) desc.now form m) }
{
    window_counted::<Brand>(alloc, desc, insns, facts, form, Blank::new(1))
}
