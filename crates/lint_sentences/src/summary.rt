//! The summary of a report.
ghost use Rattle.std.specs.Prelude.{◌≡◌, ◌≤◌, ◌++◌, ◌==◌, OnOk, length};
ghost use Rattle.std.specs.List.{count_by};
ghost use Rattle.lint_sentences.specs.Kind.{is_kind};
ghost use Rattle.lint_sentences.specs.Summary as spec;
ghost use Rattle.lint_sentences.specs.Each.{each_from};

use crate::kind::Kind;
use plain_data::Memory;
use text_words::{print_count, print_text};

/// Appends words and a count.
fn print_counted(words: &[u8], count: u64, out: &mut Vec<u8>) -> Result<(), Memory>
    ensures { OnOk result (out.new.items ≡ out.old.items ++ spec.counted words.now count) }
{
    print_text(words, out)?;
    print_count(count, out)
}

// ---- forms

fn reason_count(reasons: &[u8], number: u8) -> usize
    ensures { result ≡ spec.reason_count reasons.now number }
{
    let mut count = 0;
    for reason in reasons {
        if *reason == number {
            count += 1;
        }
    }
    count
}

/// Appends a reason and how many forms have it, where some have.
#[tactic(auto, using(lint_choices::proofs::PushedLaws::nothing_pushed, lint_choices::proofs::PushedLaws::pushed_both))]
fn print_reason_counted(number: u8, count: usize, out: &mut Vec<u8>) -> Result<(), Memory>
    ensures { OnOk result (out.new.items ≡ out.old.items ++ spec.reason_counted number count) }
{
    if count == 0 {
        return Ok(());
    }
    print_counted(b", reason ", u64::from(number), out)?;
    print_counted(b": ", count as u64, out)
}

/// Appends how many forms have a reason, where some have.
fn print_reason(reasons: &[u8], number: u8, out: &mut Vec<u8>) -> Result<(), Memory>
    ensures { OnOk result (out.new.items ≡ out.old.items ++ spec.reason_text reasons.now number) }
{
    print_reason_counted(number, reason_count(reasons, number), out)
}

fn print_reasons(reasons: &[u8], out: &mut Vec<u8>) -> Result<(), Memory>
    ensures { OnOk result (out.new.items ≡ out.old.items ++
        each_from (spec.reason_text reasons.now) 1 12) }
{
    for number in 1..13 {
        print_reason(reasons, number, out)?;
    }
    Ok(())
}

fn print_forms(forms: usize, reasons: &[u8], out: &mut Vec<u8>) -> Result<(), Memory>
    ensures { OnOk result (out.new.items ≡ out.old.items ++ spec.forms_text forms reasons.now) }
{
    let aside = reasons.len();
    print_counted(b"forms ", forms as u64, out)?;
    print_counted(b", taken ", forms.saturating_sub(aside) as u64, out)?;
    print_counted(b", aside ", aside as u64, out)?;
    print_reasons(reasons, out)?;
    print_text(b"\n", out)
}

// ---- findings

fn kind_count(kinds: &[Kind], kind: Kind) -> usize
    ensures { result ≡ spec.kind_count kinds.now kind }
{
    let mut count = 0;
    for other in kinds {
        if kind.same(*other) {
            count += 1;
        }
    }
    count
}

fn print_kind(kinds: &[Kind], words: &[u8], kind: Kind, out: &mut Vec<u8>) -> Result<(), Memory>
    ensures { OnOk result (out.new.items ≡ out.old.items ++
        spec.kind_text kinds.now words.now kind) }
{
    print_counted(words, kind_count(kinds, kind) as u64, out)
}

fn print_lacking_kinds(kinds: &[Kind], out: &mut Vec<u8>) -> Result<(), Memory>
    ensures { OnOk result (out.new.items ≡ out.old.items ++ spec.lacking_kinds kinds.now) }
{
    print_kind(kinds, b", missing ", Kind::Missing, out)?;
    print_kind(kinds, b", unmatched ", Kind::Unmatched, out)?;
    Ok(())
}

fn print_first_kinds(kinds: &[Kind], out: &mut Vec<u8>) -> Result<(), Memory>
    ensures { OnOk result (out.new.items ≡ out.old.items ++ spec.first_kinds kinds.now) }
{
    print_kind(kinds, b"wrong ", Kind::Wrong, out)?;
    print_kind(kinds, b", unreached ", Kind::Unreached, out)?;
    print_lacking_kinds(kinds, out)?;
    Ok(())
}

fn print_other_kinds(kinds: &[Kind], out: &mut Vec<u8>) -> Result<(), Memory>
    ensures { OnOk result (out.new.items ≡ out.old.items ++ spec.other_kinds kinds.now) }
{
    print_kind(kinds, b", untaken ", Kind::Untaken, out)?;
    print_kind(kinds, b", cannot ", Kind::Cannot, out)?;
    print_kind(kinds, b", idle ", Kind::Idle, out)?;
    print_text(b"\n", out)
}

/// Appends how many forms there are, taken and set aside for these reasons, how many instances were
/// tried, and how many findings there are of each kind.
pub fn print_summary(
    forms: usize,
    reasons: &[u8],
    tried: u64,
    kinds: &[Kind],
    out: &mut Vec<u8>,
) -> Result<(), Memory>
    ensures { OnOk result (out.new.items ≡ out.old.items ++
        spec.summary_text forms reasons.now tried kinds.now) }
{
    print_forms(forms, reasons, out)?;
    print_counted(b"instances ", tried, out)?;
    print_text(b"\n", out)?;
    print_first_kinds(kinds, out)?;
    print_other_kinds(kinds, out)
}
