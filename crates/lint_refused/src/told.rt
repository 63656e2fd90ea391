//! What the refusal of a function tells.
ghost use Rattle.std.specs.Prelude.{◌≡◌, IfOk, OnOk};
ghost use Rattle.std.specs.List.{list_any};
ghost use Rattle.lint_refused.specs.Told as spec;

use crate::refused::{Refused, Site, Why};
use pass_name::Pass;
use plain_data::{Items, Memory};
use rtx_tree::Name;
use run_refusal::{Refusal, line};
use std::alloc::Global;

fn why_unmatched(pass: Pass) -> Why
    ensures { result ≡ spec.why_unmatched pass }
{
    match pass {
        Pass::Lower => Why::Missing,
        Pass::Reload | Pass::Frame => Why::Cannot,
        _ => Why::Unmatched,
    }
}

fn why_of(refusal: &Refusal) -> Why
    ensures { result ≡ spec.why_of refusal.now }
{
    match refusal {
        Refusal::Unmatched { pass, .. } => why_unmatched(*pass),
        Refusal::Unsatisfied { .. } => Why::Untaken,
        Refusal::NotEquated { .. } => Why::Wrong,
        _ => Why::Cannot,
    }
}

/// Whether a refusal says of a function that it is none of the language.
fn is_ill_formed(refusal: &Refusal) -> bool
    ensures { result ≡ spec.is_ill_formed refusal.now }
{
    matches!(refusal, Refusal::IllFormed { .. })
}

/// Whether a refusal says something of what stands there.
fn counts(site: Site, why: Why) -> bool
    ensures { result ≡ spec.counts site why }
{
    match site {
        Site::Description => true,
        Site::Split { .. } => !matches!(why, Why::Missing),
        Site::Peephole { .. } => matches!(why, Why::Wrong) || matches!(why, Why::Unmatched),
    }
}

fn told(alloc: Global, site: Site, what: &Name, refusal: &Refusal) -> Result<Refused, Memory>
    ensures { IfOk result (λ r. r ≡ spec.told site what.now refusal.now) }
{
    Ok(Refused {
        site,
        why: why_of(refusal),
        what: what.copy(alloc)?,
        line: Name::from_vec(line(alloc, refusal)?),
    })
}

/// What the refusal of a function with this name tells where it is told, if it says something there.
pub fn told_at(
    alloc: Global,
    site: Site,
    what: &Name,
    refusal: &Refusal,
) -> Result<Option<Refused>, Memory>
    ensures { IfOk result (λ r. r ≡ spec.told_at site what.now refusal.now) }
{
    if is_ill_formed(refusal) || !counts(site, why_of(refusal)) {
        return Ok(None);
    }
    Ok(Some(told(alloc, site, what, refusal)?))
}

fn has_line(told: &[Refused], line: &Name) -> bool
    ensures { result ≡ list_any (spec.has_line line.now) told.now }
{
    for other in told {
        if line.bytes() == other.line.bytes() {
            return true;
        }
    }
    false
}

/// Appends what is told, unless its line was told before.
pub fn push_told(refused: Option<Refused>, told: &mut Items<Refused>) -> Result<(), Memory>
    ensures { OnOk result (told.new ≡ spec.with_told told.old refused) }
{
    let Some(refused) = refused else {
        return Ok(());
    };
    if has_line(told.as_slice(), &refused.line) {
        return Ok(());
    }
    told.push(refused)
}
