//! Lists with commas.
ghost use Rattle.std.specs.Prelude.{◌≡◌, ◌≤◌, drop, length, IfOk};
ghost use Rattle.md_text.specs.Lists as spec;

use plain_data::{Items, Memory};
use rtx_tree::Name;
use std::alloc::Global;
use text_words::{behind_blanks, is_blank};

/// What stands from a place on.
pub fn behind(text: &[u8], at: usize) -> &[u8]
    requires { at ≤ length text.now }
    ensures { result.now ≡ drop at text.entry.now }
{
    &text[at..]
}

/// What stands between the marks of a text, in order: one part more than there are marks.
#[tactic(auto, using(crate::proofs::Parts::parts_begin, crate::proofs::Parts::parts_cut, crate::proofs::Parts::parts_grow, crate::proofs::Parts::parts_end))]
pub fn parts_of(alloc: Global, text: &[u8], mark: u8) -> Result<Items<Name>, Memory>
    ensures { IfOk result (λ parts. parts ≡ spec.parts mark text.now) }
{
    let mut parts = Items::new(alloc);
    let mut part = Vec::new(alloc);
    for byte in text {
        if *byte != mark {
            part.push(*byte)?;
            continue;
        }
        parts.push(Name::from_vec(part))?;
        part = Vec::new(alloc);
    }
    parts.push(Name::from_vec(part))?;
    Ok(parts)
}

#[tactic(auto, using(crate::proofs::Blanks::last_blank, crate::proofs::Blanks::last_other))]
fn before_blanks(text: &[u8]) -> &[u8]
    ensures { result.now ≡ spec.before_blanks text.entry.now }
{
    let mut front = text;
    while let [shorter @ .., last] = front {
        if !is_blank(*last) {
            return front;
        }
        front = shorter;
    }
    front
}

/// A text without the blanks at its ends.
pub fn trimmed(text: &[u8]) -> &[u8]
    ensures { result.now ≡ spec.trimmed text.entry.now }
{
    before_blanks(behind_blanks(text))
}

/// The members of a text with commas between them, in order, without the blanks round each. Where
/// there is no comma there is one member.
pub fn members_of(alloc: Global, text: &[u8]) -> Result<Items<Name>, Memory>
    ensures { IfOk result (λ members. members ≡ spec.members text.now) }
{
    let parts = parts_of(alloc, text, b',')?;
    let mut members = Items::new(alloc);
    for part in parts.as_slice() {
        members.push(Name::of(alloc, trimmed(part.bytes()))?)?;
    }
    Ok(members)
}
