//! What an alternative of a constraint is written with.
ghost use Rattle.std.specs.Prelude.{◌≡◌, ◌+◌, ◌<◌, ◌≤◌, ◌^◌, ◌∷◌, IfOk, IfSome, length, map, option_map};
ghost use Rattle.md_text.specs.Constraint as spec;

use crate::constraint::{Alternative, Direction, Letter, Member};
use crate::names::ConstraintNames;
use plain_data::Memory;
use rtx_tree::Name;
use std::alloc::Global;
use text_words::is_blank;

/// A mark or a member in the text of an alternative.
#[derive(Drop)]
pub enum Sign {
    /// A sign without effect.
    Nothing,
    Output,
    Both,
    Early,
    Slight,
    Severe,
    Member(Member),
}

fn written(direction: Direction) -> Direction
    ensures { result ≡ spec.written direction }
{
    match direction {
        Direction::Both => Direction::Both,
        _ => Direction::Output,
    }
}

fn letter_of(byte: u8) -> Option<Letter>
    ensures { result ≡ spec.letter_of byte }
{
    match byte {
        b'r' => Some(Letter::Register),
        b'm' => Some(Letter::Memory),
        b'i' => Some(Letter::Immediate),
        b'n' => Some(Letter::Constant),
        b's' => Some(Letter::Symbol),
        b'g' => Some(Letter::General),
        b'X' => Some(Letter::Anything),
        b'p' => Some(Letter::Address),
        _ => None,
    }
}

fn own_member(byte: u8) -> Option<Member>
    ensures { result ≡ spec.own_member byte }
{
    match byte {
        b'0'..=b'9' => Some(Member::Same(byte - b'0')),
        _ => Some(Member::Letter(letter_of(byte)?)),
    }
}

/// What a byte means by itself, where so many follow it.
fn own(byte: u8, follow: usize) -> Option<(Sign, usize)>
    ensures { result ≡ spec.own byte follow }
{
    match byte {
        b'=' => Some((Sign::Output, 0)),
        b'+' => Some((Sign::Both, 0)),
        b'&' => Some((Sign::Early, 0)),
        b'?' => Some((Sign::Slight, 0)),
        b'!' => Some((Sign::Severe, 0)),
        b'%' | b'*' => Some((Sign::Nothing, 0)),
        b'#' => Some((Sign::Nothing, follow)),
        _ => Some((Sign::Member(own_member(byte)?), 0)),
    }
}

fn defined(alloc: Global, name: &[u8]) -> Result<Option<(Sign, usize)>, Memory>
    requires { 0 < length name.now }
    ensures { IfOk result (λ sign. sign ≡ Some (spec.defined name.now)) }
{
    let member = Member::Defined(Name::of(alloc, name)?);
    Ok(Some((Sign::Member(member), name.len() - 1)))
}

/// What a first byte means behind the name that begins there, if one does, where so many bytes
/// follow.
fn by_name(
    alloc: Global,
    name: &[u8],
    byte: u8,
    follow: usize,
) -> Result<Option<(Sign, usize)>, Memory>
    ensures { IfOk result (λ sign. sign ≡ spec.by_name name.now byte follow) }
{
    if name.len() > 1 {
        return defined(alloc, name);
    }
    match own(byte, follow) {
        Some(sign) => Ok(Some(sign)),
        None if name.len() == 1 => defined(alloc, name),
        None => Ok(None),
    }
}

/// What stands at the front of an alternative, and how many bytes it has behind its first.
pub fn sign_at(
    alloc: Global,
    names: &ConstraintNames,
    text: &[u8],
) -> Result<Option<(Sign, usize)>, Memory>
    ensures { IfOk result (λ sign. sign ≡ spec.sign_at names.now text.now) }
{
    match text {
        [] => Ok(None),
        [byte, ..] if is_blank(*byte) => Ok(Some((Sign::Nothing, 0))),
        [byte, rest @ ..] => by_name(alloc, names.longest(text), *byte, rest.len()),
    }
}

/// One sign more.
pub fn signed(mut alternative: Alternative, sign: Sign) -> Result<Alternative, Memory>
    requires slight { alternative.slight + 1 < 2 ^ 64 }
    requires severe { alternative.severe + 1 < 2 ^ 64 }
    ensures value { IfOk result (λ a. a ≡ spec.signed alternative sign) }
    ensures slight_grows { IfOk result (λ a. a.slight ≤ alternative.slight + 1) }
    ensures severe_grows { IfOk result (λ a. a.severe ≤ alternative.severe + 1) }
{
    match sign {
        Sign::Nothing => {}
        Sign::Output => alternative.direction = written(alternative.direction),
        Sign::Both => alternative.direction = Direction::Both,
        Sign::Early => alternative.early = true,
        Sign::Slight => alternative.slight += 1,
        Sign::Severe => alternative.severe += 1,
        Sign::Member(member) => alternative.members.push(member)?,
    }
    Ok(alternative)
}
