//! Constraints of operands.
ghost use Rattle.std.specs.Prelude.{◌≡◌, IfOk, option_map};
ghost use Rattle.std.specs.List.{list_all};
ghost use Rattle.md_text.specs.Constraint as spec;
ghost use Rattle.text_words.specs.Blanks.{is_blank};

use crate::lists::{behind, parts_of};
use crate::names::ConstraintNames;
use crate::sign::{sign_at, signed};
use plain_data::{Items, Memory};
use rtx_tree::Name;
use std::alloc::Global;
use text_words::all_blank;

/// What a letter of the manual admits.
#[derive(Clone, Copy, Debug)]
pub enum Letter {
    /// `r`: a register.
    Register,
    /// `m`: memory.
    Memory,
    /// `i`: a constant or a symbol.
    Immediate,
    /// `n`: a constant.
    Constant,
    /// `s`: a symbol.
    Symbol,
    /// `g`: a register, memory, a constant or a symbol.
    General,
    /// `X`: anything.
    Anything,
    /// `p`: an address.
    Address,
}

/// What an alternative admits. An operand has to meet one of the members.
#[derive(Drop)]
pub enum Member {
    /// What the letter says.
    Letter(Letter),
    /// What is the same as the operand of this number, 0 to 9.
    Same(u8),
    /// What the constraint of this name, defined in the description, says.
    Defined(Name),
}

/// What an instruction does with an operand, as its constraint is marked. The mark stands in the
/// first alternative, and is meant for all.
#[derive(Clone, Copy)]
pub enum Direction {
    /// The operand is read: no mark.
    Input,
    /// The operand is written: `=`.
    Output,
    /// The operand is read and written: `+`.
    Both,
}

/// One alternative of a constraint. One without members accepts anything.
#[derive(Drop)]
pub struct Alternative {
    /// The mark `=` or `+`.
    pub direction: Direction,
    /// Whether `&` stands there: the operand is written before all inputs are read.
    pub early: bool,
    /// How many `?` stand there.
    pub slight: u64,
    /// How many `!` stand there.
    pub severe: u64,
    /// What the alternative admits, in order.
    pub members: Items<Member>,
}

/// The alternatives of an operand, in order. None at all, from an empty text, is no list of
/// alternatives and accepts anything.
pub type Constraint = Items<Alternative>;

/// The alternative that a text without commas is.
fn alternative_of(
    alloc: Global,
    names: &ConstraintNames,
    text: &[u8],
) -> Result<Option<Alternative>, Memory>
    ensures { IfOk result (λ alternative. alternative ≡ spec.alternative_of names.now text.now) }
{
    let mut alternative = Alternative {
        direction: Direction::Input,
        early: false,
        slight: 0,
        severe: 0,
        members: Items::new(alloc),
    };
    let mut taken = 0;
    for at in 0..text.len() {
        if taken > 0 {
            taken -= 1;
            continue;
        }
        let Some((sign, more)) = sign_at(alloc, names, behind(text, at))? else {
            return Ok(None);
        };
        alternative = signed(alternative, sign)?;
        taken = more;
    }
    Ok(Some(alternative))
}

/// The constraint that a text is, where `names` are those of the constraints that the description
/// defines; `None` where something in it is unknown.
#[tactic(auto, using(crate::proofs::Each::with_nothing, crate::proofs::Each::each_next, crate::proofs::Each::each_stops, crate::proofs::Each::each_ends))]
pub fn constraint_of(
    alloc: Global,
    text: &[u8],
    names: &ConstraintNames,
) -> Result<Option<Constraint>, Memory>
    ensures { IfOk result (λ constraint. constraint ≡ spec.constraint_of names.now text.now) }
{
    let mut alternatives = Items::new(alloc);
    if all_blank(text) {
        return Ok(Some(alternatives));
    }
    let parts = parts_of(alloc, text, b',')?;
    for part in parts.as_slice() {
        match alternative_of(alloc, names, part.bytes())? {
            Some(alternative) => alternatives.push(alternative)?,
            None => return Ok(None),
        }
    }
    Ok(Some(alternatives))
}
