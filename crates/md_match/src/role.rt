//! What the expressions of a pattern stand for.
ghost use Rattle.std.specs.Prelude.{◌≡◌, ◌↔◌, IsTrue, IfSome, IfNone};
ghost use Rattle.std.specs.Option.{option_copied};
ghost use Rattle.rtx_tree.specs.Tree.{head_of};
ghost use Rattle.md_match.specs.Pattern as spec;
ghost use Rattle.md_match.specs.Pattern.{operand_of};

use rtx_tree::{Code, Operands, Rtx};

/// What an expression of a pattern stands for.
#[derive(Clone, Copy)]
pub enum Role {
    /// The operand with its number.
    Operand,
    /// The head of the operand with its number, over the parts in the pattern.
    Operator,
    /// Itself, over its parts.
    Itself,
}

/// What an expression of this code stands for in a pattern.
pub fn role_of(code: Code) -> Role
    ensures { result ≡ spec.role_of code }
{
    match code {
        Code::MatchOperand | Code::MatchScratch | Code::MatchDup => Role::Operand,
        Code::MatchOperator | Code::MatchOpDup => Role::Operator,
        _ => Role::Itself,
    }
}

/// Whether a placeholder of this code gives its operand, and does not repeat one.
pub fn gives(code: Code) -> bool
    ensures { result ≡ spec.gives code }
{
    matches!(
        code,
        Code::MatchOperand | Code::MatchScratch | Code::MatchOperator
    )
}

/// The operand that a placeholder names, or `None` where it is missing.
pub fn operand_of<'a>(placeholder: &Rtx, operands: &'a Operands) -> Option<&'a Rtx>
    ensures { option_copied result ≡ operand_of placeholder.now operands.now }
{
    match usize::try_from(placeholder.number) {
        Ok(number) => operands.get(number),
        Err(_) => None,
    }
}
