//! The values of heads by their parts.
ghost use Rattle.std.specs.Prelude.{◌≡◌};
ghost use Rattle.c_eval.specs.Value as spec;
ghost use Rattle.c_eval.specs.machine.Given.{operands_given, facts_given};

use crate::accessor::{asked, code_is, equal, is_dead, mode_is, number_in};
use crate::known::{Given, Known};
use crate::number::{chosen, in_range, joined, truth, unary_of};
use crate::preds::Preds;
use crate::reading::Reading;
use crate::reads::Reads;
use c_cond::{Call, CondHead};
use rtx_tree::{Code, Name};

/// Whether two operands are the same.
fn equal_of(operands: Given<'_>, x: Reading, y: Reading) -> Option<i64>
    ensures { result ≡ spec.equal_of (operands_given operands.entry) x y }
{
    let a = operands.of(x)?;
    let b = operands.of(y)?;
    Some(equal(a, b))
}

/// Whether a number is in a range.
fn range_of(a: Reading, low: Reading, high: Reading) -> Option<i64>
    ensures { result ≡ spec.range_of a low high }
{
    let a = a.number()?;
    let low = low.number()?;
    let high = high.number()?;
    Some(in_range(a, low, high))
}

/// Whether a number is one of 12 signed bits.
fn small_of(a: Reading) -> Option<i64>
    ensures { result ≡ spec.small_of a }
{
    Some(in_range(a.number()?, -2048, 2047))
}

impl<P: Preds> Known<'_, P> {
    /// The value of a question about an operand.
    fn asked_of(&self, call: Call, x: Reading) -> Option<i64>
        ensures { result ≡ spec.asked_of (operands_given self.now.operands) call x }
    {
        asked(call, self.operands.of(x)?)
    }

    /// Whether a register is dead at a place.
    fn dead_of(&self, place: Reading, x: Reading) -> Option<i64>
        ensures { result ≡ spec.dead_of self.now.dead.now
            (operands_given self.now.operands) place x }
    {
        let place = place.place()?;
        is_dead(self.dead, place, self.operands.of(x)?)
    }

    /// The value of a call.
    fn call_value(&self, call: Call, parts: &[Reading]) -> Option<i64>
        ensures { result ≡ spec.call_value
            (spec.setting (facts_given self.now.reloaded self.now.new_pseudos self.now.dead.now)
            (operands_given self.now.operands) (P.accepts self.now.preds.now)) call parts.now }
    {
        match (call, parts) {
            (Call::CanCreatePseudo, []) => Some(truth(self.new_pseudos)),
            (Call::RtxEqual, [x, y]) => equal_of(self.operands, *x, *y),
            (Call::InRange, [a, low, high]) => range_of(*a, *low, *high),
            (Call::SmallOperand, [a]) => small_of(*a),
            (Call::RegDead, [place, x]) => self.dead_of(*place, *x),
            (_, [x]) => self.asked_of(call, *x),
            _ => None,
        }
    }

    /// Whether a predicate accepts an operand in a mode.
    fn accepted_of(&self, name: &Name, x: Reading, mode: Reading) -> Option<i64>
        ensures { result ≡ spec.accepted_of (P.accepts self.now.preds.now)
            (operands_given self.now.operands) name.now x mode }
    {
        let x = self.operands.of(x)?;
        let mode = mode.mode()?;
        Some(truth(self.preds.holds(name, x, mode)))
    }

    /// The value of an expression by its parts. Other heads have none.
    fn value_by(&self, head: &CondHead, parts: &[Reading]) -> Option<i64>
        ensures { result ≡ spec.value_by
            (spec.setting (facts_given self.now.reloaded self.now.new_pseudos self.now.dead.now)
            (operands_given self.now.operands) (P.accepts self.now.preds.now)) head.now parts.now }
    {
        match (head, parts) {
            (CondHead::Number(number), []) => Some(*number),
            (CondHead::ReloadCompleted, []) => Some(truth(self.reloaded)),
            (CondHead::Ival, []) => number_in(Code::ConstInt, self.operands.at(0)?),
            (CondHead::CodeIs { code, equal }, [x]) => Some(code_is(
                *code,
                *equal,
                self.operands.of(*x)?,
            )),
            (CondHead::ModeIs { mode, equal }, [x]) => Some(mode_is(
                *mode,
                *equal,
                self.operands.of(*x)?,
            )),
            (CondHead::Unary(operator), [a]) => Some(unary_of(*operator, a.number()?)),
            (CondHead::Binary(operator), [a, b]) => joined(*operator, a.number(), b.number()),
            (CondHead::Choose, [a, b, c]) => chosen(a.number(), b.number(), c.number()),
            (CondHead::Call(call), _) => self.call_value(*call, parts),
            (CondHead::Predicate(name), [x, mode]) => self.accepted_of(name, *x, *mode),
            _ => None,
        }
    }
}

impl<P: Preds> Reads for Known<'_, P> {
    ghost read_by = { λ known. spec.read_by (spec.setting
        (facts_given known.reloaded known.new_pseudos known.dead.now)
        (operands_given known.operands) (P.accepts known.preds.now)) };

    fn read(&self, head: &CondHead, parts: &[Reading]) -> Reading {
        match (head, parts) {
            (CondHead::Operand(number), []) => Reading::Operand(*number),
            (CondHead::Mode(mode), []) => Reading::Mode(*mode),
            (CondHead::Window(place), []) => Reading::Window(*place),
            _ => Reading::of_value(self.value_by(head, parts)),
        }
    }
}
