//! The values of conditions.
ghost use Rattle.std.specs.Prelude.{◌≡◌};
ghost use Rattle.c_cond.specs.Tree.{tree_of};
ghost use Rattle.c_eval.specs.Value as spec;

use crate::facts::Facts;
use crate::known::{Given, Known};
use crate::preds::{NoPreds, Preds};
use crate::reading::Reading;
use crate::walk::read_last;
use c_cond::{Cond, CondHead};
use rtx_tree::{Operands, Rtx};

/// What the last tree of a row of heads is read as. No memory is taken, and nesting has no limit.
pub fn read<P: Preds>(heads: &[CondHead], facts: &Facts, operands: &Operands, preds: &P) -> Reading
    ensures { result ≡ spec.reading_of (spec.setting facts.now operands.now (P.accepts preds.now))
        (tree_of heads.now) }
{
    let known = Known {
        reloaded: facts.reloaded,
        new_pseudos: facts.new_pseudos,
        dead: facts.dead.as_slice(),
        operands: Given::Operands(operands),
        preds,
    };
    read_last(&known, heads)
}

/// What a condition is worth: its value, or 0 where a shift count or an accessor that C evaluates
/// has none. No memory is taken, and nesting has no limit.
pub fn eval<P: Preds>(cond: &Cond, facts: &Facts, operands: &Operands, preds: &P) -> i64
    ensures { result ≡
        spec.worth (spec.setting facts.now operands.now (P.accepts preds.now)) cond.now }
{
    read(cond.heads(), facts, operands, preds)
        .number()
        .unwrap_or(0)
}

/// What the test of a predicate, given by its heads, is worth for an operand. No memory is taken,
/// and nesting has no limit.
pub fn test_worth(heads: &[CondHead], x: &Rtx) -> i64
    ensures { result ≡ spec.worth (spec.under_test x.now) (tree_of heads.now) }
{
    let known = Known {
        reloaded: false,
        new_pseudos: true,
        dead: &[],
        operands: Given::Tested(x),
        preds: &NoPreds,
    };
    read_last(&known, heads).number().unwrap_or(0)
}

/// What the test of a predicate is worth for an operand. No memory is taken, and nesting has no
/// limit.
pub fn eval_test(test: &Cond, x: &Rtx) -> i64
    ensures { result ≡ spec.worth (spec.under_test x.now) test.now }
{
    test_worth(test.heads(), x)
}
