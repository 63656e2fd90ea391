//! New trees for operands.
ghost use Rattle.std.specs.Prelude.{◌≡◌, ◌≤◌, length, IfOk, OnOk};
ghost use Rattle.reload_choice.specs.Insns as spec;

use plain_data::Memory;
use reload_fit::on_register;
use reload_moves::{Ask, Part, base_of, far_of, own_of};
use reload_operands::Operand;
use rtx_tree::{Operands, Rtx};
use std::alloc::Global;

/// What stands for an operand, where it is not itself.
fn new_tree(alloc: Global, asks: &[Ask], p: &Part, x: &Operand) -> Result<Option<Rtx>, Memory>
    requires { length asks.now ≤ 4 }
    ensures { IfOk result (λ tree. tree ≡ spec.new_tree asks.now p.now x.now) }
{
    if p.is_moved {
        Ok(Some(Rtx::reg(alloc, x.mode, own_of(asks, p))))
    } else if p.needs.has_base {
        Ok(Some(on_register(alloc, base_of(asks, p), x)?))
    } else if p.needs.far.is_some() {
        Ok(Some(on_register(alloc, far_of(asks, p), x)?))
    } else {
        Ok(None)
    }
}

fn put_new(
    alloc: Global,
    asks: &[Ask],
    p: &Part,
    x: &Operand,
    news: &mut Operands,
) -> Result<(), Memory>
    requires { length asks.now ≤ 4 }
    ensures { OnOk result (news.new ≡ spec.with_new news.old x.now
        (spec.new_tree asks.now p.now x.now)) }
{
    match new_tree(alloc, asks, p, x)? {
        Some(tree) => news.put(x.number, tree),
        None => Ok(()),
    }
}

fn put_part(
    alloc: Global,
    asks: &[Ask],
    operands: &[Operand],
    p: &Part,
    news: &mut Operands,
) -> Result<(), Memory>
    requires { length asks.now ≤ 4 }
    ensures { OnOk result (news.new ≡ spec.with_part asks.now operands.now news.old p.now) }
{
    match operands.get(p.place) {
        Some(x) => put_new(alloc, asks, p, x, news),
        None => Ok(()),
    }
}

/// The new trees, by the numbers of the operands.
pub fn news_of(
    alloc: Global,
    asks: &[Ask],
    operands: &[Operand],
    parts: &[Part],
) -> Result<Operands, Memory>
    requires { length asks.now ≤ 4 }
    ensures { IfOk result (λ news. news ≡ spec.news_of asks.now operands.now parts.now) }
{
    let mut news = Operands::new(alloc);
    for p in parts {
        put_part(alloc, asks, operands, p, &mut news)?;
    }
    Ok(news)
}
