//! Whether the terms of a state are within the limit.
ghost use Rattle.std.specs.Prelude.{◌≡◌, map, option_map};
ghost use Rattle.std.specs.List.{list_all};
ghost use Rattle.term_tree.specs.Small as tree;
ghost use Rattle.sym_term.specs.Views.{store_of};
ghost use Rattle.sym_state.specs.State as spec;
ghost use Rattle.sym_state.specs.Views as views;

use crate::state::{NeedOf, SymArg, SymCall, SymNeed, SymReg, SymState};
use sym_term::SymStore;
use term_tree::is_small;

fn is_small_register(changed: &SymReg) -> bool
    ensures { result ≡ spec.is_small_value (views.changed_of changed.now).value }
{
    match &changed.value {
        None => true,
        Some(value) => value.is_small(),
    }
}

fn is_small_store(store: &SymStore) -> bool
    ensures { result ≡ spec.is_small_store (store_of store.now) }
{
    store.address.is_small() && store.value.is_small()
}

fn is_small_arg(arg: &SymArg) -> bool
    ensures { result ≡ tree.is_small (views.arg_of arg.now).value }
{
    is_small(&arg.value)
}

fn are_small_args(args: &[SymArg]) -> bool
    ensures { result ≡ list_all (λ a. tree.is_small a.value) (map views.arg_of args.now) }
{
    for item in args {
        if !is_small_arg(item) {
            return false;
        }
    }
    true
}

fn is_small_call(call: &Option<SymCall>) -> bool
    ensures { result ≡ spec.is_small_call (option_map views.call_of call.now) }
{
    match call {
        None => true,
        Some(call) => is_small(&call.target) && are_small_args(call.args.as_slice()),
    }
}

fn is_small_need(need: &SymNeed) -> bool
    ensures { result ≡ spec.is_small_need (views.need_at_of need.now).what }
{
    match &need.what {
        NeedOf::Access { address, .. } => address.is_small(),
        NeedOf::Divisor { term } => term.is_small(),
        _ => true,
    }
}

fn are_small_registers(regs: &[SymReg]) -> bool
    ensures { result ≡ list_all (λ c. spec.is_small_value c.value) (map views.changed_of regs.now) }
{
    for item in regs {
        if !is_small_register(item) {
            return false;
        }
    }
    true
}

fn are_small_stores(stores: &[SymStore]) -> bool
    ensures { result ≡ list_all spec.is_small_store (map store_of stores.now) }
{
    for item in stores {
        if !is_small_store(item) {
            return false;
        }
    }
    true
}

fn are_small_needs(needs: &[SymNeed]) -> bool
    ensures { result ≡ list_all (λ n. spec.is_small_need n.what) (map views.need_at_of needs.now) }
{
    for item in needs {
        if !is_small_need(item) {
            return false;
        }
    }
    true
}

impl SymState {
    /// Whether each term of the state has at most 1,048,576 nodes on at most 2,000 levels.
    pub fn is_within(&self) -> bool
        ensures { result ≡ spec.is_within (views.state_of self.now) }
    {
        are_small_registers(self.regs.as_slice())
            && are_small_stores(self.stores.as_slice())
            && is_small(&self.jump.condition)
            && is_small_call(&self.call)
            && are_small_needs(self.needs.as_slice())
    }
}
