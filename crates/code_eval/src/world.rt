//! The world in which a function and its code are tried.
ghost use Rattle.std.specs.Prelude.{◌≡◌, ◌++◌, ◌<◌, ◌^◌, IfOk, OnOk, replicate};
ghost use Rattle.rtx_tree.specs.Tree.{head_of};
ghost use Rattle.same_behaviour.specs.Lawful.{AreAddresses};
ghost use Rattle.code_eval.specs.World as spec;
ghost use Rattle.code_eval.specs.machine.Used.{AreNamed};

use plain_data::{Items, Memory};
use rtl_func::Names;
use rtx_tree::{Code, Function, Insn, Name, Replies, Reply, Rtx, SymbolAt, Symbols, World};
use std::alloc::Global;

/// Where the first symbol of a function stands.
const FIRST_ADDRESS: u64 = 2_097_152;

/// How far from it the next one stands.
const NEXT_ADDRESS: u64 = 4_096;

/// The address of the symbol at a place. It wants an address, as it wants memory.
fn address_at(place: usize) -> Result<u64, Memory>
    ensures at { IfOk result (λ address. address ≡ spec.address_at place) }
    ensures fits { IfOk result (λ address. address < 2 ^ 64) }
{
    let Some(distance) = NEXT_ADDRESS.checked_mul(place as u64) else {
        return Err(Memory);
    };
    match FIRST_ADDRESS.checked_add(distance) {
        Some(address) => Ok(address),
        None => Err(Memory),
    }
}

/// Symbols with their addresses, and their names, among which one is found at once.
#[derive(Drop)]
struct UsedSymbols {
    symbols: Symbols,
    names: Names,
}

/// Puts a symbol behind others, unless it is one of them.
#[tactic(auto, using(crate::proofs::Symbols::address_pushed))]
fn push_symbol(alloc: Global, name: &Name, used: &mut UsedSymbols) -> Result<(), Memory>
    requires { AreNamed used.old }
    ensures made { OnOk result (used.new.symbols ≡ spec.with_symbol used.old.symbols name.now) }
    ensures addresses { OnOk result
        (AreAddresses used.old.symbols → AreAddresses used.new.symbols) }
    ensures named { OnOk result (AreNamed used.new) }
{
    if used.names.has(name) {
        return Ok(());
    }
    let address = address_at(used.symbols.len())?;
    used.symbols.push(SymbolAt {
        name: name.copy(alloc)?,
        address,
    })?;
    used.names.put(alloc, name)?;
    Ok(())
}

/// Puts the symbol that a tree is, if it is one, behind others.
fn push_symbol_here(alloc: Global, x: &Rtx, used: &mut UsedSymbols) -> Result<(), Memory>
    requires { AreNamed used.old }
    ensures made { OnOk result (used.new.symbols ≡ spec.with_symbols used.old.symbols
        (spec.symbol_here (head_of x.now).code (head_of x.now).name)) }
    ensures addresses { OnOk result
        (AreAddresses used.old.symbols → AreAddresses used.new.symbols) }
    ensures named { OnOk result (AreNamed used.new) }
{
    match x.code {
        Code::SymbolRef => push_symbol(alloc, &x.name, used),
        _ => Ok(()),
    }
}

/// Puts the symbols of a tree behind others, in the order of its text.
#[tactic(auto, using(crate::proofs::Symbols::symbols_first))]
fn push_symbols_in(alloc: Global, x: &Rtx, used: &mut UsedSymbols) -> Result<(), Memory>
    requires { AreNamed used.old }
    ensures made { OnOk result (used.new.symbols ≡ spec.with_symbols used.old.symbols
        (spec.symbols_in x.now)) }
    ensures addresses { OnOk result
        (AreAddresses used.old.symbols → AreAddresses used.new.symbols) }
    ensures named { OnOk result (AreNamed used.new) }
{
    push_symbol_here(alloc, x, used)?;
    for kid in x.kids.as_slice() {
        push_symbols_in(alloc, kid, used)?;
    }
    Ok(())
}

/// The symbols of a chain, in the order of their first use.
fn symbols_of(alloc: Global, insns: &[Insn]) -> Result<Symbols, Memory>
    ensures made { IfOk result (λ symbols. symbols ≡ spec.symbols_of insns.now) }
    ensures addresses { IfOk result AreAddresses }
{
    let mut used = UsedSymbols {
        symbols: Items::new(alloc),
        names: Names::new(alloc),
    };
    for insn in insns {
        push_symbols_in(alloc, &insn.pattern, &mut used)?;
    }
    Ok(used.symbols)
}

/// `count` replies that are zero and write nothing.
#[tactic(auto, using(crate::proofs::Zeros::one_more))]
fn zero_replies(alloc: Global, count: u64) -> Result<Replies, Memory>
    ensures { IfOk result (λ replies. replies ≡ replicate count spec.zero_reply) }
{
    let mut replies = Items::new(alloc);
    for _place in 0..count {
        replies.push(Reply {
            value: 0,
            writes: Items::new(alloc),
        })?;
    }
    Ok(replies)
}

/// The world of a function, in which so many calls have a reply.
pub fn world_of(alloc: Global, f: &Function, count: u64) -> Result<World, Memory>
    ensures made { IfOk result (λ world. world ≡ spec.world_of f.now count) }
    ensures addresses { IfOk result (λ world. AreAddresses world.symbols) }
{
    Ok(World {
        symbols: symbols_of(alloc, f.insns.as_slice())?,
        replies: zero_replies(alloc, count)?,
    })
}
