//! Whether an instruction loads or stores.
ghost use Rattle.std.specs.Prelude.{◌≡◌};
ghost use Rattle.std.specs.List.{list_any};
ghost use Rattle.mem_uses.specs.Memory as spec;

use rtx_tree::{Code, Insn, Rtx};

/// Whether memory stands in an expression.
#[tactic(auto, using(crate::proofs::Parts::memory_out))]
pub fn has_memory(x: &Rtx) -> bool
    ensures { result ≡ spec.has_memory x.now }
{
    if matches!(x.code, Code::Mem) {
        return true;
    }
    for kid in x.kids.as_slice() {
        if has_memory(kid) {
            return true;
        }
    }
    false
}

/// Whether memory stands in one of some expressions.
fn any_has_memory(parts: &[Rtx]) -> bool
    ensures { result ≡ list_any spec.has_memory parts.now }
{
    parts.iter().any(|x| has_memory(x))
}

/// Whether a place is memory whose address is read of memory.
fn place_loads(place: &Rtx) -> bool
    ensures { result ≡ spec.place_loads place.now }
{
    match place.code {
        Code::Mem => any_has_memory(place.kids.as_slice()),
        _ => false,
    }
}

fn effect_loads(x: &Rtx) -> bool
    ensures { result ≡ spec.effect_loads x.now }
{
    match (x.code, x.kids.as_slice()) {
        (Code::Set, [place, source]) => place_loads(place) || has_memory(source),
        (Code::Clobber, _) => false,
        _ => has_memory(x),
    }
}

fn any_loads(effects: &[Rtx]) -> bool
    ensures { result ≡ list_any spec.effect_loads effects.now }
{
    effects.iter().any(|x| effect_loads(x))
}

/// Whether an instruction reads memory, but for what a call does.
pub fn does_load(insn: &Insn) -> bool
    ensures { result ≡ spec.loads insn.now }
{
    match insn.pattern.code {
        Code::Parallel => any_loads(insn.pattern.kids.as_slice()),
        _ => effect_loads(&insn.pattern),
    }
}

fn effect_stores(x: &Rtx) -> bool
    ensures { result ≡ spec.effect_stores x.now }
{
    match (x.code, x.kids.as_slice()) {
        (Code::Set, [place, ..]) => matches!(place.code, Code::Mem),
        _ => false,
    }
}

fn any_stores(effects: &[Rtx]) -> bool
    ensures { result ≡ list_any spec.effect_stores effects.now }
{
    effects.iter().any(|x| effect_stores(x))
}

/// Whether an instruction writes memory, but for what a call does.
pub fn does_store(insn: &Insn) -> bool
    ensures { result ≡ spec.stores insn.now }
{
    match insn.pattern.code {
        Code::Parallel => any_stores(insn.pattern.kids.as_slice()),
        _ => effect_stores(&insn.pattern),
    }
}
