//! How large a normal form may be: 1,048,576 nodes.
use bits64::{Opaque, Width};
use plain_data::{Items, Memory};
use rtx_tree::Name;
use std::alloc::Global;
use sym_term::{TermRefusal, norm};
use term_cases::register_term;
use term_tree::{Head, Term};

fn two_parts(alloc: Global, head: Head, a: Term, b: Term) -> Result<Term, Memory> {
    let mut parts = Items::new(alloc);
    parts.push(a)?;
    parts.push(b)?;
    Ok(Term::Node {
        head,
        width: Width::W64,
        number: 0,
        name: Name::empty(alloc),
        parts,
    })
}

// An operator over twice the same term.
fn doubled(alloc: Global, head: Head, t: Term) -> Result<Term, Memory> {
    let same = t.copy(alloc)?;
    two_parts(alloc, head, t, same)
}

// a0 by an operator with itself, and what that gives with itself, so often.
fn doubled_often(alloc: Global, head: Head, times: u32) -> Result<Term, Memory> {
    let mut t = register_term(alloc, 10);
    for _ in 0..times {
        t = doubled(alloc, head, t)?;
    }
    Ok(t)
}

// Whether the normal form of a term is too large.
fn is_too_large(alloc: Global, t: &Term) -> bool {
    matches!(
        norm(alloc, t, &Items::new(alloc)),
        Err(TermRefusal::Size { size: 1_048_577 })
    )
}

// Whether it is not.
fn is_within(alloc: Global, t: &Term) -> bool {
    norm(alloc, t, &Items::new(alloc)).is_ok()
}

// The upper half of a product is not flattened: 1,048,575 nodes, and twice as many.
#[test]
fn doubled_upper_halves(rt: HostRuntime) {
    let Ok(half) = doubled_often(rt.alloc(), Head::Opaque(Opaque::Mulhu), 19) else {
        panic!(rt; "out of memory");
    };
    assert!(rt; is_within(rt.alloc(), &half));
    let Ok(whole) = doubled(rt.alloc(), Head::Opaque(Opaque::Mulhu), half) else {
        panic!(rt; "out of memory");
    };
    assert!(rt; is_too_large(rt.alloc(), &whole));
}

// The product of a normal form with itself and a0: 2 t + 1 factors where there were t.
fn doubled_and_one(alloc: Global, t: Term) -> Result<Term, TermRefusal> {
    let square = doubled(alloc, Head::Mul, t)?;
    let more = two_parts(alloc, Head::Mul, square, register_term(alloc, 10))?;
    norm(alloc, &more, &Items::new(alloc))
}

// The normal form after 19 such steps.
fn stepped(alloc: Global) -> Result<Term, TermRefusal> {
    let mut t = register_term(alloc, 10);
    for _ in 0..19 {
        t = doubled_and_one(alloc, t)?;
    }
    Ok(t)
}

// One step after the other, as lines of code multiply a register by itself: 1,048,575 factors are
// just few enough, and one more is too many.
#[test]
fn step_by_step(rt: HostRuntime) {
    let Ok(t) = stepped(rt.alloc()) else {
        panic!(rt; "no normal form");
    };
    assert!(rt; is_within(rt.alloc(), &t));
    let Ok(more) = two_parts(rt.alloc(), Head::Mul, t, register_term(rt.alloc(), 10)) else {
        panic!(rt; "out of memory");
    };
    assert!(rt; is_too_large(rt.alloc(), &more));
}
