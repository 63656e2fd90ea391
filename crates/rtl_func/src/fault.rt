//! Where a function breaks which rule, and which such place is told.
ghost use Rattle.std.specs.Prelude.{◌≡◌, Some};
ghost use Rattle.rtl_func.specs.Faults as spec;

/// A rule that fails at a uid.
#[derive(Clone, Copy)]
pub struct Fault {
    /// The uid at which the rule fails.
    pub uid: u32,
    /// The rule's number.
    pub rule: u8,
}

fn is_first(a: Fault, b: Fault) -> bool
    ensures { result ≡ spec.is_first a b }
{
    a.uid < b.uid || (a.uid == b.uid && a.rule <= b.rule)
}

fn first_of(a: Fault, b: Fault) -> Fault
    ensures { result ≡ spec.first_of a b }
{
    if is_first(a, b) { a } else { b }
}

/// Keeps the first of the faults so far and another.
pub fn note(first: &mut Option<Fault>, uid: u32, rule: u8)
    ensures { first.new ≡ spec.earlier first.old (Some (spec.fault rule uid)) }
{
    let fault = Fault { uid, rule };
    *first = match *first {
        None => Some(fault),
        Some(before) => Some(first_of(before, fault)),
    };
}
