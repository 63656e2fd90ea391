//! Numbers of 8, 16, 32 and 64 bits.
use bits64::{Opaque, Operator, Relation, Width, sext, trunc, zext};
use case_text::Told;
use std::str;

/// The operators by their names, but for those of which nothing is known but their numbers.
const OPERATORS: [(&str, Operator); 11] = [
    ("add", Operator::Add),
    ("sub", Operator::Sub),
    ("neg", Operator::Neg),
    ("not", Operator::Not),
    ("mul", Operator::Mul),
    ("and", Operator::And),
    ("ior", Operator::Ior),
    ("xor", Operator::Xor),
    ("shl", Operator::Shl),
    ("shr", Operator::Shr),
    ("sar", Operator::Sar),
];

/// The comparisons by their names.
const RELATIONS: [(&str, Relation); 10] = [
    ("eq", Relation::Eq),
    ("ne", Relation::Ne),
    ("lt", Relation::Lt),
    ("gt", Relation::Gt),
    ("le", Relation::Le),
    ("ge", Relation::Ge),
    ("ltu", Relation::Ltu),
    ("gtu", Relation::Gtu),
    ("leu", Relation::Leu),
    ("geu", Relation::Geu),
];

fn width_of(text: &str) -> Option<Width> {
    match text {
        "8" => Some(Width::W8),
        "16" => Some(Width::W16),
        "32" => Some(Width::W32),
        "64" => Some(Width::W64),
        _ => None,
    }
}

/// The operator with a name.
fn operator_of(name: &str) -> Option<Operator> {
    for (known, operator) in OPERATORS {
        if known == name {
            return Some(operator);
        }
    }
    for opaque in Opaque::all() {
        if opaque.name() == name {
            return Some(Operator::Opaque(*opaque));
        }
    }
    None
}

/// The number that an operation gives, if it gives one.
fn number_of(operation: &str, a: u64, b: u64, w: Width) -> Option<u64> {
    match operation {
        "trunc" => Some(trunc(a, w)),
        "zext" => Some(zext(a, w)),
        "sext" => Some(sext(a, w)),
        name => match operator_of(name) {
            Some(operator) => Some(operator.number(w, a, b)),
            None => None,
        },
    }
}

/// Whether a comparison holds, if it is one.
fn holds(name: &str, a: u64, b: u64, w: Width) -> Option<bool> {
    for (known, relation) in RELATIONS {
        if known == name {
            return Some(relation.holds(w, a, b));
        }
    }
    None
}

/// Appends what an operation gives.
fn show(operation: &str, a: u64, b: u64, w: Width, told: &mut Told) {
    if let Some(number) = number_of(operation, a, b, w) {
        return told.show(format_args!("{number:x}"));
    }
    match holds(operation, a, b, w) {
        Some(is) => told.text(if is { "yes" } else { "no" }),
        None => told.fail(),
    }
}

/// Appends what an operation gives for a width and two numbers in hexadecimal digits, of which the
/// second may be missing.
pub fn tell(input: &[u8], told: &mut Told) {
    let Ok(text) = str::from_utf8(input) else {
        return told.fail();
    };
    let mut words = text.split(' ');
    let operation = words.next().unwrap_or("");
    if let Some(w) = width_of(words.next().unwrap_or(""))
        && let Ok(a) = u64::from_str_radix(words.next().unwrap_or(""), 16)
        && let Ok(b) = u64::from_str_radix(words.next().unwrap_or("0"), 16)
    {
        show(operation, a, b, w, told);
    } else {
        told.fail();
    }
}

/// Appends the bits and the bytes of a width.
pub fn tell_width(input: &[u8], told: &mut Told) {
    if let Ok(text) = str::from_utf8(input)
        && let Some(w) = width_of(text)
    {
        told.show(w.bits());
        told.text(" bits, ");
        told.show(w.bytes());
        told.text(" bytes");
    } else {
        told.fail();
    }
}
