//! Long and deep inputs, which are generated.
use case_text::Told;
use std::alloc::Global;

/// What a table of texts, of conditions or of descriptions tells of an input, if it is told whole.
fn told(alloc: Global, table: &str, given: &[u8], input: &[u8]) -> Option<Vec<u8>> {
    let mut told = Told::new(alloc);
    let is_there = text_cases::answer(alloc, table, input, &mut told)
        || cond_cases::answer(alloc, table, given, input, &mut told)
        || desc_cases::answer(alloc, table, given, input, &mut told);
    if is_there { told.whole() } else { None }
}

/// What a table tells of a text that is whole, if it is told whole.
fn told_of(alloc: Global, table: &str, text: &Told) -> Option<Vec<u8>> {
    if text.is_whole() {
        told(alloc, table, b"", &text.out)
    } else {
        None
    }
}

/// A text that begins so many times, and ends as often.
fn nested(alloc: Global, count: u32, open: &str, middle: &str, close: &str) -> Told {
    let mut text = Told::new(alloc);
    for _ in 0..count {
        text.text(open);
    }
    text.text(middle);
    for _ in 0..count {
        text.text(close);
    }
    text
}

/// Whether a table tells this of a text.
fn is_told(alloc: Global, table: &str, text: &Told, want: &str) -> bool {
    match told_of(alloc, table, text) {
        Some(told) => told.as_slice() == want.as_bytes(),
        None => false,
    }
}

/// Whether a text in 200 vectors is told as is wanted.
fn is_told_200_deep(alloc: Global, middle: &str, want: &str) -> bool {
    let text = nested(alloc, 200, "[", middle, "]");
    is_told(alloc, "texts", &text, want)
}

/// Within 200 lists nothing more is opened, and what closes must fit.
#[test]
fn trees_are_200_deep(rt: HostRuntime) {
    assert!(rt; is_told_200_deep(rt.alloc(), "(", "depth 1:201:200"));
    assert!(rt; is_told_200_deep(rt.alloc(), ")", "syntax 1:201:200"));
    assert!(rt; is_told_200_deep(rt.alloc(), "", "1"));
}

fn blanks_in(text: &[u8]) -> usize {
    text.iter().filter(|byte| **byte == b' ').count()
}

/// How many blanks a table tells of a text.
fn blanks_told(alloc: Global, table: &str, text: &Told) -> Option<usize> {
    match told_of(alloc, table, text) {
        Some(told) => Some(blanks_in(told.as_slice())),
        None => None,
    }
}

/// How many blanks a table tells of a text that is 100,000 deep.
fn blanks_told_deep(
    alloc: Global,
    table: &str,
    open: &str,
    middle: &str,
    close: &str,
) -> Option<usize> {
    let text = nested(alloc, 100_000, open, middle, close);
    blanks_told(alloc, table, &text)
}

/// How many heads conditions and statements have that are 100,000 deep.
#[test]
fn conditions_are_as_deep_as_they_like(rt: HostRuntime) {
    let alloc = rt.alloc();
    let told = blanks_told_deep(alloc, "conditions", "!(-", "1", ")");
    assert!(rt; matches!(told, Some(200_000)));
    let told = blanks_told_deep(alloc, "preparations", "{", "", "}");
    assert!(rt; matches!(told, Some(200_000)));
}

/// Whether a condition that is 50,000 deep is worth this.
fn is_worth(alloc: Global, open: &str, middle: &str, close: &str, want: &str) -> bool {
    let text = nested(alloc, 50_000, open, middle, close);
    is_told(alloc, "worth", &text, want)
}

#[test]
fn deep_conditions_are_worth_something(rt: HostRuntime) {
    assert!(rt; is_worth(rt.alloc(), "(", "7", ")", "7"));
    assert!(rt; is_worth(rt.alloc(), "!(", "!0", ")", "1"));
    assert!(rt; is_worth(rt.alloc(), "1-(", "5", ")", "5"));
    assert!(rt; is_worth(rt.alloc(), "", "1", "-1", "-49999"));
}

/// 70 iterators of two values each, and then a form that uses all.
fn many_choices(alloc: Global) -> Told {
    let mut text = Told::new(alloc);
    for at in 0..70 {
        text.text("(define_mode_iterator i");
        text.show(at);
        text.text(" [a b])");
    }
    text.text("(f");
    for at in 0..70 {
        text.text(" (x:i");
        text.show(at);
        text.text(")");
    }
    text.text(")");
    text
}

#[test]
fn more_choices_than_numbers(rt: HostRuntime) {
    let text = many_choices(rt.alloc());
    assert!(rt; is_told(rt.alloc(), "expansions", &text, "limit at 70"));
}

/// A text with a number in each place of a `#`.
fn push_numbered(link: &str, number: u32, text: &mut Told) {
    let mut is_first = true;
    for piece in link.split('#') {
        if !is_first {
            text.show(number);
        }
        text.text(piece);
        is_first = false;
    }
}

/// A definition of a predicate that names the one numbered before.
fn push_link(place: u32, link: &str, text: &mut Told) {
    text.text("(define_special_predicate \"p");
    text.show(place);
    text.text("\" ");
    push_numbered(link, place.saturating_sub(1), text);
    text.text(")");
}

/// So many predicates that each name the one numbered before, `p#`. They are defined in that order,
/// or backwards.
fn chain(alloc: Global, count: u32, backwards: bool, link: &str) -> Told {
    let mut text = Told::new(alloc);
    text.text("(define_predicate \"p0\" (match_code \"reg\"))");
    for at in 1..count {
        push_link(if backwards { count - at } else { at }, link, &mut text);
    }
    text
}

/// Whether a predicate of a description accepts this.
fn is_accepted(alloc: Global, text: &Told, name: &[u8], want: &str) -> bool {
    match told(alloc, "predicates", &text.out, name) {
        Some(told) => text.is_whole() && told.as_slice() == want.as_bytes(),
        None => false,
    }
}

/// Whether the last of 200 predicates in a chain accepts this.
fn accepts(alloc: Global, backwards: bool, link: &str, want: &str) -> bool {
    let text = chain(alloc, 200, backwards, link);
    is_accepted(alloc, &text, b"p199", want)
}

/// Whether the last of 200 accepts this, in a chain in its order and in one backwards.
fn accepts_both_ways(alloc: Global, link: &str, want: &str) -> bool {
    accepts(alloc, false, link, want) && accepts(alloc, true, link, want)
}

/// What asks the predicate before, and what the last predicate accepts then: p0 accepts registers
/// of the mode, and each of the others what comes of the one before it.
const CHAINS: [(&str, &str); 8] = [
    ("(match_operand 0 \"p#\")", "/rs//s/r"),
    (
        "(not (match_operand 0 \"p#\"))",
        "/5hnmy/rs5hnmy/r5hnmy/s5hnmy",
    ),
    (
        "(and (match_operand 0 \"p#\") (match_code \"reg\"))",
        "/rs//s/r",
    ),
    (
        "(ior (match_code \"mem\") (match_operand 0 \"p#\"))",
        "/rsm/m/sm/rm",
    ),
    (
        "(if_then_else (match_operand 0 \"p#\") (match_code \"reg\") (match_code \"mem\"))",
        "/rsm/m/sm/rm",
    ),
    (
        "(if_then_else (match_code \"mem\") (match_test \"0\") (match_operand 0 \"p#\"))",
        "/rs//s/r",
    ),
    (
        "(and (match_operand 0 \"p#\") (match_operand 0 \"p#\"))",
        "/rs//s/r",
    ),
    (
        "(ior (match_operand 0 \"p#\") (match_operand:SI 0 \"p#\"))",
        "/rs/s/s/rs",
    ),
];

#[test]
fn chains_of_predicates(rt: HostRuntime) {
    for (link, want) in CHAINS {
        assert!(rt; accepts_both_ways(rt.alloc(), link, want));
    }
}

/// Whether the last of 4,000 predicates in a chain accepts this.
fn accepts_far(alloc: Global, backwards: bool, link: &str, want: &str) -> bool {
    let text = chain(alloc, 4_000, backwards, link);
    is_accepted(alloc, &text, b"p3999", want)
}

/// Each predicate is looked at once, and not once for each that leads to it.
#[test]
fn long_chains_of_predicates(rt: HostRuntime) {
    assert!(rt; accepts_far(rt.alloc(), false, "(match_operand 0 \"p#\")", "/rs//s/r"));
    assert!(rt;
        accepts_far(
            rt.alloc(),
            true,
            "(not (match_operand 0 \"p#\"))",
            "/5hnmy/rs5hnmy/r5hnmy/s5hnmy"
        )
    );
}

/// Nor is it asked once for each that leads to it.
#[test]
fn predicates_that_are_asked_twice(rt: HostRuntime) {
    let link = "(and (match_operand 0 \"p#\") (match_operand 0 \"p#\"))";
    assert!(rt; accepts_far(rt.alloc(), false, link, "/rs//s/r"));
    assert!(rt; accepts_far(rt.alloc(), true, link, "/rs//s/r"));
}

/// How many constraints there are.
const MANY: u32 = 3_000;

/// Constraints whose names are `Q` and a number. Many begin with another.
fn push_constraints(text: &mut Told) {
    for at in 0..MANY {
        text.text("(define_constraint \"Q");
        text.show(at);
        text.text("\" \"\" (match_code \"reg\"))");
    }
}

/// A form whose operand asks for a constraint, then so often for a register, and then for what
/// ends the text.
fn push_form(constraint: u32, registers: u32, end: &str, text: &mut Told) {
    text.text("(define_insn \"\" [(use (match_operand 0 \"\" \"Q");
    text.show(constraint);
    for _ in 0..registers {
        text.text("r");
    }
    text.text(end);
    text.text("\"))] \"\" \"\")");
}

fn count_told(told: &[u8], end: &str) -> usize {
    told.split(|byte| *byte == b',')
        .filter(|form| form.ends_with(end.as_bytes()))
        .count()
}

/// How many forms of a description are accepted, and how many are set aside for a constraint.
fn forms_told(alloc: Global, text: &Told) -> Option<(usize, usize)> {
    match told_of(alloc, "forms", text) {
        Some(told) => Some((
            count_told(told.as_slice(), " ok"),
            count_told(told.as_slice(), " 9"),
        )),
        None => None,
    }
}

/// Constraints, and as many forms that ask for them. Every fifth also asks for one that there is
/// not.
fn many_forms(alloc: Global) -> Told {
    let mut text = Told::new(alloc);
    push_constraints(&mut text);
    for at in 0..MANY {
        push_form(at, 60, if at % 5 == 0 { "Q" } else { "" }, &mut text);
    }
    text
}

#[test]
fn many_forms_with_many_constraints(rt: HostRuntime) {
    let text = many_forms(rt.alloc());
    assert!(rt; matches!(forms_told(rt.alloc(), &text), Some((5_400, 600))));
}

/// Constraints, and two forms with long texts. The second also asks for a constraint that there is
/// not.
fn long_constraints(alloc: Global) -> Told {
    let mut text = Told::new(alloc);
    push_constraints(&mut text);
    push_form(0, 100_000, "", &mut text);
    push_form(0, 100_000, "Q", &mut text);
    text
}

#[test]
fn long_constraints_with_many_names(rt: HostRuntime) {
    let text = long_constraints(rt.alloc());
    assert!(rt; matches!(forms_told(rt.alloc(), &text), Some((3_001, 1))));
}

/// Appends the text so often.
fn push_often(count: u32, part: &str, text: &mut Told) {
    for _ in 0..count {
        text.text(part);
    }
}

/// Appends 50,000 values.
fn push_values(text: &mut Told) {
    text.text("v0");
    for at in 1..50_000 {
        text.text(",v");
        text.show(at);
    }
}

/// An attribute of many values, and a form that gives it one for each of as many alternatives.
fn many_values(alloc: Global) -> Told {
    let mut text = Told::new(alloc);
    text.text("(define_attr \"t\" \"");
    push_values(&mut text);
    text.text("\" (const_string \"v0\"))(define_insn \"\" [(use (match_operand 0 \"\" \"r");
    push_often(49_999, ",r", &mut text);
    text.text("\"))] \"\" \"\" [(set_attr \"t\" \"");
    push_values(&mut text);
    text.text("\")])");
    text
}

/// Each value is the attribute's, and only the alternatives are too many.
#[test]
fn many_values_of_an_attribute(rt: HostRuntime) {
    let text = many_values(rt.alloc());
    assert!(rt; is_told(rt.alloc(), "forms", &text, "t ok, define_insn@0 11"));
}

/// An expander in which an operand stands often once more, behind as many statements the last of
/// which sets it.
fn many_dups(alloc: Global) -> Told {
    let mut text = Told::new(alloc);
    text.text("(define_expand \"e\" [(use (match_operand 0 \"\" \"\"))");
    push_often(10_000, "(use (match_dup 1))", &mut text);
    text.text("] \"\" \"");
    push_often(10_000, "operands[2] = operands[0];", &mut text);
    text.text("operands[1] = operands[0];\")");
    text
}

#[test]
fn many_dups_of_what_statements_set(rt: HostRuntime) {
    let text = many_dups(rt.alloc());
    assert!(rt; is_told(rt.alloc(), "forms", &text, "e ok"));
}
