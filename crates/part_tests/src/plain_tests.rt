//! Which descriptions have the plain forms.
use md_desc::{Description, describe};
use plain_held::has_plain_forms;
use rv_target::RV64IM;
use std::alloc::Global;
use text_cases::trees_in;

/// The description of a text.
fn description_in(alloc: Global, text: &[u8]) -> Option<Description> {
    let Some(trees) = trees_in(alloc, text) else {
        return None;
    };
    describe(alloc, trees.as_slice()).ok()
}

/// Whether the description of a text has the plain forms; nothing where there is none.
fn told(alloc: Global, text: &[u8]) -> Option<bool> {
    match description_in(alloc, text) {
        Some(description) => has_plain_forms(alloc, &description).ok(),
        None => None,
    }
}

/// The same of the shipped text, with another text in the place of one.
fn told_with(alloc: Global, old: &str, new: &[u8]) -> Option<bool> {
    let Some((front, back)) = RV64IM.split_once(old) else {
        return None;
    };
    let mut text = Vec::new(alloc);
    if text.extend_from_slice(front.as_bytes()).is_err()
        || text.extend_from_slice(new).is_err()
        || text.extend_from_slice(back.as_bytes()).is_err()
    {
        return None;
    }
    told(alloc, &text)
}

#[test]
fn the_shipped_description_has_the_plain_forms(rt: HostRuntime) {
    assert!(rt; matches!(told(rt.alloc(), RV64IM.as_bytes()), Some(true)));
}

#[test]
fn other_descriptions_do_not_have_them(rt: HostRuntime) {
    assert!(rt; matches!(told(rt.alloc(), b""), Some(false)));
    assert!(rt;
        matches!(
            told(
                rt.alloc(),
                b"(define_insn \"jump\" [(return)] \"\" \"ret\")"
            ),
            Some(false)
        )
    );
}

#[test]
fn each_part_of_a_form_counts(rt: HostRuntime) {
    let alloc = rt.alloc();
    // (a name, a template, a constraint, a predicate, a code, a condition, statements)
    assert!(rt; matches!(told_with(alloc, "\"*frame\"", b"\"*fram\""), Some(false)));
    assert!(rt; matches!(told_with(alloc, "sub<w>", b"add<w>"), Some(false)));
    assert!(rt; matches!(told_with(alloc, "\"r,I\"", b"\"r,n\""), Some(false)));
    assert!(rt;
        matches!(
            told_with(
                alloc,
                "\"reg_or_0_operand\" \"rJ\"",
                b"\"register_operand\" \"r\""
            ),
            Some(false)
        )
    );
    assert!(rt; matches!(told_with(alloc, "(mult:GPR", b"(plus:GPR"), Some(false)));
    assert!(rt; matches!(told_with(alloc, "ival == 0", b"ival == 1"), Some(false)));
    assert!(rt;
        matches!(
            told_with(alloc, "65535 ? 48 : 32", b"65535 ? 48 : 33"),
            Some(false)
        )
    );
}

#[test]
fn the_last_form_counts(rt: HostRuntime) {
    let alloc = rt.alloc();
    assert!(rt;
        matches!(
            told_with(alloc, "(define_peephole2", b"(define_unknown"),
            Some(false)
        )
    );
    assert!(rt;
        matches!(
            told_with(
                alloc,
                ";; RV64IM",
                b"(define_attr \"a\" \"b\" (const_string \"b\")) ;"
            ),
            Some(false)
        )
    );
}
