//! Lists, constraints and templates as descriptions write them.
use case_text::Told;
use md_text::*;
use plain_data::{Items, Memory};
use rtx_tree::Name;
use std::alloc::Global;

/// Appends a name between `<` and `>`.
fn show_name(name: &Name, told: &mut Told) {
    told.text("<");
    told.push(name.bytes());
    told.text(">");
}

/// Appends the members of a list.
pub fn tell_members(alloc: Global, text: &[u8], told: &mut Told) {
    let Ok(members) = members_of(alloc, text) else {
        return told.fail();
    };
    for name in members.as_slice() {
        show_name(name, told);
    }
}

/// Appends a text so many times.
fn show_often(text: &str, count: u64, told: &mut Told) {
    for _ in 0..count {
        told.text(text);
    }
}

fn show_member(member: &Member, told: &mut Told) {
    told.gap();
    match member {
        Member::Letter(letter) => told.debug(letter),
        Member::Same(number) => {
            told.text("same ");
            told.show(*number);
        }
        Member::Defined(name) => show_name(name, told),
    }
}

/// Appends an alternative, with a mark for its direction and a mark for each time that it is less
/// wanted.
fn show_alternative(alternative: &Alternative, told: &mut Told) {
    told.text(match alternative.direction {
        Direction::Input => "",
        Direction::Output => "=",
        Direction::Both => "+",
    });
    told.text(if alternative.early { "&" } else { "" });
    show_often("?", alternative.slight, told);
    show_often("!", alternative.severe, told);
    for member in alternative.members.as_slice() {
        show_member(member, told);
    }
    told.text(";");
}

/// The names of the defined constraints: the words of a text, and the empty one behind its last
/// blank.
fn names_in(alloc: Global, given: &[u8]) -> Result<ConstraintNames, Memory> {
    let mut names = Items::new(alloc);
    for word in given.split(|byte| byte.is_ascii_whitespace()) {
        names.push(Name::of(alloc, word)?)?;
    }
    ConstraintNames::of(alloc, names)
}

/// Appends the alternatives of a constraint, or that a name in it is unknown.
pub fn tell_constraint(alloc: Global, given: &[u8], text: &[u8], told: &mut Told) {
    let Ok(names) = names_in(alloc, given) else {
        return told.fail();
    };
    match constraint_of(alloc, text, &names) {
        Ok(Some(constraint)) => {
            for alternative in constraint.as_slice() {
                show_alternative(alternative, told);
            }
        }
        Ok(None) => told.text("unknown"),
        Err(_) => told.fail(),
    }
}

fn show_line(line: &[Piece], told: &mut Told) {
    told.text("[");
    for piece in line {
        match piece {
            Piece::Byte(byte) => told.push(&[*byte]),
            Piece::Operand { print, number } => {
                told.text("<");
                told.debug(print);
                told.text(" ");
                told.show(*number);
                told.text(">");
            }
            Piece::Uid => told.text("<uid>"),
        }
    }
    told.text("]");
}

fn show_template(template: &Template, told: &mut Told) {
    match template {
        Template::Split => told.text("split"),
        Template::One(line) => show_line(line.as_slice(), told),
        Template::Each(lines) => {
            told.text("each");
            for line in lines.as_slice() {
                show_line(line.as_slice(), told);
            }
        }
    }
}

/// Appends the pieces of a template, or why it is none.
pub fn tell_template(alloc: Global, text: &[u8], told: &mut Told) {
    match template_of(alloc, text) {
        Ok(Reading::Template(template)) => show_template(&template, told),
        Ok(Reading::Code) => told.text("code"),
        Ok(Reading::Outside) => told.text("outside"),
        Err(_) => told.fail(),
    }
}
