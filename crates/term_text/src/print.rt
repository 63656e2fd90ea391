//! Prints terms on one line.
ghost use Rattle.std.specs.Prelude.{◌≡◌, ◌++◌, ◌∷◌, [], OnOk, IfOk, codes, map};
ghost use Rattle.bits64.specs.Words.{bits_of, signed};
ghost use Rattle.term_tree.specs.declared.head.Head.TheVariants as heads;
ghost use Rattle.term_tree.specs.Tree.{trees_of, atoms_of};
ghost use Rattle.term_tree.specs.View.{tree_of, atom_of};
ghost use Rattle.term_text.specs.Text as spec;

use bits64::{Width, sext};
use plain_data::Memory;
use rtx_tree::{Name, print_register};
use std::alloc::Global;
use term_tree::{Atom, Head, Term};
use text_words::{print_count, print_number};

fn head_name(head: Head) -> &'static str
    ensures { result.now ≡ spec.head_name head }
{
    match head {
        Head::Reg => "reg",
        Head::Sym => "sym",
        Head::Sum => "sum",
        Head::Mul => "mul",
        Head::Opaque(operator) => operator.name(),
        Head::And => "and",
        Head::Ior => "ior",
        Head::Xor => "xor",
        Head::Shl => "shl",
        Head::Shr => "shr",
        Head::Sar => "sar",
        Head::Trunc => "trunc",
        Head::Zext => "zext",
        Head::Sext => "sext",
        Head::Lt => "lt",
        Head::Ltu => "ltu",
        Head::Eq => "eq",
        Head::Load => "load",
    }
}

fn signed_number(w: Width, number: u64) -> i64
    ensures { result ≡ signed w number }
{
    sext(number, w).cast_signed()
}

/// A number of a width, signed.
fn print_signed(w: Width, number: u64, out: &mut Vec<u8>) -> Result<(), Memory>
    ensures { OnOk result (out.new.items ≡ out.old.items ++ spec.number_text w number) }
{
    print_number(signed_number(w, number), out)
}

fn print_opened(head: Head, w: Width, out: &mut Vec<u8>) -> Result<(), Memory>
    ensures { OnOk result (out.new.items ≡ out.old.items ++ spec.opened head w) }
{
    out.push(b'(')?;
    out.extend_from_slice(head_name(head).as_bytes())?;
    print_count(u64::from(w.bits()), out)
}

/// The name of a symbol, and the number of a load's memory.
fn print_own(head: Head, number: u64, name: &[u8], out: &mut Vec<u8>) -> Result<(), Memory>
    ensures { OnOk result (out.new.items ≡ out.old.items ++ spec.own_text head number name.now) }
{
    match head {
        Head::Sym => {
            out.push(b' ')?;
            out.extend_from_slice(name)?;
            Ok(())
        }
        Head::Load => {
            out.push(b' ')?;
            print_count(number, out)
        }
        _ => Ok(()),
    }
}

/// What stands before the atoms of a sum.
fn print_sum_head(w: Width, constant: u64, out: &mut Vec<u8>) -> Result<(), Memory>
    ensures { OnOk result (out.new.items ≡ out.old.items ++
        (spec.opened heads.Sum w ++ (codes " " ++ spec.number_text w constant))) }
{
    print_opened(Head::Sum, w, out)?;
    out.push(b' ')?;
    print_signed(w, constant, out)
}

/// What stands before the parts of another term.
fn print_node_head(
    head: Head,
    w: Width,
    number: u64,
    name: &[u8],
    out: &mut Vec<u8>,
) -> Result<(), Memory>
    ensures { OnOk result (out.new.items ≡ out.old.items ++
        (spec.opened head w ++ spec.own_text head number name.now)) }
{
    print_opened(head, w, out)?;
    print_own(head, number, name, out)
}

/// What stands before the term of an atom.
fn print_atom_head(w: Width, coefficient: u64, out: &mut Vec<u8>) -> Result<(), Memory>
    ensures { OnOk result (out.new.items ≡ out.old.items ++
        (codes " (" ++ (spec.number_text w coefficient ++ codes " "))) }
{
    out.extend_from_slice(b" (")?;
    print_signed(w, coefficient, out)?;
    out.push(b' ')?;
    Ok(())
}

#[tactic(auto, using(term_tree::proofs::ViewLaws::view_laws))]
fn is_alone(constant: u64, atoms: &[Atom]) -> bool
    ensures { result ≡ spec.is_alone constant (atoms_of (map atom_of atoms.now)) }
{
    match atoms {
        [] => false,
        [x] => constant == 0 && x.coefficient == 1,
        [_x, _y, ..] => false,
    }
}

#[cycle(print)]
fn print(t: &Term, out: &mut Vec<u8>) -> Result<(), Memory>
    ensures { OnOk result (out.new.items ≡ out.old.items ++ spec.text_of (tree_of t.now)) }
{
    match t {
        Term::Sum {
            width,
            constant,
            atoms,
        } => {
            if is_alone(*constant, atoms.as_slice()) {
                print_first(atoms.as_slice(), out)
            } else {
                print_sum(*width, *constant, atoms.as_slice(), out)
            }
        }
        Term::Node {
            head,
            width,
            number,
            name,
            parts,
        } => match head {
            Head::Reg => print_register(*number, out),
            _ => print_node(*head, *width, *number, name.bytes(), parts.as_slice(), out),
        },
    }
}

#[cycle(print)]
#[tactic(auto, using(term_tree::proofs::ViewLaws::view_laws))]
fn print_first(atoms: &[Atom], out: &mut Vec<u8>) -> Result<(), Memory>
    ensures { OnOk result (out.new.items ≡ out.old.items ++ spec.first_text
        (atoms_of (map atom_of atoms.now))) }
{
    match atoms {
        [] => Ok(()),
        [x, ..] => print(&x.term, out),
    }
}

#[cycle(print)]
fn print_sum(w: Width, constant: u64, atoms: &[Atom], out: &mut Vec<u8>) -> Result<(), Memory>
    ensures { OnOk result (out.new.items ≡ out.old.items ++
        (spec.opened heads.Sum w ++ (codes " " ++
        (spec.number_text w constant ++
        (spec.atoms_text w (atoms_of (map atom_of atoms.now)) ++ codes ")"))))) }
{
    print_sum_head(w, constant, out)?;
    print_atoms(w, atoms, out)?;
    out.push(b')')?;
    Ok(())
}

#[cycle(print)]
fn print_node(
    head: Head,
    w: Width,
    number: u64,
    name: &[u8],
    parts: &[Term],
    out: &mut Vec<u8>,
) -> Result<(), Memory>
    ensures { OnOk result (out.new.items ≡ out.old.items ++
        (spec.opened head w ++ (spec.own_text head number name.now ++
        (spec.parts_text (trees_of (map tree_of parts.now)) ++ codes ")")))) }
{
    print_node_head(head, w, number, name, out)?;
    print_parts(parts, out)?;
    out.push(b')')?;
    Ok(())
}

/// One atom, with a space in front.
#[cycle(print)]
fn print_atom(w: Width, x: &Atom, out: &mut Vec<u8>) -> Result<(), Memory>
    ensures { OnOk result (out.new.items ≡ out.old.items ++
        (codes " (" ++ (spec.number_text w (atom_of x.now).0 ++
        (codes " " ++ (spec.text_of (atom_of x.now).1 ++ codes ")"))))) }
{
    print_atom_head(w, x.coefficient, out)?;
    print(&x.term, out)?;
    out.push(b')')?;
    Ok(())
}

#[cycle(print)]
fn print_atoms(w: Width, atoms: &[Atom], out: &mut Vec<u8>) -> Result<(), Memory>
    ensures { OnOk result (out.new.items ≡ out.old.items ++ spec.atoms_text w
        (atoms_of (map atom_of atoms.now))) }
{
    for x in atoms {
        print_atom(w, x, out)?;
    }
    Ok(())
}

#[cycle(print)]
fn print_part(t: &Term, out: &mut Vec<u8>) -> Result<(), Memory>
    ensures { OnOk result (out.new.items ≡ out.old.items ++
        (codes " " ++ spec.text_of (tree_of t.now))) }
{
    out.push(b' ')?;
    print(t, out)
}

#[cycle(print)]
fn print_parts(parts: &[Term], out: &mut Vec<u8>) -> Result<(), Memory>
    ensures { OnOk result (out.new.items ≡ out.old.items ++ spec.parts_text
        (trees_of (map tree_of parts.now))) }
{
    for t in parts {
        print_part(t, out)?;
    }
    Ok(())
}

/// The text of a term.
pub fn print_term(alloc: Global, t: &Term) -> Result<Name, Memory>
    ensures { IfOk result (λ text. text ≡ spec.text_of (tree_of t.now)) }
{
    let mut out = Vec::new(alloc);
    print(t, &mut out)?;
    Ok(Name::from_vec(out))
}
