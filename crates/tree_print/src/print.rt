//! Prints trees on one line.
ghost use Rattle.std.specs.Prelude.{◌≡◌, ◌++◌, ◌∷◌, [], OnErr, OnOk};
ghost use Rattle.tree_print.specs.Print as spec;
ghost use Rattle.tree_print.specs.Print.{IsPrintable, ReadsBack};

use lisp_read::Tree;
use plain_data::Memory;

/// Appends a text between two bytes.
fn print_between(left: u8, text: &[u8], right: u8, out: &mut Vec<u8>) -> Result<(), Memory>
    ensures { OnOk result (out.new.items ≡ out.old.items ++ (left ∷ (text.now ++ right ∷ []))) }
{
    out.push(left)?;
    out.extend_from_slice(text)?;
    out.push(right)?;
    Ok(())
}

/// Appends trees with a space between each two.
#[cycle(print)]
fn print_separated(trees: &[Tree], out: &mut Vec<u8>) -> Result<(), Memory>
    ensures { OnOk result (out.new.items ≡ out.old.items ++ spec.separated trees.now) }
{
    for i in 0..trees.len() {
        if i > 0 {
            out.push(b' ')?;
        }
        print(&trees[i], out)?;
    }
    Ok(())
}

/// Appends trees in brackets.
#[cycle(print)]
fn print_bracketed(left: u8, trees: &[Tree], right: u8, out: &mut Vec<u8>) -> Result<(), Memory>
    ensures { OnOk result (out.new.items ≡ out.old.items ++
        (left ∷ (spec.separated trees.now ++ right ∷ []))) }
{
    out.push(left)?;
    print_separated(trees, out)?;
    out.push(right)?;
    Ok(())
}

#[cycle(print)]
#[tactic(auto, using(crate::proofs::Printed::printed_atom, crate::proofs::Printed::printed_string, crate::proofs::Printed::printed_block, crate::proofs::Printed::printed_list, crate::proofs::Printed::printed_vector))]
fn print(tree: &Tree, out: &mut Vec<u8>) -> Result<(), Memory>
    ensures { OnOk result (out.new.items ≡ out.old.items ++ spec.printed_tree tree.now) }
{
    match tree {
        Tree::Atom { text, .. } => {
            out.extend_from_slice(text.bytes())?;
            Ok(())
        }
        Tree::Str { text, .. } => print_between(b'"', text.bytes(), b'"', out),
        Tree::Block { text, .. } => print_between(b'{', text.bytes(), b'}', out),
        Tree::List { items, .. } => print_bracketed(b'(', items.as_slice(), b')', out),
        Tree::Vector { items, .. } => print_bracketed(b'[', items.as_slice(), b']', out),
    }
}

/// Appends the text of a tree: on one line, but for what strings and blocks hold, with a space
/// between each two items of a list or a vector. Where memory runs out `out` holds what it held.
///
/// Where each atom, string and block is one that a text may have, and at most 200 lists and vectors
/// stand within each other, `read_trees` reads the text as that tree, places aside.
#[tactic(auto, using(crate::proofs::PrintsBack::reads_back))]
pub fn print_tree(tree: &Tree, out: &mut Vec<u8>) -> Result<(), Memory>
    ensures prints { OnOk result (out.new.items ≡ out.old.items ++ spec.printed_tree tree.now) }
    ensures kept { OnErr result (out.new.items ≡ out.old.items) }
    ensures reads_back { IsPrintable tree.now → ReadsBack tree.now }
{
    let mut text = Vec::new(*out.allocator());
    print(tree, &mut text)?;
    out.extend_from_slice(text.as_slice())?;
    Ok(())
}
