//! The normal form.
ghost use Rattle.std.specs.Prelude.{ℕ, ◌≡◌, ◌+◌, [], ◌∷◌, true, false, map, vec_len, IfOk};
ghost use Rattle.term_tree.specs.Small.{is_small};
ghost use Rattle.term_tree.specs.Tree.{trees_of, atoms_of, Node, tree, no_trees};
ghost use Rattle.rtx_tree.specs.Limit.{most_nodes};
ghost use Rattle.term_tree.specs.View.{tree_of, atom_of};
ghost use Rattle.term_cuts.specs.term_mean.Meaning.{Valuation, mean};
ghost use Rattle.term_cuts.specs.term_mean.Stores.{Stored};
ghost use Rattle.term_cuts.specs.term_mean.Sums.{summed as summed_spec};
ghost use Rattle.term_cuts.specs.term_mean.Normal as spec;
ghost use Rattle.sym_term.specs.Views.{store_of};
ghost use Rattle.sym_term.specs.machine.Kinds.{one_kind, one_ruled, two_kind};

use crate::loads::loaded;
use crate::opaque::{opaque_one, opaque_two};
use crate::shifts::shifted;
use crate::stores::SymStores;
use bits64::{Opaque, Width};
use plain_data::{Items, Memory};
use rtx_tree::{MOST_NODES, Name};
use std::alloc::Global;
use term_cuts::{AtWidth, cut_to, extended, made_at};
use term_sums::summed;
use term_tree::{Atom, Extension, Head, Joint, Term, is_small};
use term_zero::{equals_zero, less_than};
use thiserror::Error;

/// Why a term has no normal form that could be given.
#[derive(Debug, Drop, Error)]
pub enum TermRefusal {
    /// The normal form has more nodes than the limit, or more levels; `size` is one more than the
    /// limit of nodes.
    #[error("a normal form has {size} nodes or more")]
    Size { size: u64 },
    /// Memory ran out.
    #[error("out of memory")]
    Memory,
}

impl From<Memory> for TermRefusal {
    ghost use Rattle.std.specs.Prelude.{◌≡◌};
    ghost use Rattle.sym_term.specs.declared.normal.TermRefusal.TheVariants.{Memory as OutOfMemory};

    ghost from_gives = { λ e r. r ≡ OutOfMemory };

    fn from(_e: Memory) -> TermRefusal {
        TermRefusal::Memory
    }
}

/// A node as it stands.
fn node(head: Head, width: Width, number: u64, name: Name, parts: Vec<Term>) -> Term
    ensures { tree_of result ≡ Node head width number name (trees_of (map tree_of parts.items)) }
{
    Term::Node {
        head,
        width,
        number,
        name,
        parts: Items::from_vec(parts),
    }
}

/// A node of one part as it stands.
fn one_node(
    alloc: Global,
    head: Head,
    w: Width,
    number: u64,
    name: Name,
    a: Term,
) -> Result<Term, Memory>
    ensures { IfOk result (λ r. tree_of r ≡ Node head w number name (tree (tree_of a) no_trees)) }
{
    let mut parts = Vec::new(alloc);
    parts.push(a)?;
    Ok(node(head, w, number, name, parts))
}

/// A node of two parts as it stands.
fn two_node(
    alloc: Global,
    head: Head,
    w: Width,
    number: u64,
    name: Name,
    a: Term,
    b: Term,
) -> Result<Term, Memory>
    ensures { IfOk result (λ r. tree_of r ≡ Node head w number name
        (tree (tree_of a) (tree (tree_of b) no_trees))) }
{
    let mut parts = Vec::new(alloc);
    parts.push(a)?;
    parts.push(b)?;
    Ok(node(head, w, number, name, parts))
}

/// What is made of one part that stays as it is.
#[derive(Clone, Copy)]
enum OneRule {
    /// Its low bits.
    Low,
    /// Its extension.
    Wide(Extension),
    /// A test for 0.
    Zero,
}

/// What is made of one part.
#[derive(Clone, Copy)]
enum OneKind {
    /// What a rule makes of it.
    Ruled(OneRule),
    /// What an operator makes of which nothing else is known.
    Opaque(Opaque),
    /// What a memory holds there.
    Load,
    /// A node as it stands.
    Other,
}

fn kind_of_one(head: Head) -> OneKind
    ensures { result ≡ one_kind head }
{
    match head {
        Head::Opaque(operator) => OneKind::Opaque(operator),
        Head::Trunc => OneKind::Ruled(OneRule::Low),
        Head::Zext => OneKind::Ruled(OneRule::Wide(Extension::Zero)),
        Head::Sext => OneKind::Ruled(OneRule::Wide(Extension::Sign)),
        Head::Eq => OneKind::Ruled(OneRule::Zero),
        Head::Load => OneKind::Load,
        _ => OneKind::Other,
    }
}

fn ruled(alloc: Global, rule: OneRule, w: Width, a: &Term) -> Result<Term, Memory>
    ensures { IfOk result (λ r. tree_of r ≡ one_ruled rule w (tree_of a.now)) }
{
    match rule {
        OneRule::Low => cut_to(alloc, w, a),
        OneRule::Wide(e) => extended(alloc, &AtWidth { width: w }, e, w, a),
        OneRule::Zero => equals_zero(alloc, w, a),
    }
}

/// What the rules of a head make of one part.
fn build_one(
    alloc: Global,
    stores: &SymStores,
    head: Head,
    w: Width,
    number: u64,
    name: Name,
    a: Term,
) -> Result<Term, Memory>
    ensures { IfOk result (λ r. tree_of r ≡ spec.built_one
        (map store_of stores.now) head w number name (tree_of a)) }
{
    match kind_of_one(head) {
        OneKind::Ruled(rule) => ruled(alloc, rule, w, &a),
        OneKind::Opaque(operator) => opaque_one(alloc, operator, w, a),
        OneKind::Load => loaded(alloc, stores, w, number, a),
        OneKind::Other => one_node(alloc, head, w, number, name, a),
    }
}

/// What is made of two parts.
#[derive(Clone, Copy)]
enum TwoKind {
    /// What an operator makes of which nothing else is known.
    Opaque(Opaque),
    /// A shift.
    Shift,
    /// A comparison by less.
    Less(Extension),
    /// A node as it stands.
    Other,
}

fn kind_of_two(head: Head) -> TwoKind
    ensures { result ≡ two_kind head }
{
    match head {
        Head::Opaque(operator) => TwoKind::Opaque(operator),
        Head::Shl | Head::Shr | Head::Sar => TwoKind::Shift,
        Head::Lt => TwoKind::Less(Extension::Sign),
        Head::Ltu => TwoKind::Less(Extension::Zero),
        _ => TwoKind::Other,
    }
}

/// What the rules of a head make of two parts.
fn build_two(
    alloc: Global,
    head: Head,
    w: Width,
    number: u64,
    name: Name,
    a: Term,
    b: Term,
) -> Result<Term, Memory>
    ensures { IfOk result (λ r. tree_of r ≡ spec.built_two head w number name (tree_of a)
        (tree_of b)) }
{
    match kind_of_two(head) {
        TwoKind::Opaque(operator) => opaque_two(alloc, operator, w, a, b),
        TwoKind::Shift => shifted(alloc, head, w, a, &b),
        TwoKind::Less(e) => less_than(alloc, e, w, &a, &b),
        TwoKind::Other => two_node(alloc, head, w, number, name, a, b),
    }
}

/// The one part.
fn only_part(mut parts: Vec<Term>) -> Term
    requires { vec_len parts ≡ 1 }
    ensures { map tree_of parts.items ≡ tree_of result ∷ [] }
{
    parts.remove(0)
}

/// The two parts.
fn both_parts(mut parts: Vec<Term>) -> (Term, Term)
    requires { vec_len parts ≡ 2 }
    ensures { map tree_of parts.items ≡ tree_of result.0 ∷ tree_of result.1 ∷ [] }
{
    let first = parts.remove(0);
    let second = parts.remove(0);
    (first, second)
}

/// What the rules of a head make of parts that have no order of their own.
fn build_parts(
    alloc: Global,
    stores: &SymStores,
    head: Head,
    w: Width,
    number: u64,
    name: Name,
    parts: Vec<Term>,
) -> Result<Term, Memory>
    ensures { IfOk result (λ r. tree_of r ≡ spec.built_parts
        (map store_of stores.now) head w number name (map tree_of parts.items)) }
{
    match parts.as_slice() {
        [] => Ok(node(head, w, number, name, parts)),
        [_a] => build_one(alloc, stores, head, w, number, name, only_part(parts)),
        [_a, _b] => {
            let (a, b) = both_parts(parts);
            build_two(alloc, head, w, number, name, a, b)
        }
        [_a, _b, _c, ..] => Ok(node(head, w, number, name, parts)),
    }
}

/// What the rules of a head make of normal parts.
pub fn build(
    alloc: Global,
    stores: &SymStores,
    head: Head,
    w: Width,
    number: u64,
    name: Name,
    parts: Vec<Term>,
) -> Result<Term, Memory>
    ensures { IfOk result (λ r. tree_of r ≡ spec.built (map store_of stores.now) head w number name
        (map tree_of parts.items)) }
{
    match head {
        Head::Mul => made_at(alloc, w, Joint::Mul, parts.as_slice()),
        Head::And => made_at(alloc, w, Joint::And, parts.as_slice()),
        Head::Ior => made_at(alloc, w, Joint::Ior, parts.as_slice()),
        Head::Xor => made_at(alloc, w, Joint::Xor, parts.as_slice()),
        _ => build_parts(alloc, stores, head, w, number, name, parts),
    }
}

/// The normal form, of any size.
#[cycle(normal)]
fn normal(alloc: Global, t: &Term, stores: &SymStores) -> Result<Term, Memory>
    ensures { IfOk result (λ r. tree_of r ≡ spec.normal (map store_of stores.now) (tree_of t.now)) }
{
    match t {
        Term::Sum {
            width,
            constant,
            atoms,
        } => normal_sum(alloc, stores, *width, *constant, atoms.as_slice()),
        Term::Node {
            head,
            width,
            number,
            name,
            parts,
        } => {
            let parts = normal_parts(alloc, stores, parts.as_slice())?;
            let name = name.copy(alloc)?;
            build(alloc, stores, *head, *width, *number, name, parts)
        }
    }
}

#[cycle(normal)]
fn normal_sum(
    alloc: Global,
    stores: &SymStores,
    w: Width,
    constant: u64,
    atoms: &[Atom],
) -> Result<Term, Memory>
    ensures { IfOk result (λ r. tree_of r ≡ summed_spec w constant
        (spec.normal_atoms (map store_of stores.now) (atoms_of (map atom_of atoms.now)))) }
{
    let mut normals = Vec::new(alloc);
    for atom in atoms {
        normals.push(Atom {
            coefficient: atom.coefficient,
            term: normal(alloc, &atom.term, stores)?,
        })?;
    }
    summed(alloc, w, constant, normals.as_slice())
}

#[cycle(normal)]
fn normal_parts(alloc: Global, stores: &SymStores, parts: &[Term]) -> Result<Vec<Term>, Memory>
    ensures { IfOk result (λ r. map tree_of r.items ≡ spec.normal_all (map store_of stores.now)
        (trees_of (map tree_of parts.now))) }
{
    let mut normals = Vec::new(alloc);
    for part in parts {
        normals.push(normal(alloc, part, stores)?)?;
    }
    Ok(normals)
}

/// The normal form of a term under the stores so far, unless it has more nodes than the limit, or
/// more levels.
///
/// `Size` tells that it has: `size` is one more than the limit of nodes. The normal form means what
/// the term means, wherever the memory behind each store is the one before it with the store's
/// value written.
///
/// The whole normal form is made before its nodes are counted. No rule puts a part twice into what
/// it makes; what grows is a truncation or an extension that goes into parts, and is then put
/// around each of them.
#[tactic(auto, using(crate::proofs::Means::normal_means))]
pub fn norm(alloc: Global, t: &Term, stores: &SymStores) -> Result<Term, TermRefusal>
    ensures normal { IfOk result (λ r.
        tree_of r ≡ spec.normal (map store_of stores.now) (tree_of t.now)) }
    ensures meaning { (v : Valuation) → Stored v (map store_of stores.now) →
        IfOk result (λ r. mean v (tree_of r) ≡ mean v (tree_of t.now)) }
    ensures fits { IfOk result (λ r.
        is_small (spec.normal (map store_of stores.now) (tree_of t.now)) ≡ true) }
    ensures size { (n : ℕ) → result ≡ Err (TermRefusal.Size n) → (n ≡ most_nodes + 1) ×
        (is_small (spec.normal (map store_of stores.now) (tree_of t.now)) ≡ false) }
{
    let normal = normal(alloc, t, stores)?;
    if !is_small(&normal) {
        return Err(TermRefusal::Size {
            size: MOST_NODES + 1,
        });
    }
    Ok(normal)
}
