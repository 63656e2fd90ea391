//! Products and operators on bits at each width, and truncation to it, each from those of the
//! widths below.
ghost use Rattle.std.specs.Prelude.{◌≡◌, map, IfOk};
ghost use Rattle.term_tree.specs.View.{tree_of};
ghost use Rattle.term_tree.specs.declared.head.Joint.TheVariants.{And};
ghost use Rattle.term_tree.specs.declared.head.Extension.TheVariants.{Zero};
ghost use Rattle.term_mean.specs.Joints.{plain as plain_spec, joined as joined_spec};
ghost use Rattle.term_mean.specs.Extensions.{extended as extended_spec};
ghost use Rattle.term_mean.specs.Masks as spec;

use crate::cuts::{Makes, cut, one_copy};
use crate::extensions::extended;
use bits64::{Width, trunc};
use plain_data::Memory;
use std::alloc::Global;
use term_sums::{Gathered, finished, gather, joined, plain};
use term_tree::{Extension, Head, Joint, Term, is_same_width};

/// Products and operators on bits with no masks.
#[derive(Drop)]
struct Unmasked {
    width: Width,
}

impl Makes for Unmasked {
    ghost use Rattle.term_mean.specs.Joints.{joined as joined_spec};

    ghost made = { λ s o ts. joined_spec o s.width ts };

    fn make(&self, alloc: Global, o: Joint, parts: Vec<Term>) -> Result<Term, Memory> {
        joined(alloc, o, self.width, parts.as_slice())
    }
}

fn mask_8(c: u64, wider: Option<Width>) -> Option<Width>
    ensures { result ≡ spec.mask_8 c wider }
{
    if c == 0xff { Some(Width::W8) } else { wider }
}

fn mask_16(c: u64, wider: Option<Width>) -> Option<Width>
    ensures { result ≡ spec.mask_16 c wider }
{
    if c == 0xffff { Some(Width::W16) } else { wider }
}

fn mask_32(c: u64) -> Option<Width>
    ensures { result ≡ spec.mask_32 c }
{
    if c == 0xffff_ffff {
        Some(Width::W32)
    } else {
        None
    }
}

/// The width of which a constant is all ones, where it is below `w`.
fn mask_in(w: Width, c: u64) -> Option<Width>
    ensures { result ≡ spec.mask_in w c }
{
    match w {
        Width::W8 => None,
        Width::W16 => mask_8(c, None),
        Width::W32 => mask_8(c, mask_16(c, None)),
        Width::W64 => mask_8(c, mask_16(c, mask_32(c))),
    }
}

/// What cuts to the widths below one.
trait Narrows {
    ghost use Rattle.bits64.specs.declared.Width.{Width};
    ghost use Rattle.term_tree.specs.Tree.{Tree};

    ghost narrowed: { Self → Width → Tree → Tree };

    fn narrow(&self, alloc: Global, k: Width, t: &Term) -> Result<Term, Memory>
        ensures { IfOk result (λ r. tree_of r ≡ narrowed self.now k (tree_of t.now)) };
}

/// The low bits of the rest, extended by zeros.
fn under_mask<N: Narrows>(
    alloc: Global,
    narrows: &N,
    w: Width,
    k: Width,
    parts: Vec<Term>,
) -> Result<Term, Memory>
    ensures { IfOk result (λ r. tree_of r ≡ extended_spec (λ o us.
        joined_spec o w us) Zero w (N.narrowed narrows.now k
        (plain_spec And w (map tree_of parts.items)))) }
{
    let rest = plain(alloc, Joint::And, w, parts);
    let low = narrows.narrow(alloc, k, &rest)?;
    extended(alloc, &Unmasked { width: w }, Extension::Zero, w, &low)
}

fn masked<N: Narrows>(
    alloc: Global,
    narrows: &N,
    mask: Option<Width>,
    w: Width,
    c: u64,
    parts: Vec<Term>,
) -> Result<Term, Memory>
    ensures { IfOk result (λ r. tree_of r ≡ spec.masked mask (N.narrowed narrows.now) w c
        (map tree_of parts.items)) }
{
    match mask {
        None => finished(alloc, Joint::And, w, c, parts),
        Some(k) => {
            if parts.is_empty() {
                return finished(alloc, Joint::And, w, c, parts);
            }
            under_mask(alloc, narrows, w, k, parts)
        }
    }
}

fn made_of<N: Narrows>(
    alloc: Global,
    narrows: &N,
    o: Joint,
    w: Width,
    c: u64,
    parts: Vec<Term>,
) -> Result<Term, Memory>
    ensures { IfOk result (λ r. tree_of r ≡ spec.made_of (N.narrowed narrows.now) o w c
        (map tree_of parts.items)) }
{
    match o {
        Joint::And => masked(alloc, narrows, mask_in(w, c), w, c, parts),
        Joint::Mul => finished(alloc, o, w, c, parts),
        Joint::Ior => finished(alloc, o, w, c, parts),
        Joint::Xor => finished(alloc, o, w, c, parts),
    }
}

fn made<N: Narrows>(
    alloc: Global,
    narrows: &N,
    o: Joint,
    w: Width,
    terms: &[Term],
) -> Result<Term, Memory>
    ensures { IfOk result (λ r. tree_of r ≡ spec.made (N.narrowed narrows.now) o w
        (map tree_of terms.now)) }
{
    let Gathered { constant, parts } = gather(alloc, o, w, terms)?;
    made_of(alloc, narrows, o, w, trunc(constant, w), parts)
}

/// At 8 bits.
#[derive(Drop)]
struct Level8;

impl Makes for Level8 {
    ghost use Rattle.term_mean.specs.Masks.{made_8 as made_8_spec};

    ghost made = { λ s. made_8_spec };

    fn make(&self, alloc: Global, o: Joint, parts: Vec<Term>) -> Result<Term, Memory> {
        made_8(alloc, o, parts.as_slice())
    }
}

/// A product or an operator on bits at 8 bits.
#[tactic(auto, unfolding(term_mean::specs::Masks::made_8))]
pub fn made_8(alloc: Global, o: Joint, terms: &[Term]) -> Result<Term, Memory>
    ensures { IfOk result (λ r. tree_of r ≡ spec.made_8 o (map tree_of terms.now)) }
{
    joined(alloc, o, Width::W8, terms)
}

#[tactic(auto, unfolding(term_mean::specs::Masks::cut_8))]
fn cut_8(alloc: Global, t: &Term) -> Result<Term, Memory>
    ensures { IfOk result (λ r. tree_of r ≡ spec.cut_8 (tree_of t.now)) }
{
    cut(alloc, &Level8, Width::W8, t)
}

/// At 16 bits.
#[derive(Drop)]
struct Level16;

impl Narrows for Level16 {
    ghost use Rattle.term_mean.specs.Masks.{narrow_16};

    ghost narrowed = { λ s. narrow_16 };

    fn narrow(&self, alloc: Global, _k: Width, t: &Term) -> Result<Term, Memory> {
        cut_8(alloc, t)
    }
}

impl Makes for Level16 {
    ghost use Rattle.term_mean.specs.Masks.{made_16 as made_16_spec};

    ghost made = { λ s. made_16_spec };

    fn make(&self, alloc: Global, o: Joint, parts: Vec<Term>) -> Result<Term, Memory> {
        made_16(alloc, o, parts.as_slice())
    }
}

#[tactic(auto, unfolding(term_mean::specs::Masks::made_16))]
fn made_16(alloc: Global, o: Joint, terms: &[Term]) -> Result<Term, Memory>
    ensures { IfOk result (λ r. tree_of r ≡ spec.made_16 o (map tree_of terms.now)) }
{
    made(alloc, &Level16, o, Width::W16, terms)
}

#[tactic(auto, unfolding(term_mean::specs::Masks::cut_16))]
fn cut_16(alloc: Global, t: &Term) -> Result<Term, Memory>
    ensures { IfOk result (λ r. tree_of r ≡ spec.cut_16 (tree_of t.now)) }
{
    cut(alloc, &Level16, Width::W16, t)
}

/// At 32 bits.
#[derive(Drop)]
struct Level32;

impl Narrows for Level32 {
    ghost use Rattle.term_mean.specs.Masks.{narrow_32};

    ghost narrowed = { λ s. narrow_32 };

    fn narrow(&self, alloc: Global, k: Width, t: &Term) -> Result<Term, Memory> {
        match k {
            Width::W8 => cut_8(alloc, t),
            Width::W16 => cut_16(alloc, t),
            Width::W32 => cut_16(alloc, t),
            Width::W64 => cut_16(alloc, t),
        }
    }
}

impl Makes for Level32 {
    ghost use Rattle.term_mean.specs.Masks.{made_32 as made_32_spec};

    ghost made = { λ s. made_32_spec };

    fn make(&self, alloc: Global, o: Joint, parts: Vec<Term>) -> Result<Term, Memory> {
        made_32(alloc, o, parts.as_slice())
    }
}

#[tactic(auto, unfolding(term_mean::specs::Masks::made_32))]
fn made_32(alloc: Global, o: Joint, terms: &[Term]) -> Result<Term, Memory>
    ensures { IfOk result (λ r. tree_of r ≡ spec.made_32 o (map tree_of terms.now)) }
{
    made(alloc, &Level32, o, Width::W32, terms)
}

#[tactic(auto, unfolding(term_mean::specs::Masks::cut_32))]
fn cut_32(alloc: Global, t: &Term) -> Result<Term, Memory>
    ensures { IfOk result (λ r. tree_of r ≡ spec.cut_32 (tree_of t.now)) }
{
    cut(alloc, &Level32, Width::W32, t)
}

/// At 64 bits.
#[derive(Drop)]
struct Level64;

impl Narrows for Level64 {
    ghost use Rattle.term_mean.specs.Masks.{narrow_64};

    ghost narrowed = { λ s. narrow_64 };

    fn narrow(&self, alloc: Global, k: Width, t: &Term) -> Result<Term, Memory> {
        match k {
            Width::W8 => cut_8(alloc, t),
            Width::W16 => cut_16(alloc, t),
            Width::W32 => cut_32(alloc, t),
            Width::W64 => cut_32(alloc, t),
        }
    }
}

#[tactic(auto, unfolding(term_mean::specs::Masks::made_64))]
fn made_64(alloc: Global, o: Joint, terms: &[Term]) -> Result<Term, Memory>
    ensures { IfOk result (λ r. tree_of r ≡ spec.made_64 o (map tree_of terms.now)) }
{
    made(alloc, &Level64, o, Width::W64, terms)
}

/// At any width.
#[derive(Drop)]
pub struct AtWidth {
    pub width: Width,
}

impl Makes for AtWidth {
    ghost use Rattle.term_mean.specs.Masks.{made_at as made_at_spec};

    ghost made = { λ s. made_at_spec s.width };

    fn make(&self, alloc: Global, o: Joint, parts: Vec<Term>) -> Result<Term, Memory> {
        made_at(alloc, self.width, o, parts.as_slice())
    }
}

/// A product or an operator on bits.
pub fn made_at(alloc: Global, w: Width, o: Joint, terms: &[Term]) -> Result<Term, Memory>
    ensures { IfOk result (λ r. tree_of r ≡ spec.made_at w o (map tree_of terms.now)) }
{
    match w {
        Width::W8 => made_8(alloc, o, terms),
        Width::W16 => made_16(alloc, o, terms),
        Width::W32 => made_32(alloc, o, terms),
        Width::W64 => made_64(alloc, o, terms),
    }
}

/// A wider term, cut; none is wider than 64.
pub fn cut_to(alloc: Global, w: Width, t: &Term) -> Result<Term, Memory>
    ensures { IfOk result (λ r. tree_of r ≡ spec.cut_to w (tree_of t.now)) }
{
    match w {
        Width::W8 => cut_8(alloc, t),
        Width::W16 => cut_16(alloc, t),
        Width::W32 => cut_32(alloc, t),
        Width::W64 => one_copy(alloc, Head::Trunc, Width::W64, t),
    }
}

/// The low 8 bits of a term of any width.
pub fn low_8(alloc: Global, t: &Term) -> Result<Term, Memory>
    ensures { IfOk result (λ r. tree_of r ≡ spec.low_8 (tree_of t.now)) }
{
    if is_same_width(t.width(), Width::W8) {
        t.copy(alloc)
    } else {
        cut_8(alloc, t)
    }
}
