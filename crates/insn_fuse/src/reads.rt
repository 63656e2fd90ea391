//! Where a pattern reads a register.
ghost use Rattle.std.specs.Prelude.{◌≡◌, ◌==◌, ◌↔◌, ◌∷◌, ◌++◌, [], map, IfOk, OnOk, IfSome, IfNone, IsSome, List, ℕ, ◌≢◌, false};
ghost use Rattle.rtx_tree.specs.declared.tree.Rtx.{Rtx};
ghost use Rattle.rtx_tree.specs.Tree.{head_of, part_at};
ghost use Rattle.reg_uses.specs.Effects.{pattern_uses};
ghost use Rattle.insn_fuse.specs.Fused as spec;

use plain_data::{Items, Memory};
use rtx_tree::{Code, Path, Rtx};
use std::alloc::Global;

type Paths = Items<Path>;

/// Adds paths, each behind an index. It wants a number for the index, as it wants memory.
fn add_behind(index: usize, below: Paths, paths: &mut Paths) -> Result<(), Memory>
    ensures { OnOk result (paths.new ≡ paths.old ++ map (λ path. index ∷ path) below) }
{
    let Ok(index) = u32::try_from(index) else {
        return Err(Memory);
    };
    for path in below.into_vec() {
        let mut path = path;
        path.insert(0, index)?;
        paths.push(path)?;
    }
    Ok(())
}

fn is_numbered(x: &Rtx, reg: u32) -> bool
    ensures { result ≡ spec.is_numbered x.now reg }
{
    matches!(x.code, Code::Reg) && x.number == i64::from(reg)
}

/// The paths at which a register stands in a tree.
#[tactic(auto, using(crate::proofs::Paths::the_mentions))]
fn mentioned_at(alloc: Global, x: &Rtx, reg: u32) -> Result<Paths, Memory>
    ensures { IfOk result (λ paths. paths ≡ spec.mentioned_at reg x.now) }
{
    let mut paths = Items::new(alloc);
    if is_numbered(x, reg) {
        paths.push(Items::new(alloc))?;
    }
    let kids = x.kids.as_slice();
    for i in 0..kids.len() {
        add_behind(i, mentioned_at(alloc, &kids[i], reg)?, &mut paths)?;
    }
    Ok(paths)
}

/// Those in the address of memory that is set.
fn address_reads(alloc: Global, place: &Rtx, reg: u32) -> Result<Paths, Memory>
    ensures { IfOk result (λ paths. paths ≡ spec.address_reads reg place.now) }
{
    if matches!(place.code, Code::Mem) {
        mentioned_at(alloc, place, reg)
    } else {
        Ok(Items::new(alloc))
    }
}

/// The paths at which a `set` reads a register.
#[tactic(auto, using(crate::proofs::Paths::set_is))]
fn set_reads(alloc: Global, place: &Rtx, source: &Rtx, reg: u32) -> Result<Paths, Memory>
    ensures { IfOk result (λ paths. paths ≡ spec.behind_indices 0 (spec.address_reads reg place.now ∷ spec.mentioned_at reg source.now ∷ [])) }
{
    let mut paths = Items::new(alloc);
    add_behind(0, address_reads(alloc, place, reg)?, &mut paths)?;
    add_behind(1, mentioned_at(alloc, source, reg)?, &mut paths)?;
    Ok(paths)
}

/// The paths at which an effect reads a register.
fn effect_reads(alloc: Global, x: &Rtx, reg: u32) -> Result<Paths, Memory>
    ensures { IfOk result (λ paths. paths ≡ spec.effect_reads reg x.now) }
{
    match (x.code, x.kids.as_slice()) {
        (Code::Set, [place, source]) => set_reads(alloc, place, source, reg),
        (Code::Clobber, _) => Ok(Items::new(alloc)),
        _ => mentioned_at(alloc, x, reg),
    }
}

/// The paths at which effects that are made at once read a register.
#[tactic(auto, using(crate::proofs::Paths::the_reads))]
fn all_reads(alloc: Global, effects: &[Rtx], reg: u32) -> Result<Paths, Memory>
    ensures { IfOk result (λ paths. paths ≡ spec.behind_indices 0 (map (spec.effect_reads reg) effects.now)) }
{
    let mut paths = Items::new(alloc);
    for i in 0..effects.len() {
        add_behind(i, effect_reads(alloc, &effects[i], reg)?, &mut paths)?;
    }
    Ok(paths)
}

/// The paths at which a pattern reads a register.
fn reads_at(alloc: Global, pattern: &Rtx, reg: u32) -> Result<Paths, Memory>
    ensures { IfOk result (λ paths. paths ≡ spec.reads_at reg pattern.now) }
{
    if matches!(pattern.code, Code::Parallel) {
        all_reads(alloc, pattern.kids.as_slice(), reg)
    } else {
        effect_reads(alloc, pattern, reg)
    }
}

/// The place at which a pattern reads a register, or `None` where it reads it at none or at several.
/// It reads a register other than 0 at none exactly where it does not use it.
#[tactic(auto, using(crate::proofs::Uses::reads_are_uses))]
pub fn use_of(alloc: Global, pattern: &Rtx, reg: u32) -> Result<Option<Path>, Memory>
    ensures one { IfOk result (λ place. IfSome place (λ path. spec.reads_at reg pattern.now ≡ path ∷ [])) }
    ensures none { IfOk result (λ place. IfNone place ((path : List ℕ) → spec.reads_at reg pattern.now ≢ path ∷ [])) }
    ensures there { IfOk result (λ place. IfSome place (λ path. IsSome (part_at pattern.now path))) }
    ensures uses { (reg : ℕ) → (reg == 0) ≡ false → (x : Rtx) →
        (spec.reads_at reg x ≡ []) ↔ (pattern_uses reg x ≡ false) }
{
    let mut paths = reads_at(alloc, pattern, reg)?;
    if paths.len() == 1 {
        Ok(paths.pop())
    } else {
        Ok(None)
    }
}
