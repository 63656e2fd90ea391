//! What is looked up of a whole chain: the places of its labels and the modes of its pseudos.
ghost use Rattle.std.specs.Prelude.{◌≡◌, ◌<◌, ◌^◌, ℕ, IfOk, OnOk, length};
ghost use Rattle.std.specs.Option.{option_or};
ghost use Rattle.std.specs.Ordering.{nat_cmp};
ghost use Rattle.std.specs.BTreeMap as map;
ghost use Rattle.rtl_func.specs.Modes as spec;
ghost use Rattle.rtl_func.specs.machine.Tables.{AreTables};
ghost use Rattle.rtl_func.specs.Uids.{is_ruled};

use crate::labels::{Labels, labels_of};
use crate::shape::class_at;
use plain_data::Memory;
use rtx_tree::{Class, FIRST_PSEUDO, Function, Insn, Kind, Mode, Rtx};
use std::alloc::Global;
use std::collections::BTreeMap;

/// The mode of each pseudo's first mention.
pub type Modes = BTreeMap<u64, Mode>;

/// What is looked up of a chain.
#[derive(Drop)]
pub struct Tables {
    /// The place of the first label with each uid.
    pub labels: Labels,
    /// The mode of each pseudo's first mention.
    pub modes: Modes,
}

/// Whether rules speak of a place: it is no barrier.
pub fn is_ruled(insn: &Insn) -> bool
    ensures { result ≡ is_ruled insn.now }
{
    !matches!(insn.kind, Kind::Barrier)
}

/// The register that a tree is.
pub fn register_at(x: &Rtx) -> Option<u64>
    ensures { result ≡ spec.register_at x.now }
{
    match class_at(x) {
        Class::Register => Some(x.number.cast_unsigned()),
        _ => None,
    }
}

/// Keeps a pseudo's mode, if the tree is one and was not met before.
fn put_mode(modes: &mut Modes, x: &Rtx) -> Result<(), Memory>
    ensures { OnOk result ((reg : ℕ) →
        map.get nat_cmp modes.new reg ≡ option_or (map.get nat_cmp modes.old reg)
        (spec.mode_in (spec.mention_of x.now) reg)) }
{
    let Some(reg) = register_at(x) else {
        return Ok(());
    };
    if reg < u64::from(FIRST_PSEUDO) || modes.contains_key(&reg) {
        return Ok(());
    }
    modes.insert(reg, x.mode)?;
    Ok(())
}

/// Keeps the modes of the pseudos in a tree, in the order of the tree.
fn put_modes(modes: &mut Modes, x: &Rtx) -> Result<(), Memory>
    ensures { OnOk result ((reg : ℕ) →
        map.get nat_cmp modes.new reg ≡ option_or (map.get nat_cmp modes.old reg)
        (spec.first_mode (spec.mentions_in x.now) reg)) }
{
    put_mode(modes, x)?;
    for kid in x.kids.as_slice() {
        put_modes(modes, kid)?;
    }
    Ok(())
}

/// The modes of a chain's pseudos.
fn modes_of(alloc: Global, insns: &[Insn]) -> Result<Modes, Memory>
    ensures { IfOk result (λ modes. (reg : ℕ) →
        map.get nat_cmp modes reg ≡ spec.first_mode (spec.mentions insns.now) reg) }
{
    let mut modes = BTreeMap::new(alloc);
    for insn in insns {
        if is_ruled(insn) {
            put_modes(&mut modes, &insn.pattern)?;
        }
    }
    Ok(modes)
}

/// What is looked up of a function's chain.
pub fn tables_of(alloc: Global, f: &Function) -> Result<Tables, Memory>
    requires { length f.now.insns < 2 ^ 32 }
    ensures { IfOk result (λ tables. AreTables f.now tables) }
{
    let insns = f.insns.as_slice();
    let labels = labels_of(alloc, insns)?;
    let modes = modes_of(alloc, insns)?;
    Ok(Tables { labels, modes })
}
