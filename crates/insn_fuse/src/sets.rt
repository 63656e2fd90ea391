//! Plain sets of pseudo registers.
ghost use Rattle.std.specs.Prelude.{◌≡◌};
ghost use Rattle.insn_fuse.specs.Fused as spec;

use rtx_tree::{Code, FIRST_PSEUDO, Insn, Kind, Rtx};

/// The pseudo register that a tree is, of those whose numbers have 32 bits.
fn pseudo_of(x: &Rtx) -> Option<u32>
    ensures { result ≡ spec.pseudo_of x.now }
{
    if !matches!(x.code, Code::Reg) {
        return None;
    }
    let Ok(number) = u32::try_from(x.number) else {
        return None;
    };
    if number < FIRST_PSEUDO {
        None
    } else {
        Some(number)
    }
}

/// The pseudo register of which an instruction is a plain set, or `None` where it is none.
pub fn set_of(insn: &Insn) -> Option<u32>
    ensures { result ≡ spec.set_of insn.now }
{
    match (insn.kind, insn.pattern.code, insn.pattern.kids.as_slice()) {
        (Kind::Plain, Code::Set, [target, _]) => pseudo_of(target),
        _ => None,
    }
}
