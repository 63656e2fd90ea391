//! The mnemonic with a name.
ghost use Rattle.std.specs.Prelude.{◌≡◌};
ghost use Rattle.rv_unit.specs.Names as spec;

use rv_text::{MNEMONICS, Mnemonic};
use rv_word::{Spelling, spelling_of};

/// The first of some mnemonics that has this name.
fn find_mnemonic(mnemonics: &[Mnemonic], name: &[u8]) -> Option<Mnemonic>
    ensures { result ≡ spec.find_mnemonic name.now mnemonics.now }
{
    for mnemonic in mnemonics {
        if mnemonic.row().name.as_bytes() == name {
            return Some(*mnemonic);
        }
    }
    None
}

/// The mnemonic with this name, or `None` where none has it.
pub fn mnemonic_named(name: &[u8]) -> Option<Mnemonic>
    ensures { result ≡ spec.mnemonic_named name.now }
{
    find_mnemonic(&MNEMONICS, name)
}

/// Which words a line with this name has, or `None` where no mnemonic has it.
pub fn spelling_named(name: &[u8]) -> Option<Spelling>
    ensures { result ≡ spec.spelling_named name.now }
{
    let mnemonic = mnemonic_named(name)?;
    Some(spelling_of(mnemonic))
}
