//! The addresses of symbols.
ghost use Rattle.std.specs.Prelude.{◌≡◌};
ghost use Rattle.run_memory.specs.Symbols as spec;

use rtx_tree::Symbols;

/// The address of a symbol: the first that is listed with this name, or `None` where none is.
pub fn symbol_address(symbols: &Symbols, name: &[u8]) -> Option<u64>
    ensures { result ≡ spec.symbol_address symbols.now name.now }
{
    for symbol in symbols.as_slice() {
        if symbol.name.bytes() == name {
            return Some(symbol.address);
        }
    }
    None
}
