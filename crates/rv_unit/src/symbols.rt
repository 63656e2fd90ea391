//! The addresses of symbols, each found at once.
ghost use Rattle.std.specs.Prelude.{◌≡◌, IfOk};
ghost use Rattle.run_memory.specs.Symbols as spec;
ghost use Rattle.rv_unit.specs.machine.Labels.{AreSymbols};

use name_places::Places;
use plain_data::Memory;
use rtx_tree::Symbols;
use std::alloc::Global;
use std::marker::Model;

/// Symbols with their addresses. Contracts see the list of them.
#[derive(Drop)]
pub struct SymbolTable {
    symbols: Symbols,
    addresses: Places,
}

impl Model for SymbolTable {
    ghost use Rattle.std.specs.Prelude.{List};
    ghost use Rattle.rtx_tree.specs.declared.machine.SymbolAt.{SymbolAt};
    ghost use Rattle.rv_unit.specs.machine.Labels.{AreSymbols};

    ghost Value = { List SymbolAt };

    ghost view = { λ table. table.symbols };

    ghost invariant = { λ table. AreSymbols table.symbols table.addresses };
}

/// The addresses under the symbols' names.
fn addresses_of(alloc: Global, symbols: &Symbols) -> Result<Places, Memory>
    ensures { IfOk result (AreSymbols symbols.now) }
{
    let mut addresses = Places::new(alloc);
    for symbol in symbols.as_slice() {
        addresses.put(alloc, symbol.name.bytes(), symbol.address as usize)?;
    }
    Ok(addresses)
}

impl SymbolTable {
    /// The symbols, each found at once.
    pub fn of(alloc: Global, symbols: Symbols) -> Result<SymbolTable, Memory>
        ensures { IfOk result (λ table. table ≡ symbols) }
    {
        let addresses = addresses_of(alloc, &symbols)?;
        Ok(SymbolTable { symbols, addresses })
    }

    /// The address of the first symbol with this name, or `None` where there is none.
    pub fn address_of(&self, name: &[u8]) -> Option<u64>
        ensures { result ≡ spec.symbol_address self.now name.now }
    {
        let address = self.addresses.place_of(name)?;
        Some(address as u64)
    }
}
