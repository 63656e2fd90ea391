//! What the passes have made of a function.
ghost use Rattle.std.specs.Prelude.{◌≡◌, [], IfOk};
ghost use Rattle.func_after.specs.After as spec;

use assign::Layout;
use plain_data::{Items, Memory};
use rtx_tree::Function;
use std::alloc::Global;

/// What the passes have made of a function.
#[derive(Drop)]
pub struct Compilation {
    /// The function, as it is now.
    pub function: Function,
    /// How many of its instructions were combined.
    pub combined: usize,
    /// The layout of its frame, once its registers have homes.
    pub layout: Layout,
}

fn no_layout(alloc: Global) -> Layout
    ensures { result ≡ record { size = 0; slots = []; saved = [] } }
{
    Layout {
        size: 0,
        slots: Items::new(alloc),
        saved: Items::new(alloc),
    }
}

/// A function as it was read, before any pass.
pub(crate) fn as_read(alloc: Global, f: &Function) -> Result<Compilation, Memory>
    ensures { IfOk result (λ m. m ≡ spec.as_read f.now) }
{
    let function = f.copy(alloc)?;
    let layout = no_layout(alloc);
    Ok(Compilation {
        function,
        combined: 0,
        layout,
    })
}
