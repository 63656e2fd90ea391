//! How deep a tree is.
ghost use Rattle.std.specs.Prelude.{◌≡◌, nat_le};
ghost use Rattle.rtx_tree.specs.Limit.{most_combined};
ghost use Rattle.combine.specs.Combine as spec;

use rtx_tree::{MOST_COMBINED, Rtx};

/// Whether so many expressions of a tree stand within each other at most.
fn is_within(x: &Rtx, most: u32) -> bool
    ensures { result ≡ nat_le (spec.levels x.now) most }
{
    if most == 0 {
        return false;
    }
    for kid in x.kids.as_slice() {
        if !is_within(kid, most - 1) {
            return false;
        }
    }
    true
}

/// Whether a combined instruction may have a pattern, by its depth.
pub fn is_shallow(x: &Rtx) -> bool
    ensures { result ≡ nat_le (spec.levels x.now) most_combined }
{
    is_within(x, MOST_COMBINED)
}
