//! What a part of a tree is, besides its name.
ghost use Rattle.std.specs.Prelude.{◌≡◌, option_map, option_copied};
ghost use Rattle.rtx_tree.specs.Tree.{part_at, kids_of};
ghost use Rattle.rtx_pool.specs.Heads.{shown};
ghost use Rattle.std.specs.Prelude.{slice_get};

use rtx_tree::{Code, Mode, Rtx};

/// The head of a tree, as it is shown: its code, mode and number, and how many kids it has.
#[derive(Drop)]
pub struct RtxHead {
    /// The code.
    pub code: Code,
    /// The mode.
    pub mode: Mode,
    /// The number.
    pub number: i64,
    /// How many kids there are.
    pub kids: usize,
}

/// The head of a tree.
pub fn head_of(x: &Rtx) -> RtxHead
    ensures { result ≡ shown x.now }
{
    RtxHead {
        code: x.code,
        mode: x.mode,
        number: x.number,
        kids: x.kids.len(),
    }
}

fn kid(x: &Rtx, index: u32) -> Option<&Rtx>
    ensures { option_copied result ≡ slice_get (kids_of x.now) index }
{
    x.kids.as_slice().get(index as usize)
}

/// The head of the part at a path, if the path exists.
pub fn head_in(x: &Rtx, path: &[u32]) -> Option<RtxHead>
    ensures { result ≡ option_map shown (part_at x.now path.now) }
{
    let mut part = x;
    for index in path {
        part = kid(part, *index)?;
    }
    Some(head_of(part))
}
