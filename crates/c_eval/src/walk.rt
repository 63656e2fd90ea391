//! A tree that is kept as its heads, each behind its parts, is read.
//!
//! A part is read from the head in its middle, and then along the path from there to its last head.
//! Each other part that a head on the path has lies wholly on one side of the middle, so it has at
//! most half as many heads. So calls are nested no deeper than a number has bits, however deep the
//! tree is; and no memory is taken.
ghost use Rattle.std.specs.Prelude.{◌≡◌, ℕ, ◌+◌, ◌<◌, ◌≤◌, ◌^◌, length};
ghost use Rattle.c_cond.specs.c_words.declared.head.CondHead.TheVariants as CondHead;
ghost use Rattle.c_cond.specs.Tree as tree;
ghost use Rattle.c_eval.specs.Fold.{fold_by};
ghost use Rattle.c_eval.specs.machine.Places as places;

use crate::reading::Reading;
use crate::reads::Reads;
use c_cond::{Call, CondHead};

/// A part of a tree.
#[derive(Clone, Copy)]
pub struct Part {
    /// The place of the part's first head.
    pub start: usize,
    /// The place behind the part's last head.
    pub end: usize,
    /// What the part is read as.
    pub reading: Reading,
}

/// How many parts a call has.
fn call_size(call: Call) -> usize
    ensures { result ≡ tree.size_of (CondHead.Call call) }
{
    match call {
        Call::CanCreatePseudo => 0,
        Call::InRange => 3,
        Call::RtxEqual
        | Call::RegDead
        | Call::GenIntMode
        | Call::ForceReg
        | Call::GenLowpart
        | Call::EmitMove => 2,
        _ => 1,
    }
}

/// How many parts a head has.
pub fn size_of(head: &CondHead) -> usize
    ensures value { result ≡ tree.size_of head.now }
    ensures bound { result ≤ 3 }
{
    match head {
        CondHead::CodeIs { .. }
        | CondHead::ModeIs { .. }
        | CondHead::Unary(_)
        | CondHead::Assign(_) => 1,
        CondHead::Binary(_) | CondHead::Predicate(_) | CondHead::If | CondHead::Then => 2,
        CondHead::Choose | CondHead::IfElse => 3,
        CondHead::Call(call) => call_size(*call),
        _ => 0,
    }
}

/// Where the last tree of the heads before `end` starts.
fn start_of(heads: &[CondHead], end: usize) -> usize
    requires { end ≤ length heads.now }
    ensures { places.IsStart heads.now end result }
{
    let mut start = end;
    let mut missing: usize = 1;
    while missing > 0 && start > 0 {
        start -= 1;
        missing = missing - 1 + size_of(&heads[start]);
    }
    start
}

/// The place of the head that has the tree before `from` as a part.
fn parent_of(heads: &[CondHead], from: usize, end: usize) -> usize
    requires within { end ≤ length heads.now }
    requires some { from < end }
    requires taken { places.count_at heads.now end ≤ places.count_at heads.now from }
    ensures { places.IsParent heads.now from end result }
{
    let mut later: usize = 0;
    for at in from..end {
        let size = size_of(&heads[at]);
        if size > later {
            return at;
        }
        later = later + 1 - size;
    }
    end
}

/// The part on the path, where it ends here.
fn ending_at(path: Option<Part>, end: usize) -> Option<Part>
    ensures { result ≡ places.ending_at path end }
{
    path.filter(|part| part.end == end)
}

/// The part whose last head stands at this place. Of its parts, one may be known: the part on the
/// path.
#[cycle(walk)]
fn part_at<R: Reads>(
    reads: &R,
    heads: &[CondHead],
    at: usize,
    path: Option<Part>,
    levels: u32,
) -> Part
    requires within { at < length heads.now }
    requires path { places.IsPath (R.read_by reads.now) heads.now path }
    requires small { (e s : ℕ) → places.EndsPart heads.now at e → places.IsStart heads.now e s →
        places.IsOff path e → e < s + 2 ^ levels }
    ensures part { places.IsPart (R.read_by reads.now) heads.now result }
    ensures end { result.end ≡ at + 1 }
{
    let head = &heads[at];
    let size = size_of(head);
    let mut readings = [Reading::Nothing; 3];
    let mut first: usize = 3;
    let mut start = at;
    while first + size > 3 && start > 0 {
        let part = part_before(reads, heads, start, path, levels);
        first -= 1;
        readings[first] = part.reading;
        start = part.start;
    }
    Part {
        start,
        end: at + 1,
        reading: reads.read(head, &readings[first..]),
    }
}

/// The last tree of the heads before `end`: the part on the path, where that ends here.
#[cycle(walk)]
fn part_before<R: Reads>(
    reads: &R,
    heads: &[CondHead],
    end: usize,
    path: Option<Part>,
    levels: u32,
) -> Part
    requires within { end ≤ length heads.now }
    requires some { 0 < end }
    requires path { places.IsPath (R.read_by reads.now) heads.now path }
    requires small { (s : ℕ) → places.IsOff path end → places.IsStart heads.now end s →
        end < s + 2 ^ levels }
    ensures part { places.IsPart (R.read_by reads.now) heads.now result }
    ensures end { result.end ≡ end }
{
    match ending_at(path, end) {
        Some(part) => part,
        None => last_part(reads, heads, end, levels),
    }
}

/// The last tree of the heads before `end`. It has fewer heads than a number of so many bits can
/// say.
#[cycle(walk)]
fn last_part<R: Reads>(reads: &R, heads: &[CondHead], end: usize, levels: u32) -> Part
    requires within { end ≤ length heads.now }
    requires some { 0 < end }
    requires small { (s : ℕ) → places.IsStart heads.now end s → end < s + 2 ^ levels }
    ensures part { places.IsPart (R.read_by reads.now) heads.now result }
    ensures end { result.end ≡ end }
{
    let start = start_of(heads, end);
    let middle = start + (end - 1 - start) / 2;
    let mut path = part_at(reads, heads, middle, None, levels - 1);
    while path.end < end {
        let parent = parent_of(heads, path.end, end);
        path = part_at(reads, heads, parent, Some(path), levels - 1);
    }
    path
}

/// What the last tree of heads is read as.
pub fn read_last<R: Reads>(reads: &R, heads: &[CondHead]) -> Reading
    ensures { result ≡ fold_by (R.read_by reads.now) (tree.tree_of heads.now) }
{
    if heads.is_empty() {
        return reads.read(&CondHead::Nothing, &[]);
    }
    last_part(reads, heads, heads.len(), usize::BITS).reading
}
