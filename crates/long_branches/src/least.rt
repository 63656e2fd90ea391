//! The set grows from none, until every branch that isn't in it reaches.
ghost use Rattle.std.specs.Prelude.{◌≡◌, ◌+◌, ◌<◌, ◌≤◌, length, Some, IfOk};
ghost use Rattle.long_branches.specs.Branches as spec;
ghost use Rattle.long_branches.specs.Branches.{ArePlaces, IsLeast, LeastIsOne};
ghost use Rattle.long_branches.specs.machine.Rounds as round;
ghost use Rattle.long_branches.specs.machine.Rounds.{IsRound};

use crate::piece::Piece;
use plain_data::{Items, Memory};
use std::alloc::Global;
use std::cmp::min;

/// How many words a piece has.
fn width(piece: Piece, long: bool) -> u64
    ensures { result ≡ spec.width (Some piece) long }
{
    match piece {
        Piece::Fixed { words } => words as u64,
        Piece::Branch { .. } if long => 2,
        Piece::Branch { .. } => 1,
    }
}

/// The sum of two numbers. Places that don't fit 64 bits are more than memory holds.
fn sum(left: u64, right: u64) -> Result<u64, Memory>
    ensures { IfOk result (λ sum. sum ≡ left + right) }
{
    left.checked_add(right).ok_or(Memory)
}

/// Where each piece begins, and where the last one ends.
pub fn places_of(alloc: Global, pieces: &[Piece], longs: &[bool]) -> Result<Items<u64>, Memory>
    requires { length longs.now ≡ length pieces.now }
    ensures { IfOk result (ArePlaces pieces.now longs.now) }
{
    let mut places = Items::new(alloc);
    let mut place: u64 = 0;
    places.push(place)?;
    for (at, piece) in pieces.iter().enumerate() {
        place = sum(place, width(*piece, longs[at]))?;
        places.push(place)?;
    }
    Ok(places)
}

/// Whether a place is reached from another one in one word.
fn reaches(from: u64, to: u64) -> bool
    ensures { result ≡ round.reaches from to }
{
    from <= to.saturating_add(1024) && to <= from.saturating_add(1023)
}

/// Whether a piece is a branch that doesn't reach.
fn misses(piece: Piece, places: &[u64], at: usize) -> bool
    requires { at < length places.now }
    ensures { result ≡ round.misses places.now (Some piece) at }
{
    match piece {
        Piece::Fixed { .. } => false,
        Piece::Branch { to } => !reaches(places[at], places[min(to, places.len() - 1)]),
    }
}

/// Makes the branches long that don't reach. Whether there was one.
fn grow(pieces: &[Piece], places: &[u64], longs: &mut [bool]) -> bool
    requires flags { length longs.old ≡ length pieces.now }
    requires places { length places.now ≡ length pieces.now + 1 }
    ensures { IsRound pieces.now places.now longs.old longs.new (length pieces.now) result }
{
    let mut some = false;
    for (at, piece) in pieces.iter().enumerate() {
        if !longs[at] && misses(*piece, places, at) {
            longs[at] = true;
            some = true;
        }
    }
    some
}

/// The least set of long branches: a flag for each piece.
pub fn least_long(alloc: Global, pieces: &[Piece]) -> Result<Vec<bool>, Memory>
    ensures least { IfOk result (λ longs. IsLeast pieces.now longs.items) }
    ensures one { LeastIsOne }
{
    let mut longs = vec![in alloc; false; pieces.len()]?;
    'rounds: loop {
        let places = places_of(alloc, pieces, &longs)?;
        if !grow(pieces, places.as_slice(), &mut longs) {
            return Ok(longs);
        }
    }
}

#[cfg(test)]
mod tests {
    use super::*;

    /// A branch forward over so many words, and so many words before a branch that leads back.
    fn flags(alloc: Global, over: usize, back: usize) -> Result<Vec<bool>, Memory> {
        let pieces = vec![in alloc;
            Piece::Branch { to: 2 },
            Piece::Fixed { words: over },
            Piece::Fixed { words: back },
            Piece::Branch { to: 2 },
        ]?;
        least_long(alloc, &pieces)
    }

    fn are(flags: &Result<Vec<bool>, Memory>, first: bool, last: bool) -> bool {
        match flags {
            Ok(flags) => flags.len() == 4 && flags[0] == first && flags[3] == last,
            Err(Memory) => false,
        }
    }

    #[test]
    fn branches_are_long_where_they_do_not_reach(rt: HostRuntime) {
        let alloc = rt.alloc();
        assert!(rt; are(&flags(alloc, 1022, 1024), false, false));
        assert!(rt; are(&flags(alloc, 1023, 1025), true, true));
        assert!(rt; are(&flags(alloc, 1024, 0), true, false));
    }

    /// Of two branches over each other, one that is long makes the other one long.
    #[test]
    fn a_long_branch_moves_others(rt: HostRuntime) {
        let alloc = rt.alloc();
        let Ok(pieces) = vec![in alloc;
            Piece::Branch { to: 4 },
            Piece::Fixed { words: 1021 },
            Piece::Branch { to: 5 },
            Piece::Fixed { words: 0 },
            Piece::Fixed { words: 1023 },
            Piece::Branch { to: 9 },
        ] else {
            panic!(rt; "no pieces");
        };
        let Ok(flags) = least_long(alloc, &pieces) else {
            panic!(rt; "no flags");
        };
        assert!(rt; flags[0] && flags[2] && !flags[5]);
    }
}
