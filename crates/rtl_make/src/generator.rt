//! The generator of numbers that picks operations.
ghost use Rattle.std.specs.Prelude.{◌≡◌, ◌^◌, ◌<◌, ◌/◌, ◌%◌};
ghost use Rattle.rtl_make.specs.Made as spec;
ghost use Rattle.rtl_make.specs.Made.{bits_at};

use bits64::{Width, add, mul};

const FACTOR: u64 = 6_364_136_223_846_793_005;

const TERM: u64 = 1_442_695_040_888_963_407;

/// The number behind a number.
pub(crate) fn next_of(x: u64) -> u64
    ensures { result ≡ spec.next_of x }
{
    add(mul(FACTOR, x, Width::W64), TERM, Width::W64)
}

/// Which of so many numbers stands in a number's bits from one on, counted from 0.
pub(crate) fn bits_at(first: u32, values: u64, x: u64) -> u32
    requires first { first < 64 }
    requires some { 0 < values }
    requires few { values < 2 ^ 32 }
    ensures value { result ≡ bits_at first values x }
    ensures bound { result < values }
{
    ((x >> first) % values) as u32
}
