// The limits of a bench's sizes. A victim rule and a script have limits of their own, and know no bench.
ghost use Rattle.std.specs.Prelude.{◌≡◌, ◌≤◌, ◌&&◌, MatchBool, nat_le};
ghost use Rattle.tables.specs.Legal.{fits};

use tables::{Entry, Line, Register};

pub const MOST_PARTIES: usize = 16;

pub const MOST_CELLS: usize = 256;

pub const MOST_WAYS: usize = 8;

// Whether it is 1 to `most`.
fn within(n: usize, most: usize) -> bool
    ensures value { result ≡ (nat_le 1 n && nat_le n most) }
    ensures bound { MatchBool result (n ≤ most) (Unit {0}) }
{
    (1..=most).contains(&n)
}

// Whether there are 1 to 16 registers, 1 to 256 entries and 1 to 8 ways, and a line for each party and way.
pub fn sizes_fit<V: Copy, P: Copy>(
    lines: &[Line<V, P>],
    directory: &[Entry],
    registers: &[Register<V, P>],
    ways: usize,
) -> bool
    ensures { result ≡ fits ways lines.now directory.now registers.now }
{
    // Each bound is known for the product below once its test has passed.
    let parties = registers.len();
    if !within(parties, MOST_PARTIES) {
        return false;
    }
    if !within(directory.len(), MOST_CELLS) {
        return false;
    }
    if !within(ways, MOST_WAYS) {
        return false;
    }
    lines.len() == parties * ways
}
