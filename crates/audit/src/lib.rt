// Whether the tables of a bench are of sound sizes and legal.
#![tactic(auto)]

ghost use Rattle.std.specs.Prelude.{◌≡◌, true, is_ok, Decides};
ghost use Rattle.tables.specs.Legal.{fits, Legal};
ghost use Rattle.audit.specs.Audit.{audited, Sized};

mod directory;
mod lines;
mod sizes;
#[cfg(test)]
mod tests;

use directory::{directory_right, requests_exist};
use lines::admit;
use party_set::PartySet;
use sizes::MOST_CELLS;
pub use sizes::sizes_fit;
use tables::{Entry, Line, Refusal, Register};

// Whether tables whose sizes fit are legal, in one pass over the lines and one over the directory. The tables come as
// four parameters here and in `audit` and `sizes_fit`: they are lent so, and a caller need have no bench of them.
fn is_legal<V: Copy, P: Copy>(
    lines: &[Line<V, P>],
    directory: &[Entry],
    registers: &[Register<V, P>],
    ways: usize,
) -> bool
    requires { Sized ways lines.now directory.now registers.now }
    ensures { Decides result (Legal ways lines.now directory.now registers.now) }
{
    if !requests_exist(registers, directory.len()) {
        return false;
    }
    // An array as long as a directory can be: a call has no heap.
    let mut found = [PartySet::none(); MOST_CELLS];
    let admitted = 'lines: {
        for (party, register) in registers.iter().enumerate() {
            for line in &lines[party * ways..(party + 1) * ways] {
                if !admit(line, party, register, directory, &mut found) {
                    break 'lines false;
                }
            }
        }
        true
    };
    admitted && directory_right(registers, directory, &found)
}

// Whether the sizes fit and the tables are legal. Nothing is altered.
pub fn audit<V: Copy, P: Copy>(
    lines: &[Line<V, P>],
    directory: &[Entry],
    registers: &[Register<V, P>],
    ways: usize,
) -> Result<(), Refusal>
    ensures value { result ≡ audited ways lines.now directory.now registers.now }
    ensures legal { Decides (is_ok result) ((fits ways lines.now directory.now registers.now ≡ true) × Legal ways lines.now directory.now registers.now) }
{
    if !sizes_fit(lines, directory, registers, ways) {
        return Err(Refusal::Sizes);
    }
    if !is_legal(lines, directory, registers, ways) {
        return Err(Refusal::Illegal);
    }
    Ok(())
}
