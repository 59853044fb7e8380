// Whom an advance of a cell serves.
ghost use Rattle.std.specs.Prelude.{◌≡◌, ◌<◌, ◌≤◌, length};
ghost use Rattle.model.specs.Searches.{next_waiting};

use bench::register_at;
use tables::Register;

// The first party that waits for the cell, counted upward from the one after `last`, round past the highest to 0.
pub fn next_waiting<V: Copy, P: Copy>(
    registers: &[Register<V, P>],
    cell: usize,
    last: usize,
) -> Option<usize>
    requires { (last < length registers.now) × (length registers.now ≤ 16) }
    ensures { result ≡ next_waiting (length registers.now) registers.now cell last }
{
    let parties = registers.len();
    let mut passed = 0;
    // A loop that breaks with its party: a form that was asked for (docs/DECISIONS.md, "Forms").
    'round: loop {
        if passed == parties {
            break 'round None;
        }
        let party = (last + 1 + passed) % parties;
        if register_at(registers, party).waits_for(cell) {
            break 'round Some(party);
        }
        passed += 1;
    }
}
