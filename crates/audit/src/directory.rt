// The directory and the registers, once it is known which parties have a line of each cell.
ghost use Rattle.std.specs.Prelude.{◌≡◌, ℕ, ◌<◌, ◌≤◌, true, length, Decides, slice_index_or};
ghost use Rattle.tables.specs.declared.register.Register.TheVariants.{Empty};
ghost use Rattle.party_set.specs.Sets.{nobody};
ghost use Rattle.tables.specs.Legal.{blank, asks_within};
ghost use Rattle.audit.specs.Audit.{turn_waits, free_right, entry_right};

use party_set::PartySet;
use tables::{Entry, Phase, Register};

// Whether a request that waits in the register is for one of the cells.
fn asks_within<V: Copy, P: Copy>(register: &Register<V, P>, cells: usize) -> bool
    ensures { result ≡ asks_within cells register.now }
{
    register
        .request()
        .is_none_or(|request| request.cell() < cells)
}

// Whether every request that waits is for one of the cells.
pub fn requests_exist<V: Copy, P: Copy>(registers: &[Register<V, P>], cells: usize) -> bool
    ensures { Decides result ((p : ℕ) → p < length registers.now → asks_within cells (slice_index_or registers.now p Empty) ≡ true) }
{
    registers
        .iter()
        .all(|register| asks_within(register, cells))
}

// Whether a turn, if any, is that of a party that waits for the cell.
fn turn_waits<V: Copy, P: Copy>(
    registers: &[Register<V, P>],
    cell: usize,
    turn: Option<usize>,
) -> bool
    ensures { result ≡ turn_waits registers.now cell turn }
{
    turn.is_none_or(|party| party < registers.len() && registers[party].waits_for(cell))
}

// Whether the phase is Free exactly where no party is found to have a line.
fn free_right(phase: Phase, found: PartySet) -> bool
    ensures { result ≡ free_right phase found }
{
    (phase == Phase::Free) == found.is_empty()
}

// Whether the entry is right, where `found` are the parties with a line of its cell.
fn entry_right<V: Copy, P: Copy>(
    registers: &[Register<V, P>],
    cell: usize,
    entry: Entry,
    found: PartySet,
) -> bool
    ensures { result ≡ entry_right registers.now cell entry found }
{
    entry.last < registers.len()
        && entry.holders == found
        && free_right(entry.phase, found)
        && turn_waits(registers, cell, entry.turn)
}

// Whether every entry is right, where `found` are the parties with a line of each cell.
pub fn directory_right<V: Copy, P: Copy>(
    registers: &[Register<V, P>],
    directory: &[Entry],
    found: &[PartySet],
) -> bool
    requires { length directory.now ≤ length found.now }
    ensures { Decides result ((a : ℕ) → a < length directory.now → entry_right registers.now a (slice_index_or directory.now a (blank 0)) (slice_index_or found.now a nobody) ≡ true) }
{
    directory.iter().zip(found).enumerate().all(|(cell, (entry, found))| entry_right(
        registers, cell, *entry, *found,
    ))
}
