// The lines, against the directory and the registers.
ghost use Rattle.std.specs.Prelude.{◌≡◌, ◌<◌, ◌≤◌, length, if◌then◌else◌};
ghost use Rattle.tables.specs.Legal.{misses};
ghost use Rattle.audit.specs.Audit.{room, admits, admitted};

use party_set::PartySet;
use tables::{Entry, Line, Phase, Register};

// Whether no request that waits in the register would hit on the line.
fn misses<V: Copy, P: Copy>(register: &Register<V, P>, line: &Line<V, P>) -> bool
    ensures { result ≡ misses register.now line.now }
{
    register
        .request()
        .is_none_or(|request| !line.hits(&request))
}

// Whether a line of the party may join those found of its cell: no party has two, and a Modified line is alone.
fn has_room(phase: Phase, found: PartySet, party: usize) -> bool
    ensures { result ≡ room phase found party }
{
    match phase {
        Phase::Modified => found.is_empty(),
        _ => !found.has(party),
    }
}

// Takes the party into those found to have a line of the line's cell, unless the line is not right.
pub fn admit<V: Copy, P: Copy>(
    line: &Line<V, P>,
    party: usize,
    register: &Register<V, P>,
    directory: &[Entry],
    found: &mut [PartySet],
) -> bool
    requires { (party < 16) × (length directory.now ≤ length found.old) }
    ensures right { result ≡ admits directory.now found.old party register.now line.now }
    ensures after { found.new ≡ (if result then admitted found.old party line.now else found.old) }
{
    let Some(cell) = line.cell() else {
        return true;
    };
    if cell >= directory.len() {
        return false;
    }
    let phase = line.phase();
    if phase != directory[cell].phase
        || !has_room(phase, found[cell], party)
        || !misses(register, line)
    {
        return false;
    }
    found[cell] = found[cell].with(party);
    true
}
