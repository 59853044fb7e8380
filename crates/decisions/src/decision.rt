// The pure decision of an advance: who is served, and which action is next.
ghost use Rattle.std.specs.Prelude.{◌≡◌, ◌<◌, true, length};
ghost use Rattle.tables.specs.Legal.{Legal, fits};
ghost use Rattle.tables.specs.Lines.{target};
ghost use Rattle.model.specs.Searches.{conflict_in, served_at};
ghost use Rattle.model.specs.Decisions.{decided, next_of_request};

use super::turn::next_waiting;
use bench::{entry_at, own_line, register_at, vacant_way};
use model::Next;
use operation::Operation;
use tables::{Entry, Line, Register, Request};

// The line of the lowest party that has one in conflict with the request.
// The directory tells it: all lines of a cell are in its phase, and their parties are its holders.
fn find_conflict<O: Operation>(
    lines: &[Line<O::Value, O::Partial>],
    directory: &[Entry],
    registers: &[Register<O::Value, O::Partial>],
    ways: usize,
    request: Request<O::Value, O::Partial>,
) -> Option<usize>
    requires sizes { fits ways lines.now directory.now registers.now ≡ true }
    requires legal { Legal ways lines.now directory.now registers.now }
    requires within { target request < length directory.now }
    ensures { result ≡ conflict_in ways lines.now (length registers.now) request }
{
    let cell = request.cell();
    let entry = entry_at(directory, cell);
    if !request.clashes_with(entry.phase) {
        return None;
    }
    let holder = entry.holders.lowest()?;
    own_line(lines, ways, holder, cell)
}

// Who is served, given the cell's entry.
fn served<O: Operation>(
    registers: &[Register<O::Value, O::Partial>],
    entry: Entry,
    cell: usize,
) -> Option<usize>
    requires { (entry.last < length registers.now) × (length registers.now < 17) }
    ensures { result ≡ served_at (length registers.now) registers.now cell entry.last entry.turn }
{
    // No `or_else`: of a closure that calls a function with a `requires` the check learns nothing.
    match entry.turn {
        Some(party) => Some(party),
        None => next_waiting(registers, cell, entry.last),
    }
}

// What comes next for a served party's request.
fn decide_for<O: Operation>(
    lines: &[Line<O::Value, O::Partial>],
    directory: &[Entry],
    registers: &[Register<O::Value, O::Partial>],
    ways: usize,
    party: usize,
    request: Request<O::Value, O::Partial>,
) -> Next<O::Value, O::Partial>
    requires sizes { fits ways lines.now directory.now registers.now ≡ true }
    requires legal { Legal ways lines.now directory.now registers.now }
    requires within { (target request < length directory.now) × (party < length registers.now) }
    ensures { result ≡ next_of_request (length registers.now) ways lines.now directory.now registers.now party request (conflict_in ways lines.now (length registers.now) request) }
{
    if let Some(line) = find_conflict::<O>(lines, directory, registers, ways, request) {
        return Next::Recall {
            served: party,
            line,
        };
    }
    match vacant_way(lines, ways, party) {
        Some(line) => Next::Grant {
            served: party,
            request,
            line,
        },
        None => Next::Evict { served: party },
    }
}

// What an advance of the cell does next.
pub fn decide<O: Operation>(
    lines: &[Line<O::Value, O::Partial>],
    directory: &[Entry],
    registers: &[Register<O::Value, O::Partial>],
    ways: usize,
    cell: usize,
) -> Next<O::Value, O::Partial>
    requires sizes { fits ways lines.now directory.now registers.now ≡ true }
    requires legal { Legal ways lines.now directory.now registers.now }
    requires within { cell < length directory.now }
    ensures { result ≡ decided (length registers.now) ways lines.now directory.now registers.now cell }
{
    let Some(party) = served::<O>(registers, entry_at(directory, cell), cell) else {
        return Next::Idle;
    };
    match register_at(registers, party) {
        Register::Waiting(request) => decide_for::<O>(
            lines, directory, registers, ways, party, request,
        ),
        Register::Empty | Register::Answered(_) => Next::Idle,
    }
}
