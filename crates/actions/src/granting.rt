// Granting a request.
ghost use Rattle.std.specs.Prelude.{◌≡◌, ◌<◌, length, slice_index_or, slice_set};
ghost use Rattle.tables.specs.Legal.{blank};
ghost use Rattle.tables.specs.Lines.{phase_of, target};
ghost use Rattle.model.specs.Bench.{lookup, granted_line, value_in, answer_to};
ghost use Rattle.model.specs.Steps.{joined_by};
ghost use Rattle.bench.specs.Lent.{SameLoans, seen};
ghost use Rattle.actions.specs.Grants.{offered};

use bench::Bench;
use memory::Home;
use operation::Operation;
use tables::{Entry, Line, Refusal, Request};

// The line that a grant makes: Shared with the loaded value, Modified with the written one, Update-only with
// neutral joined to the partial.
pub(crate) fn new_line<O: Operation, H: Home<O>>(
    home: &mut H,
    request: Request<O::Value, O::Partial>,
) -> Result<Line<O::Value, O::Partial>, Refusal>
    ensures value { result ≡ offered (granted_line O.Operation.algebra request (lookup (H.Home.meaning home.old) (target request))) }
    ensures home { H.Home.meaning home.new ≡ H.Home.meaning home.old }
{
    match request {
        Request::Read { cell } => match home.load(cell) {
            Ok(value) => Ok(Line::Shared { cell, value }),
            // Its one refusal is another crate's type, and neither crate knows the other.
            Err(_) => Err(Refusal::Place),
        },
        Request::Write { cell, value } => Ok(Line::Modified { cell, value }),
        Request::Update { cell, partial } => {
            Ok(Line::UpdateOnly {
                cell,
                partial: O::join(O::neutral(), partial),
            })
        }
    }
}

// The answer to a request that a line has finished: a read's value, and none for a write or an update.
pub fn answer_to<V: Copy, P: Copy>(request: Request<V, P>, line: Line<V, P>) -> Option<V>
    ensures { result ≡ answer_to request (value_in line) }
{
    match (request, line) {
        (Request::Read { .. }, Line::Shared { value, .. }) => Some(value),
        (Request::Read { .. }, Line::Modified { value, .. }) => Some(value),
        _ => None,
    }
}

// The party becomes a holder of the cell by the line, gives up its turn and is the last one granted.
pub(crate) fn add_holder<O: Operation, H: Home<O>, R>(
    bench: &mut Bench<'_, O, H, R>,
    cell: usize,
    line: Line<O::Value, O::Partial>,
    party: usize,
)
    requires { (cell < length bench.old.directory.now) × (party < 16) }
    ensures state { seen H.Home.meaning bench.new ≡ record (seen H.Home.meaning bench.old) { directory = slice_set bench.old.directory.now cell (joined_by (slice_index_or bench.old.directory.now cell (blank 0)) (phase_of line) party) } }
    ensures lent { SameLoans bench.old bench.new }
{
    let entry = Entry {
        phase: line.phase(),
        holders: bench.entry(cell).holders.with(party),
        turn: None,
        last: party,
    };
    bench.set_entry(cell, entry);
}
