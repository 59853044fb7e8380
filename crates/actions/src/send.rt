// Sending a line home.
ghost use Rattle.std.specs.Prelude.{◌≡◌, ◌+◌, ◌/◌, ◌^◌, ◌<◌, ◌≤◌, length, slice_index_or, slice_set};
ghost use Rattle.tables.specs.declared.line.Line.TheVariants.{Invalid};
ghost use Rattle.tables.specs.Lines.{cell_of};
ghost use Rattle.tables.specs.Legal.{blank};
ghost use Rattle.model.specs.Bench.{sent_home};
ghost use Rattle.model.specs.Steps.{left_by, send, yield_more};
ghost use Rattle.bench.specs.Lent.{SameLoans, Sendable, seen, terms};

use bench::{Bench, entry_at, line_at};
use memory::Home;
use operation::Operation;
use tables::{Entry, Line, Phase};
use victim::Victim;

// What a line holds reaches the home: an apply for Update-only, a store for Modified, neither for Shared.
fn write_back<O: Operation, H: Home<O>>(home: &mut H, line: Line<O::Value, O::Partial>)
    ensures { H.Home.meaning home.new ≡ sent_home O.Operation.algebra (H.Home.meaning home.old) line }
{
    match line {
        Line::Invalid | Line::Shared { .. } => {}
        Line::UpdateOnly { cell, partial } => {
            let _ = home.apply(cell, partial);
        }
        Line::Modified { cell, value } => {
            let _ = home.store(cell, value);
        }
    }
}

// The cell that a line holds; an Invalid one has none, and 0 stands for it, as in the definition: none is ever sent.
fn cell_of<V: Copy, P: Copy>(line: Line<V, P>) -> usize
    ensures { result ≡ cell_of line }
{
    line.cell().unwrap_or(0)
}

// The party stops being a holder of the cell; without holders the phase is Free.
fn drop_holder(directory: &mut [Entry], cell: usize, party: usize)
    requires { (cell < length directory.old) × (party < 16) }
    ensures { directory.new ≡ slice_set directory.old cell (left_by (slice_index_or directory.old cell (blank 0)) party) }
{
    let mut entry = entry_at(directory, cell);
    entry.holders = entry.holders.without(party);
    if entry.holders.is_empty() {
        entry.phase = Phase::Free;
    }
    directory[cell] = entry;
}

// Line i goes home, and its party is no longer a holder of its cell. (Over the tables that it changes and no more: a
// settle lends its registers and its rule to be read alone.)
pub fn send_home<O: Operation, H: Home<O>>(
    lines: &mut [Line<O::Value, O::Partial>],
    directory: &mut [Entry],
    home: &mut H,
    ways: usize,
    i: usize,
)
    requires sizes { (i < length lines.old) × ((1 ≤ ways) × (i / ways < 16)) }
    requires listed { cell_of (slice_index_or lines.old i Invalid) < length directory.old }
    ensures lines { lines.new ≡ slice_set lines.old i Invalid }
    ensures directory { directory.new ≡ slice_set directory.old (cell_of (slice_index_or lines.old i Invalid)) (left_by (slice_index_or directory.old (cell_of (slice_index_or lines.old i Invalid)) (blank 0)) (i / ways)) }
    ensures home { H.Home.meaning home.new ≡ sent_home O.Operation.algebra (H.Home.meaning home.old) (slice_index_or lines.old i Invalid) }
{
    let line = line_at(lines, i);
    write_back::<O, H>(home, line);
    lines[i] = Line::Invalid;
    drop_holder(directory, cell_of(line), i / ways);
}

// The same of a bench.
pub fn send_line<O: Operation, H: Home<O>, R: Victim>(bench: &mut Bench<'_, O, H, R>, i: usize)
    requires { Sendable bench.old i }
    ensures state { seen H.Home.meaning bench.new ≡ send (terms O.Operation.algebra R.Victim.rule H.Home.meaning bench.old) (seen H.Home.meaning bench.old) i bench.old.ledger.now bench.old.rule.now }
    ensures lent { SameLoans bench.old bench.new }
{
    send_home::<O, H>(bench.lines, bench.directory, bench.home, bench.ways, i);
}

// Line i goes home, and that is counted as a yield.
pub fn yield_line<O: Operation, H: Home<O>, R: Victim>(bench: &mut Bench<'_, O, H, R>, i: usize)
    requires sendable { Sendable bench.old i }
    requires counts { bench.old.ledger.now.yields < 2 ^ 63 + 128 }
    ensures state { seen H.Home.meaning bench.new ≡ send (terms O.Operation.algebra R.Victim.rule H.Home.meaning bench.old) (seen H.Home.meaning bench.old) i (yield_more bench.old.ledger.now) bench.old.rule.now }
    ensures lent { SameLoans bench.old bench.new }
{
    send_line(bench, i);
    bench.ledger.yields += 1;
}
