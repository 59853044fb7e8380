// The end of a bench that is not settled.
ghost use Rattle.std.specs.Prelude.{◌≡◌};
ghost use Rattle.model.specs.Steps.{close, shut};
ghost use Rattle.bench.specs.Lent.{SameLoans, seen, terms};
ghost use Rattle.settlement.specs.Left.{owed};

use super::ticket::Ticket;
use bench::Bench;
use memory::Home;
use operation::Operation;
use tables::{Ledger, Line, Status};
use victim::Victim;

// How many lines hold what the home does not have: the Update-only and the Modified ones.
fn unsettled<V: Copy, P: Copy>(lines: &[Line<V, P>]) -> usize
    ensures { result ≡ owed lines.now }
{
    // A loop over the lines that counts: a form that was asked for (docs/DECISIONS.md, "Forms").
    let mut count = 0;
    for line in lines {
        match line {
            Line::Invalid | Line::Shared { .. } => {}
            Line::UpdateOnly { .. } | Line::Modified { .. } => count += 1,
        }
    }
    count
}

// How many lines of the bench hold such. (A function, since the slice in a bench that is lent to be changed cannot be
// lent on to be read.)
fn left<O: Operation, H, R>(bench: &Bench<'_, O, H, R>) -> usize
    ensures { result ≡ owed bench.now.lines.now }
{
    unsettled(bench.lines)
}

// No further call is taken.
fn close(ledger: &mut Ledger)
    ensures { ledger.new ≡ shut ledger.old }
{
    ledger.status = Status::Closed;
}

// Gives up the ticket without a settlement and closes the ledger. The answer is the number of lines that were
// left with something to send home. The lines may be of any number and in any state: nothing is refused.
pub fn abandon<V: Copy, P: Copy>(ticket: Ticket, lines: &[Line<V, P>], ledger: &mut Ledger) -> usize
    ensures left { result ≡ owed lines.now }
    ensures ledger { ledger.new ≡ shut ledger.old }
{
    ticket.spend();
    close(ledger);
    unsettled(lines)
}

// The same of a bench, for a host that still has it.
pub fn abandon_bench<O: Operation, H: Home<O>, R: Victim>(
    ticket: Ticket,
    bench: &mut Bench<'_, O, H, R>,
) -> usize
    ensures left { result ≡ owed bench.old.lines.now }
    ensures state { seen H.Home.meaning bench.new ≡ close (terms O.Operation.algebra R.Victim.rule H.Home.meaning bench.old) (seen H.Home.meaning bench.old) }
    ensures home { bench.new.home.now ≡ bench.old.home.now }
    ensures lent { SameLoans bench.old bench.new }
{
    ticket.spend();
    close(bench.ledger);
    left(bench)
}
