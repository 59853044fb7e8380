// An advance of a cell.
ghost use Rattle.std.specs.Prelude.{◌≡◌, ◌<◌, true, length, None, nat_le, nat_lt};
ghost use Rattle.tables.specs.declared.refusal.Refusal.TheVariants.{LedgerClosed, HomeTooSmall, CountTooHigh, NoSuchCell};
ghost use Rattle.tables.specs.Ledgers.{is_open, counts_low};
ghost use Rattle.model.specs.declared.call.Call.TheVariants.{Advance};
ghost use Rattle.model.specs.Steps.{need};
ghost use Rattle.model.specs.Decisions.{decided, performed};
ghost use Rattle.bench.specs.Lent.{InOrder, SameLoans, seen, stepped, terms};
ghost use Rattle.answers.specs.Answers.{advanced};
ghost use Rattle.moves.specs.Checks.{passes};

use actions::{evict, grant, recall};
use answers::Advanced;
use bench::Bench;
use decisions::decide;
use memory::Home;
use model::Next;
use moves::{check, in_play};
use operation::Operation;
use tables::Refusal;
use victim::Victim;

// Does the action that was decided for the cell.
fn perform<O: Operation, H: Home<O>, R: Victim>(
    bench: &mut Bench<'_, O, H, R>,
    cell: usize,
    next: Next<O::Value, O::Partial>,
) -> Result<Advanced, Refusal>
    requires in_order { InOrder bench.old }
    requires within { cell < length bench.old.directory.now }
    requires counts { counts_low bench.old.ledger.now ≡ true }
    requires decided { next ≡ decided (length bench.old.registers.now) bench.old.ways bench.old.lines.now bench.old.directory.now bench.old.registers.now cell }
    ensures answer { advanced result ≡ (performed (terms O.Operation.algebra R.Victim.rule H.Home.meaning bench.old) (seen H.Home.meaning bench.old) cell next).1 }
    ensures state { seen H.Home.meaning bench.new ≡ (performed (terms O.Operation.algebra R.Victim.rule H.Home.meaning bench.old) (seen H.Home.meaning bench.old) cell next).0 }
    ensures lent { SameLoans bench.old bench.new }
{
    match next {
        Next::Idle => Ok(Advanced::Idle),
        Next::Recall { served, line } => Ok(recall(bench, cell, served, line)),
        Next::Evict { served } => Ok(evict(bench, cell, served)),
        Next::Grant {
            served,
            request,
            line,
        } => grant(bench, cell, served, request, line),
    }
}

// The checks of an advance on legal tables.
fn advance_checks<O: Operation, H: Home<O>, R>(
    bench: &Bench<'_, O, H, R>,
    cell: usize,
) -> Result<(), Refusal>
    ensures { result ≡ passes (need (is_open bench.now.ledger.now) LedgerClosed (need (nat_le (length bench.now.directory.now) (length (H.Home.meaning bench.now.home.now))) HomeTooSmall (need (counts_low bench.now.ledger.now) CountTooHigh (need (nat_lt cell (length bench.now.directory.now)) NoSuchCell None)))) }
{
    in_play(bench)?;
    check(cell < bench.directory.len(), Refusal::NoSuchCell)
}

// What the advance does next. (Asked of a bench that is lent to be read: the check does not cover the tables of one that is
// lent to be changed being lent on as slices to read.)
fn next_action<O: Operation, H, R>(
    bench: &Bench<'_, O, H, R>,
    cell: usize,
) -> Next<O::Value, O::Partial>
    requires in_order { InOrder bench.now }
    requires within { cell < length bench.now.directory.now }
    ensures { result ≡ decided (length bench.now.registers.now) bench.now.ways bench.now.lines.now bench.now.directory.now bench.now.registers.now cell }
{
    decide::<O>(
        bench.lines,
        bench.directory,
        bench.registers,
        bench.ways,
        cell,
    )
}

// Serves the party that has the cell's turn, or else the next that waits, by one action.
pub fn advance<O: Operation, H: Home<O>, R: Victim>(
    bench: &mut Bench<'_, O, H, R>,
    cell: usize,
) -> Result<Advanced, Refusal>
    requires { InOrder bench.old }
    ensures answer { advanced result ≡ (stepped O.Operation.algebra R.Victim.rule H.Home.meaning bench.old (Advance cell)).1 }
    ensures state { seen H.Home.meaning bench.new ≡ (stepped O.Operation.algebra R.Victim.rule H.Home.meaning bench.old (Advance cell)).0 }
    ensures in_order { InOrder bench.new }
    ensures lent { SameLoans bench.old bench.new }
{
    advance_checks(bench, cell)?;
    let next = next_action(bench, cell);
    perform(bench, cell, next)
}
