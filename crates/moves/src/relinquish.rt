// A party gives up its line of a cell.
ghost use Rattle.std.specs.Prelude.{◌≡◌, length, None, nat_le, nat_lt};
ghost use Rattle.tables.specs.declared.refusal.Refusal.TheVariants.{LedgerClosed, HomeTooSmall, CountTooHigh, NoSuchParty, NoSuchCell};
ghost use Rattle.tables.specs.Ledgers.{is_open, counts_low};
ghost use Rattle.model.specs.declared.call.Call.TheVariants.{Yield};
ghost use Rattle.model.specs.Steps.{need};
ghost use Rattle.bench.specs.Lent.{InOrder, SameLoans, seen, stepped};
ghost use Rattle.answers.specs.Answers.{yielded};
ghost use Rattle.moves.specs.Checks.{passes};

use super::checks::{check, in_play};
use actions::yield_line;
use bench::Bench;
use memory::Home;
use operation::Operation;
use tables::Refusal;
use victim::Victim;

// The checks of a yield on legal tables.
fn yield_checks<O: Operation, H: Home<O>, R>(
    bench: &Bench<'_, O, H, R>,
    party: usize,
    cell: usize,
) -> Result<(), Refusal>
    ensures { result ≡ passes (need (is_open bench.now.ledger.now) LedgerClosed (need (nat_le (length bench.now.directory.now) (length (H.Home.meaning bench.now.home.now))) HomeTooSmall (need (counts_low bench.now.ledger.now) CountTooHigh (need (nat_lt party (length bench.now.registers.now)) NoSuchParty (need (nat_lt cell (length bench.now.directory.now)) NoSuchCell None))))) }
{
    in_play(bench)?;
    check(party < bench.registers.len(), Refusal::NoSuchParty)?;
    check(cell < bench.directory.len(), Refusal::NoSuchCell)
}

// Sends the party's line of the cell home.
pub fn relinquish<O: Operation, H: Home<O>, R: Victim>(
    bench: &mut Bench<'_, O, H, R>,
    party: usize,
    cell: usize,
) -> Result<(), Refusal>
    requires { InOrder bench.old }
    ensures answer { yielded result ≡ (stepped O.Operation.algebra R.Victim.rule H.Home.meaning bench.old (Yield party cell)).1 }
    ensures state { seen H.Home.meaning bench.new ≡ (stepped O.Operation.algebra R.Victim.rule H.Home.meaning bench.old (Yield party cell)).0 }
    ensures in_order { InOrder bench.new }
    ensures lent { SameLoans bench.old bench.new }
{
    yield_checks(bench, party, cell)?;
    match bench.own_line(party, cell) {
        Some(i) => {
            yield_line(bench, i);
            Ok(())
        }
        None => Err(Refusal::NoLine),
    }
}
