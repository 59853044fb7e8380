// A collect of an answer.
ghost use Rattle.std.specs.Prelude.{◌≡◌, true, None, nat_lt};
ghost use Rattle.tables.specs.declared.refusal.Refusal.TheVariants.{LedgerClosed, NoSuchParty};
ghost use Rattle.tables.specs.Ledgers.{is_open};
ghost use Rattle.tables.specs.Legal.{Legal, fits};
ghost use Rattle.model.specs.declared.call.Call.TheVariants.{Collect};
ghost use Rattle.model.specs.Bench.{bench, state};
ghost use Rattle.model.specs.Steps.{need, step};
ghost use Rattle.bench.specs.Lent.{InOrder, SameLoans, seen, stepped};
ghost use Rattle.answers.specs.Answers.{collected};
ghost use Rattle.moves.specs.Checks.{passes};

use super::checks::check;
use bench::{Bench, register_at, set_register};
use memory::Home;
use operation::Operation;
use tables::{Entry, Ledger, Line, Refusal, Register};
use victim::Victim;

// The checks of a collect on legal tables.
fn collect_checks(ledger: &Ledger, parties: usize, party: usize) -> Result<(), Refusal>
    ensures { result ≡ passes (need (is_open ledger.now) LedgerClosed (need (nat_lt party parties) NoSuchParty None)) }
{
    check(ledger.is_open(), Refusal::LedgerClosed)?;
    check(party < parties, Refusal::NoSuchParty)
}

// Hands out the answer in a party's register and empties it. (Over the tables, with the home lent to be read: a collect
// changes nothing in it, so a host that has its home only to read may collect too, and a bench holds its home to be
// changed. What it leaves can be lent to the next call as it is.)
pub fn collect_over<O: Operation, H: Home<O>, R: Victim>(
    lines: &mut [Line<O::Value, O::Partial>],
    directory: &mut [Entry],
    registers: &mut [Register<O::Value, O::Partial>],
    ledger: &mut Ledger,
    rule: &mut R,
    home: &H,
    ways: usize,
    party: usize,
) -> Result<Option<O::Value>, Refusal>
    requires sizes { fits ways lines.old directory.old registers.old ≡ true }
    requires legal { Legal ways lines.old directory.old registers.old }
    ensures answer { collected result ≡ (step (bench O.Operation.algebra R.Victim.rule ways (state lines.old directory.old registers.old ledger.old rule.old (H.Home.meaning home.now))) (state lines.old directory.old registers.old ledger.old rule.old (H.Home.meaning home.now)) (Collect party)).1 }
    ensures state { state lines.new directory.new registers.new ledger.new rule.new (H.Home.meaning home.now) ≡ (step (bench O.Operation.algebra R.Victim.rule ways (state lines.old directory.old registers.old ledger.old rule.old (H.Home.meaning home.now))) (state lines.old directory.old registers.old ledger.old rule.old (H.Home.meaning home.now)) (Collect party)).0 }
    ensures legal { Legal ways lines.new directory.new registers.new }
    ensures sizes { fits ways lines.new directory.new registers.new ≡ true }
{
    collect_checks(ledger, registers.len(), party)?;
    match register_at(registers, party) {
        Register::Empty => Err(Refusal::RegisterEmpty),
        Register::Waiting(_) => Err(Refusal::RegisterWaiting),
        Register::Answered(answer) => {
            set_register(registers, party, Register::Empty);
            Ok(answer)
        }
    }
}

// The same of a bench.
pub fn collect<O: Operation, H: Home<O>, R: Victim>(
    bench: &mut Bench<'_, O, H, R>,
    party: usize,
) -> Result<Option<O::Value>, Refusal>
    requires { InOrder bench.old }
    ensures answer { collected result ≡ (stepped O.Operation.algebra R.Victim.rule H.Home.meaning bench.old (Collect party)).1 }
    ensures state { seen H.Home.meaning bench.new ≡ (stepped O.Operation.algebra R.Victim.rule H.Home.meaning bench.old (Collect party)).0 }
    ensures home { bench.new.home.now ≡ bench.old.home.now }
    ensures in_order { InOrder bench.new }
    ensures lent { SameLoans bench.old bench.new }
{
    collect_over::<O, H, R>(
        bench.lines,
        bench.directory,
        bench.registers,
        bench.ledger,
        bench.rule,
        bench.home,
        bench.ways,
        party,
    )
}
