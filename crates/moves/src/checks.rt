// Checks, in the order in which a call makes them: that of the refusals' numbers.
ghost use Rattle.std.specs.Prelude.{◌≡◌, if◌then◌else◌, length, Ok, Err, None, nat_le};
ghost use Rattle.tables.specs.declared.refusal.Refusal.TheVariants.{LedgerClosed, HomeTooSmall, CountTooHigh};
ghost use Rattle.tables.specs.Ledgers.{is_open, counts_low};
ghost use Rattle.model.specs.Steps.{need};
ghost use Rattle.moves.specs.Checks.{passes};

use bench::Bench;
use memory::Home;
use operation::Operation;
use tables::{Entry, Ledger, Refusal};

// A check that fails refuses the call.
pub fn check(passed: bool, refusal: Refusal) -> Result<(), Refusal>
    ensures { result ≡ (if passed then Ok tt else Err refusal) }
{
    if passed { Ok(()) } else { Err(refusal) }
}

// What every call that may reach the home checks of what it is lent: the ledger is open, the home has the bench's
// cells, and no count can wrap.
pub fn in_play_over<O: Operation, H: Home<O>>(
    directory: &[Entry],
    ledger: &Ledger,
    home: &H,
) -> Result<(), Refusal>
    ensures { result ≡ passes (need (is_open ledger.now) LedgerClosed (need (nat_le (length directory.now) (length (H.Home.meaning home.now))) HomeTooSmall (need (counts_low ledger.now) CountTooHigh None))) }
{
    check(ledger.is_open(), Refusal::LedgerClosed)?;
    check(directory.len() <= home.cells(), Refusal::HomeTooSmall)?;
    check(ledger.counts_low(), Refusal::CountTooHigh)
}

// The same of a bench.
pub fn in_play<O: Operation, H: Home<O>, R>(bench: &Bench<'_, O, H, R>) -> Result<(), Refusal>
    ensures { result ≡ passes (need (is_open bench.now.ledger.now) LedgerClosed (need (nat_le (length bench.now.directory.now) (length (H.Home.meaning bench.now.home.now))) HomeTooSmall (need (counts_low bench.now.ledger.now) CountTooHigh None))) }
{
    in_play_over::<O, H>(bench.directory, bench.ledger, bench.home)
}
