// The calls that hosts make: the audit, and then the call on tables that are known to be legal.
// A refused call leaves the tables, the ledger, the rule and what the home means as they were handed over.
ghost use Rattle.std.specs.Prelude.{◌≡◌, true, false, is_ok};
ghost use Rattle.audit.specs.Audit.{audited};
ghost use Rattle.model.specs.declared.call.Call.TheVariants.{Post, Advance, Collect, Yield, Settle};
ghost use Rattle.bench.specs.Lent.{InOrder, SameLoans, seen};
ghost use Rattle.answers.specs.Answers.{posted, advanced, collected, yielded};
ghost use Rattle.settlement.specs.Answers.{settled};
ghost use Rattle.protocol.specs.Calls.{Takes};

use advancing::advance_legal;
use answers::{Advanced, Posted};
use audit::audit;
use bench::Bench;
use memory::Home;
use moves::{collect_legal, post_legal, relinquish_legal};
use operation::Operation;
use settlement::{Ticket, Unsettled, settle_legal};
use tables::{Refusal, Request};
use victim::Victim;

// The audit of a bench's tables.
fn audited<O: Operation, H, R>(bench: &Bench<'_, O, H, R>) -> Result<(), Refusal>
    ensures value { result ≡ audited bench.now.ways bench.now.lines.now bench.now.directory.now bench.now.registers.now }
    ensures in_order { is_ok result ≡ true → InOrder bench.now }
{
    audit(bench.lines, bench.directory, bench.registers, bench.ways)
}

// Asks for a cell: the request is finished at once where a line of the party allows it (Hit), or else waits in the
// party's register (Queued). The home is not touched.
pub fn post<O: Operation, H: Home<O>, R: Victim>(
    bench: &mut Bench<'_, O, H, R>,
    party: usize,
    request: Request<O::Value, O::Partial>,
) -> Result<Posted, Refusal>
    ensures step { Takes O.Operation.algebra R.Victim.rule bench.old.ways (Post party request) (seen H.Home.meaning bench.old) (seen H.Home.meaning bench.new) (posted result) }
    ensures refused { is_ok result ≡ false → seen H.Home.meaning bench.new ≡ seen H.Home.meaning bench.old }
    ensures in_order { is_ok result ≡ true → InOrder bench.new }
    ensures home { bench.new.home.now ≡ bench.old.home.now }
    ensures lent { SameLoans bench.old bench.new }
{
    audited(bench)?;
    post_legal(bench, party, request)
}

// Serves the party that has the cell's turn, or else the next one that waits for it, by one action.
pub fn advance<O: Operation, H: Home<O>, R: Victim>(
    bench: &mut Bench<'_, O, H, R>,
    cell: usize,
) -> Result<Advanced, Refusal>
    ensures step { Takes O.Operation.algebra R.Victim.rule bench.old.ways (Advance cell) (seen H.Home.meaning bench.old) (seen H.Home.meaning bench.new) (advanced result) }
    ensures refused { is_ok result ≡ false → seen H.Home.meaning bench.new ≡ seen H.Home.meaning bench.old }
    ensures in_order { is_ok result ≡ true → InOrder bench.new }
    ensures lent { SameLoans bench.old bench.new }
{
    audited(bench)?;
    advance_legal(bench, cell)
}

// Hands out the answer in a party's register, a read's value or none for other requests, and empties the register.
// The home is not touched.
pub fn collect<O: Operation, H: Home<O>, R: Victim>(
    bench: &mut Bench<'_, O, H, R>,
    party: usize,
) -> Result<Option<O::Value>, Refusal>
    ensures step { Takes O.Operation.algebra R.Victim.rule bench.old.ways (Collect party) (seen H.Home.meaning bench.old) (seen H.Home.meaning bench.new) (collected result) }
    ensures refused { is_ok result ≡ false → seen H.Home.meaning bench.new ≡ seen H.Home.meaning bench.old }
    ensures in_order { is_ok result ≡ true → InOrder bench.new }
    ensures home { bench.new.home.now ≡ bench.old.home.now }
    ensures lent { SameLoans bench.old bench.new }
{
    audited(bench)?;
    collect_legal(bench, party)
}

// Sends the party's line of the cell home. (The rules call this a yield, which Rust keeps for itself.)
pub fn relinquish<O: Operation, H: Home<O>, R: Victim>(
    bench: &mut Bench<'_, O, H, R>,
    party: usize,
    cell: usize,
) -> Result<(), Refusal>
    ensures step { Takes O.Operation.algebra R.Victim.rule bench.old.ways (Yield party cell) (seen H.Home.meaning bench.old) (seen H.Home.meaning bench.new) (yielded result) }
    ensures refused { is_ok result ≡ false → seen H.Home.meaning bench.new ≡ seen H.Home.meaning bench.old }
    ensures in_order { is_ok result ≡ true → InOrder bench.new }
    ensures lent { SameLoans bench.old bench.new }
{
    audited(bench)?;
    relinquish_legal(bench, party, cell)
}

// Sends every line home, by party and then way, and closes the ledger, if no request is under way. The ticket is
// spent; a refused settle hands it back.
pub fn settle<O: Operation, H: Home<O>, R: Victim>(
    ticket: Ticket,
    bench: &mut Bench<'_, O, H, R>,
) -> Result<(), Unsettled>
    ensures step { Takes O.Operation.algebra R.Victim.rule bench.old.ways Settle (seen H.Home.meaning bench.old) (seen H.Home.meaning bench.new) (settled result) }
    ensures refused { is_ok result ≡ false → seen H.Home.meaning bench.new ≡ seen H.Home.meaning bench.old }
    ensures in_order { is_ok result ≡ true → InOrder bench.new }
    ensures lent { SameLoans bench.old bench.new }
{
    match audited(bench) {
        Ok(()) => settle_legal(ticket, bench),
        // No `?`: the ticket goes back with the refusal.
        Err(refusal) => Err(Unsettled { refusal, ticket }),
    }
}
