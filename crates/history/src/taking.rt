// One call of a run. The tables of a run stay legal, so they are not audited again.
ghost use Rattle.std.specs.Prelude.{◌≡◌};
ghost use Rattle.tables.specs.Ledgers.{is_open};
ghost use Rattle.model.specs.declared.call.Call.TheVariants.{Settle};
ghost use Rattle.bench.specs.Lent.{InOrder, SameLoans, seen, stepped};
ghost use Rattle.history.specs.Runs.{held};

use advancing::advance_legal;
use answers::{of_advance, of_collect, of_post, of_yield};
use bench::Bench;
use memory::Home;
use model::{Answer, Call};
use moves::{collect_legal, post_legal, relinquish_legal};
use operation::Operation;
use settlement::{Ticket, Unsettled, settle_legal};
use tables::Refusal;
use victim::Victim;

// A settle of a run: without a ticket the bench is settled already, so the ledger is closed.
fn settle<O: Operation, H: Home<O>, R: Victim>(
    bench: &mut Bench<'_, O, H, R>,
    ticket: Option<Ticket>,
) -> (Option<Ticket>, Answer<O::Value>)
    requires in_order { InOrder bench.old }
    requires held { held ticket ≡ is_open bench.old.ledger.now }
    ensures answer { result.1 ≡ (stepped O.Operation.algebra R.Victim.rule H.Home.meaning bench.old Settle).1 }
    ensures state { seen H.Home.meaning bench.new ≡ (stepped O.Operation.algebra R.Victim.rule H.Home.meaning bench.old Settle).0 }
    ensures held { held result.0 ≡ is_open bench.new.ledger.now }
    ensures in_order { InOrder bench.new }
    ensures lent { SameLoans bench.old bench.new }
{
    let Some(ticket) = ticket else {
        return (None, Answer::Refused(Refusal::LedgerClosed));
    };
    match settle_legal(ticket, bench) {
        Ok(()) => (None, Answer::Settled),
        // Both are answers here, and the ticket is kept for the calls to come.
        Err(Unsettled { refusal, ticket }) => (Some(ticket), Answer::Refused(refusal)),
    }
}

// One call on what the calls before it left.
pub(crate) fn take<O: Operation, H: Home<O>, R: Victim>(
    bench: &mut Bench<'_, O, H, R>,
    ticket: Option<Ticket>,
    call: Call<O::Value, O::Partial>,
) -> (Option<Ticket>, Answer<O::Value>)
    requires in_order { InOrder bench.old }
    requires held { held ticket ≡ is_open bench.old.ledger.now }
    ensures answer { result.1 ≡ (stepped O.Operation.algebra R.Victim.rule H.Home.meaning bench.old call).1 }
    ensures state { seen H.Home.meaning bench.new ≡ (stepped O.Operation.algebra R.Victim.rule H.Home.meaning bench.old call).0 }
    ensures held { held result.0 ≡ is_open bench.new.ledger.now }
    ensures in_order { InOrder bench.new }
    ensures lent { SameLoans bench.old bench.new }
{
    match call {
        Call::Post { party, request } => (ticket, of_post(post_legal(bench, party, request))),
        Call::Advance { cell } => (ticket, of_advance(advance_legal(bench, cell))),
        Call::Collect { party } => (ticket, of_collect(collect_legal(bench, party))),
        Call::Yield { party, cell } => (ticket, of_yield(relinquish_legal(bench, party, cell))),
        Call::Settle => settle(bench, ticket),
    }
}
