// The end of a bench, however it comes.
ghost use Rattle.std.specs.Prelude.{◌≡◌};
ghost use Rattle.model.specs.declared.call.Call.TheVariants.{Settle};
ghost use Rattle.model.specs.Bench.{bench, state};
ghost use Rattle.model.specs.Steps.{close, settle_refusal, shut, step};
ghost use Rattle.settlement.specs.Left.{owed};
ghost use Rattle.host.specs.declared.ending.Ending.TheVariants.{Abandoned};
ghost use Rattle.bench.specs.Lent.{SameLoans, seen, stepped, terms};
ghost use Rattle.host.specs.Endings.{ending};

use memory::Home;
use operation::Operation;
use protocol::{Bench, Ticket, Unsettled, abandon, abandon_bench, settle, settle_over};
use tables::{Entry, Ledger, Line, Refusal, Register};
use victim::Victim;

// A bench is settled, or abandoned since its settle was refused, with so many lines left that had something to send
// home. No `Result`: either is an end, and a host that never had its bench made answers an error of its own.
#[derive(Clone, Copy, PartialEq, Eq, Debug)]
pub enum Ending {
    Settled,
    Abandoned { refusal: Refusal, left: usize },
}

// Settles the bench, or abandons it where that is refused: in the end the ticket is spent and the ledger closed.
pub fn end<O: Operation, H: Home<O>, R: Victim>(
    ticket: Ticket,
    bench: &mut Bench<'_, O, H, R>,
) -> Ending
    ensures answer { result ≡ ending (settle_refusal (terms O.Operation.algebra R.Victim.rule H.Home.meaning bench.old) (seen H.Home.meaning bench.old)) (seen H.Home.meaning bench.old) }
    ensures state { seen H.Home.meaning bench.new ≡ close (terms O.Operation.algebra R.Victim.rule H.Home.meaning bench.old) (stepped O.Operation.algebra R.Victim.rule H.Home.meaning bench.old Settle).0 }
    ensures lent { SameLoans bench.old bench.new }
{
    match settle(ticket, bench) {
        Ok(()) => Ending::Settled,
        Err(unsettled) => {
            let Unsettled { refusal, ticket } = unsettled;
            let left = abandon_bench(ticket, bench);
            Ending::Abandoned { refusal, left }
        }
    }
}

// Abandons a bench whose settle was refused.
fn give_up<V: Copy, P: Copy>(
    unsettled: Unsettled,
    lines: &[Line<V, P>],
    ledger: &mut Ledger,
) -> Ending
    ensures answer { result ≡ Abandoned unsettled.refusal (owed lines.now) }
    ensures ledger { ledger.new ≡ shut ledger.old }
{
    let Unsettled { refusal, ticket } = unsettled;
    let left = abandon(ticket, lines, ledger);
    Ending::Abandoned { refusal, left }
}

// Settles a bench over lent tables, or abandons it where that is refused: in the end the ticket is spent and the ledger
// closed. The registers and the rule need be lent only to be read.
pub fn end_over<O: Operation, H: Home<O>, R: Victim>(
    ticket: Ticket,
    lines: &mut [Line<O::Value, O::Partial>],
    directory: &mut [Entry],
    registers: &[Register<O::Value, O::Partial>],
    ledger: &mut Ledger,
    rule: &R,
    home: &mut H,
    ways: usize,
) -> Ending
    ensures answer { result ≡ ending (settle_refusal (bench O.Operation.algebra R.Victim.rule ways (state lines.old directory.old registers.now ledger.old rule.now (H.Home.meaning home.old))) (state lines.old directory.old registers.now ledger.old rule.now (H.Home.meaning home.old))) (state lines.old directory.old registers.now ledger.old rule.now (H.Home.meaning home.old)) }
    ensures state { state lines.new directory.new registers.now ledger.new rule.now (H.Home.meaning home.new) ≡ close (bench O.Operation.algebra R.Victim.rule ways (state lines.old directory.old registers.now ledger.old rule.now (H.Home.meaning home.old))) (step (bench O.Operation.algebra R.Victim.rule ways (state lines.old directory.old registers.now ledger.old rule.now (H.Home.meaning home.old))) (state lines.old directory.old registers.now ledger.old rule.now (H.Home.meaning home.old)) Settle).0 }
{
    match settle_over::<O, H, R>(
        ticket, lines, directory, registers, ledger, rule, home, ways,
    ) {
        Ok(()) => Ending::Settled,
        Err(unsettled) => give_up(unsettled, lines, ledger),
    }
}
