// Calls for hosts that have no bench at hand, since they can lend some of it only to be read: the same steps, over lent
// tables. (An advance and a yield change the home: they are made of a bench alone.)
ghost use Rattle.std.specs.Prelude.{◌≡◌, true, false, is_ok};
ghost use Rattle.tables.specs.Legal.{Legal};
ghost use Rattle.model.specs.Bench.{state};
ghost use Rattle.model.specs.declared.call.Call.TheVariants.{Post, Collect, Settle};
ghost use Rattle.answers.specs.Answers.{posted, collected};
ghost use Rattle.protocol.specs.Calls.{Takes};
ghost use Rattle.settlement.specs.Answers.{settled};

use answers::Posted;
use audit::audit;
use memory::Home;
use moves::{collect_legal_over, post_legal_over};
use operation::Operation;
use settlement::{Ticket, Unsettled, settle_legal_over};
use tables::{Entry, Ledger, Line, Refusal, Register, Request};
use victim::Victim;

// Asks for a cell: the request is finished at once where a line of the party allows it (Hit), or else waits in the
// party's register (Queued). The home need be lent only to be read.
pub fn post_over<O: Operation, H: Home<O>, R: Victim>(
    lines: &mut [Line<O::Value, O::Partial>],
    directory: &mut [Entry],
    registers: &mut [Register<O::Value, O::Partial>],
    ledger: &mut Ledger,
    rule: &mut R,
    home: &H,
    ways: usize,
    party: usize,
    request: Request<O::Value, O::Partial>,
) -> Result<Posted, Refusal>
    ensures step { Takes O.Operation.algebra R.Victim.rule ways (Post party request) (state lines.old directory.old registers.old ledger.old rule.old (H.Home.meaning home.now)) (state lines.new directory.new registers.new ledger.new rule.new (H.Home.meaning home.now)) (posted result) }
    ensures refused { is_ok result ≡ false → state lines.new directory.new registers.new ledger.new rule.new (H.Home.meaning home.now) ≡ state lines.old directory.old registers.old ledger.old rule.old (H.Home.meaning home.now) }
    ensures legal { is_ok result ≡ true → Legal ways lines.new directory.new registers.new }
{
    audit(lines, directory, registers, ways)?;
    post_legal_over::<O, H, R>(
        lines, directory, registers, ledger, rule, home, ways, party, request,
    )
}

// Hands out the answer in a party's register, a read's value or none for other requests, and empties the register.
// The home need be lent only to be read.
pub fn collect_over<O: Operation, H: Home<O>, R: Victim>(
    lines: &mut [Line<O::Value, O::Partial>],
    directory: &mut [Entry],
    registers: &mut [Register<O::Value, O::Partial>],
    ledger: &mut Ledger,
    rule: &mut R,
    home: &H,
    ways: usize,
    party: usize,
) -> Result<Option<O::Value>, Refusal>
    ensures step { Takes O.Operation.algebra R.Victim.rule ways (Collect party) (state lines.old directory.old registers.old ledger.old rule.old (H.Home.meaning home.now)) (state lines.new directory.new registers.new ledger.new rule.new (H.Home.meaning home.now)) (collected result) }
    ensures refused { is_ok result ≡ false → state lines.new directory.new registers.new ledger.new rule.new (H.Home.meaning home.now) ≡ state lines.old directory.old registers.old ledger.old rule.old (H.Home.meaning home.now) }
    ensures legal { is_ok result ≡ true → Legal ways lines.new directory.new registers.new }
{
    audit(lines, directory, registers, ways)?;
    collect_legal_over::<O, H, R>(lines, directory, registers, ledger, rule, home, ways, party)
}

// Sends every line home, by party and then way, and closes the ledger, if no request is under way. The ticket is
// spent; a refused settle hands it back. The registers and the rule need be lent only to be read.
pub fn settle_over<O: Operation, H: Home<O>, R: Victim>(
    ticket: Ticket,
    lines: &mut [Line<O::Value, O::Partial>],
    directory: &mut [Entry],
    registers: &[Register<O::Value, O::Partial>],
    ledger: &mut Ledger,
    rule: &R,
    home: &mut H,
    ways: usize,
) -> Result<(), Unsettled>
    ensures step { Takes O.Operation.algebra R.Victim.rule ways Settle (state lines.old directory.old registers.now ledger.old rule.now (H.Home.meaning home.old)) (state lines.new directory.new registers.now ledger.new rule.now (H.Home.meaning home.new)) (settled result) }
    ensures refused { is_ok result ≡ false → state lines.new directory.new registers.now ledger.new rule.now (H.Home.meaning home.new) ≡ state lines.old directory.old registers.now ledger.old rule.now (H.Home.meaning home.old) }
    ensures legal { is_ok result ≡ true → Legal ways lines.new directory.new registers.now }
{
    match audit(lines, directory, registers, ways) {
        Ok(()) => settle_legal_over::<O, H, R>(
            ticket, lines, directory, registers, ledger, rule, home, ways,
        ),
        // No `?`: the ticket goes back with the refusal.
        Err(refusal) => Err(Unsettled { refusal, ticket }),
    }
}
