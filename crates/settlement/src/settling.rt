// The settlement of a bench on tables that are known to be legal: every line goes home, and the ledger is closed.
ghost use Rattle.std.specs.Prelude.{◌≡◌, ◌+◌, ◌*◌, ◌/◌, ◌^◌, ◌<◌, ◌≤◌, true, length, None, nat_le, slice_index_or};
ghost use Rattle.tables.specs.declared.line.Line.TheVariants.{Invalid};
ghost use Rattle.tables.specs.declared.refusal.Refusal.TheVariants.{LedgerClosed, HomeTooSmall, CountTooHigh, Unfinished};
ghost use Rattle.tables.specs.Ledgers.{is_open, counts_low};
ghost use Rattle.tables.specs.Lines.{is_held, cell_of};
ghost use Rattle.tables.specs.Legal.{Legal, fits};
ghost use Rattle.model.specs.declared.call.Call.TheVariants.{Settle};
ghost use Rattle.model.specs.Bench.{bench, state, all_empty};
ghost use Rattle.model.specs.Steps.{need, step, emptied, all_sent};
ghost use Rattle.settlement.specs.Answers.{settled};
ghost use Rattle.settlement.specs.Tried.{tried};
ghost use Rattle.moves.specs.Checks.{passes};
ghost use Rattle.bench.specs.Lent.{InOrder, SameLoans, seen, stepped};

use super::ticket::{Ticket, Unsettled};
use actions::send_home;
use bench::{Bench, line_at};
use memory::Home;
use moves::{check, in_play_over};
use operation::Operation;
use tables::{Entry, Ledger, Line, Refusal, Register, Status};
use victim::Victim;

// Whether no party has a request under way or an answer to collect.
fn all_empty<V: Copy, P: Copy>(registers: &[Register<V, P>]) -> bool
    ensures { result ≡ all_empty registers.now }
{
    registers.iter().all(|register| register.is_empty())
}

// The checks of a settle on legal tables.
fn settle_checks<O: Operation, H: Home<O>>(
    directory: &[Entry],
    registers: &[Register<O::Value, O::Partial>],
    ledger: &Ledger,
    home: &H,
) -> Result<(), Refusal>
    ensures { result ≡ passes (need (is_open ledger.now) LedgerClosed (need (nat_le (length directory.now) (length (H.Home.meaning home.now))) HomeTooSmall (need (counts_low ledger.now) CountTooHigh (need (all_empty registers.now) Unfinished None)))) }
{
    in_play_over::<O, H>(directory, ledger, home)?;
    check(all_empty(registers), Refusal::Unfinished)
}

// Line i goes home, if it holds anything, and is counted as a yield.
fn send_one<O: Operation, H: Home<O>, R: Victim>(
    lines: &mut [Line<O::Value, O::Partial>],
    directory: &mut [Entry],
    registers: &[Register<O::Value, O::Partial>],
    ledger: &mut Ledger,
    rule: &R,
    home: &mut H,
    ways: usize,
    i: usize,
)
    requires place { (i < length lines.old) × ((1 ≤ ways) × (i / ways < 16)) }
    requires listed { is_held (slice_index_or lines.old i Invalid) ≡ true → cell_of (slice_index_or lines.old i Invalid) < length directory.old }
    requires counts { ledger.old.yields < 2 ^ 63 + 128 }
    ensures { state lines.new directory.new registers.now ledger.new rule.now (H.Home.meaning home.new) ≡ emptied (bench O.Operation.algebra R.Victim.rule ways (state lines.old directory.old registers.now ledger.old rule.now (H.Home.meaning home.old))) (is_held (slice_index_or lines.old i Invalid)) (state lines.old directory.old registers.now ledger.old rule.now (H.Home.meaning home.old)) i }
{
    if line_at(lines, i).is_held() {
        send_home::<O, H>(lines, directory, home, ways, i);
        ledger.yields += 1;
    }
}

// All lines go home, by party and then way.
fn send_all<O: Operation, H: Home<O>, R: Victim>(
    lines: &mut [Line<O::Value, O::Partial>],
    directory: &mut [Entry],
    registers: &[Register<O::Value, O::Partial>],
    ledger: &mut Ledger,
    rule: &R,
    home: &mut H,
    ways: usize,
)
    requires sizes { fits ways lines.old directory.old registers.now ≡ true }
    requires legal { Legal ways lines.old directory.old registers.now }
    requires counts { counts_low ledger.old ≡ true }
    ensures { state lines.new directory.new registers.now ledger.new rule.now (H.Home.meaning home.new) ≡ all_sent (bench O.Operation.algebra R.Victim.rule ways (state lines.old directory.old registers.now ledger.old rule.now (H.Home.meaning home.old))) 0 (length registers.now * ways) (state lines.old directory.old registers.now ledger.old rule.now (H.Home.meaning home.old)) }
{
    // A number, and not the line: its party's entry, the home and the ledger change with it.
    for i in 0..lines.len() {
        send_one::<O, H, R>(lines, directory, registers, ledger, rule, home, ways, i);
    }
}

// Sends every line home and closes the ledger, if no request is under way.
fn settle_tables<O: Operation, H: Home<O>, R: Victim>(
    lines: &mut [Line<O::Value, O::Partial>],
    directory: &mut [Entry],
    registers: &[Register<O::Value, O::Partial>],
    ledger: &mut Ledger,
    rule: &R,
    home: &mut H,
    ways: usize,
) -> Result<(), Refusal>
    requires sizes { fits ways lines.old directory.old registers.now ≡ true }
    requires legal { Legal ways lines.old directory.old registers.now }
    ensures answer { tried result ≡ (step (bench O.Operation.algebra R.Victim.rule ways (state lines.old directory.old registers.now ledger.old rule.now (H.Home.meaning home.old))) (state lines.old directory.old registers.now ledger.old rule.now (H.Home.meaning home.old)) Settle).1 }
    ensures state { state lines.new directory.new registers.now ledger.new rule.now (H.Home.meaning home.new) ≡ (step (bench O.Operation.algebra R.Victim.rule ways (state lines.old directory.old registers.now ledger.old rule.now (H.Home.meaning home.old))) (state lines.old directory.old registers.now ledger.old rule.now (H.Home.meaning home.old)) Settle).0 }
    ensures legal { Legal ways lines.new directory.new registers.now }
{
    settle_checks::<O, H>(directory, registers, ledger, home)?;
    send_all::<O, H, R>(lines, directory, registers, ledger, rule, home, ways);
    ledger.status = Status::Closed;
    Ok(())
}

// Sends every line home and closes the ledger, if no request is under way; the ticket is spent. A refused settle
// hands the ticket back. The registers and the rule need be lent only to be read.
pub fn settle_legal_over<O: Operation, H: Home<O>, R: Victim>(
    ticket: Ticket,
    lines: &mut [Line<O::Value, O::Partial>],
    directory: &mut [Entry],
    registers: &[Register<O::Value, O::Partial>],
    ledger: &mut Ledger,
    rule: &R,
    home: &mut H,
    ways: usize,
) -> Result<(), Unsettled>
    requires sizes { fits ways lines.old directory.old registers.now ≡ true }
    requires legal { Legal ways lines.old directory.old registers.now }
    ensures answer { settled result ≡ (step (bench O.Operation.algebra R.Victim.rule ways (state lines.old directory.old registers.now ledger.old rule.now (H.Home.meaning home.old))) (state lines.old directory.old registers.now ledger.old rule.now (H.Home.meaning home.old)) Settle).1 }
    ensures state { state lines.new directory.new registers.now ledger.new rule.now (H.Home.meaning home.new) ≡ (step (bench O.Operation.algebra R.Victim.rule ways (state lines.old directory.old registers.now ledger.old rule.now (H.Home.meaning home.old))) (state lines.old directory.old registers.now ledger.old rule.now (H.Home.meaning home.old)) Settle).0 }
    ensures legal { Legal ways lines.new directory.new registers.now }
{
    match settle_tables::<O, H, R>(lines, directory, registers, ledger, rule, home, ways) {
        Ok(()) => {
            ticket.spend();
            Ok(())
        }
        // No `?`: the ticket goes back with the refusal.
        Err(refusal) => Err(Unsettled { refusal, ticket }),
    }
}

// The same where all is lent to be changed, as a bench has it: a slice that lies in a bench cannot be lent on to be read
// while the bench's others are changed.
fn settle_lent<O: Operation, H: Home<O>, R: Victim>(
    ticket: Ticket,
    lines: &mut [Line<O::Value, O::Partial>],
    directory: &mut [Entry],
    registers: &mut [Register<O::Value, O::Partial>],
    ledger: &mut Ledger,
    rule: &mut R,
    home: &mut H,
    ways: usize,
) -> Result<(), Unsettled>
    requires sizes { fits ways lines.old directory.old registers.old ≡ true }
    requires legal { Legal ways lines.old directory.old registers.old }
    ensures answer { settled result ≡ (step (bench O.Operation.algebra R.Victim.rule ways (state lines.old directory.old registers.old ledger.old rule.old (H.Home.meaning home.old))) (state lines.old directory.old registers.old ledger.old rule.old (H.Home.meaning home.old)) Settle).1 }
    ensures state { state lines.new directory.new registers.new ledger.new rule.new (H.Home.meaning home.new) ≡ (step (bench O.Operation.algebra R.Victim.rule ways (state lines.old directory.old registers.old ledger.old rule.old (H.Home.meaning home.old))) (state lines.old directory.old registers.old ledger.old rule.old (H.Home.meaning home.old)) Settle).0 }
{
    settle_legal_over::<O, H, R>(
        ticket, lines, directory, registers, ledger, rule, home, ways,
    )
}

// The same of a bench.
pub fn settle_legal<O: Operation, H: Home<O>, R: Victim>(
    ticket: Ticket,
    bench: &mut Bench<'_, O, H, R>,
) -> Result<(), Unsettled>
    requires { InOrder bench.old }
    ensures answer { settled result ≡ (stepped O.Operation.algebra R.Victim.rule H.Home.meaning bench.old Settle).1 }
    ensures state { seen H.Home.meaning bench.new ≡ (stepped O.Operation.algebra R.Victim.rule H.Home.meaning bench.old Settle).0 }
    ensures in_order { InOrder bench.new }
    ensures lent { SameLoans bench.old bench.new }
{
    settle_lent::<O, H, R>(
        ticket,
        bench.lines,
        bench.directory,
        bench.registers,
        bench.ledger,
        bench.rule,
        bench.home,
        bench.ways,
    )
}
