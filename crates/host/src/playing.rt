// Two small hosts: each lends a bench its tables, makes it, has one request served on it, and gives its ticket up.
ghost use Rattle.std.specs.Prelude.{◌≡◌, false, IfOk, OnOk};
ghost use Rattle.tables.specs.Ledgers.{is_open};
ghost use Rattle.model.specs.Steps.{final};
ghost use Rattle.bench.specs.Lent.{SameLoans, seen, terms};
ghost use Rattle.settlement.specs.Left.{owed};
ghost use Rattle.host.specs.Servings.{served};

use super::ending::{Ending, end};
use memory::Home;
use operation::Operation;
use protocol::{Bench, abandon_bench, advance, collect, make, post};
use tables::{Entry, Ledger, Line, Refusal, Register, Request};
use victim::Victim;

// Posts a request and advances its cell once. Whatever is refused, the bench goes on, and its end is still owed.
fn serve<O: Operation, H: Home<O>, R: Victim>(
    bench: &mut Bench<'_, O, H, R>,
    party: usize,
    request: Request<O::Value, O::Partial>,
)
    ensures state { seen H.Home.meaning bench.new ≡ final (terms O.Operation.algebra R.Victim.rule H.Home.meaning bench.old) (seen H.Home.meaning bench.old) (served party request) }
    ensures lent { SameLoans bench.old bench.new }
{
    let _ = post(bench, party, request);
    let _ = advance(bench, request.cell());
}

// Makes the bench, has one request served and collected, and ends it.
fn play_served<O: Operation, H: Home<O>, R: Victim>(
    bench: &mut Bench<'_, O, H, R>,
    party: usize,
    request: Request<O::Value, O::Partial>,
) -> Result<Ending, Refusal>
    ensures closed { OnOk result (is_open bench.new.ledger.now ≡ false) }
    ensures lent { SameLoans bench.old bench.new }
{
    let ticket = make(bench)?;
    serve(bench, party, request);
    let _ = collect(bench, party);
    Ok(end(ticket, bench))
}

// Keeps the ticket in a slot while a request is served, and then abandons the bench.
fn serve_slotted<O: Operation, H: Home<O>, R: Victim>(
    bench: &mut Bench<'_, O, H, R>,
    party: usize,
    request: Request<O::Value, O::Partial>,
) -> Result<usize, Refusal>
    ensures left { IfOk result (λ left. (left ≡ owed bench.new.lines.now) × (is_open bench.new.ledger.now ≡ false)) }
    ensures lent { SameLoans bench.old bench.new }
{
    let mut slot = Some(make(bench)?);
    serve(bench, party, request);
    let ticket = slot.take().unwrap();
    Ok(abandon_bench(ticket, bench))
}

// Lends a bench what it is handed, has one request served and collected, and settles; what the bench left is with the
// lender afterwards.
pub fn play_one<O: Operation, H: Home<O>, R: Victim>(
    lines: &mut [Line<O::Value, O::Partial>],
    directory: &mut [Entry],
    registers: &mut [Register<O::Value, O::Partial>],
    ledger: &mut Ledger,
    rule: &mut R,
    home: &mut H,
    ways: usize,
    party: usize,
    request: Request<O::Value, O::Partial>,
) -> Result<Ending, Refusal>
    ensures { OnOk result (is_open ledger.new ≡ false) }
{
    let mut bench = Bench::<O, H, R>::over(lines, directory, registers, ledger, rule, home, ways);
    play_served(&mut bench, party, request)
}

// Lends a bench what it is handed, has one request served and abandons it, with the number of the lines that are left
// with something to send home.
pub fn play_slotted<O: Operation, H: Home<O>, R: Victim>(
    lines: &mut [Line<O::Value, O::Partial>],
    directory: &mut [Entry],
    registers: &mut [Register<O::Value, O::Partial>],
    ledger: &mut Ledger,
    rule: &mut R,
    home: &mut H,
    ways: usize,
    party: usize,
    request: Request<O::Value, O::Partial>,
) -> Result<usize, Refusal>
    ensures { IfOk result (λ left. (left ≡ owed lines.new) × (is_open ledger.new ≡ false)) }
{
    let mut bench = Bench::<O, H, R>::over(lines, directory, registers, ledger, rule, home, ways);
    serve_slotted(&mut bench, party, request)
}
