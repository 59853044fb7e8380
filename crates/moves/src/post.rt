// A post of a request.
ghost use Rattle.std.specs.Prelude.{◌≡◌, ◌*◌, ◌^◌, ◌<◌, ◌≤◌, true, length, None, nat_lt, slice_index_or};
ghost use Rattle.tables.specs.declared.register.Register.TheVariants.{Empty};
ghost use Rattle.tables.specs.declared.refusal.Refusal.TheVariants.{LedgerClosed, CountTooHigh, NoSuchParty, NoSuchCell, RegisterInUse};
ghost use Rattle.tables.specs.Ledgers.{is_open, counts_low};
ghost use Rattle.tables.specs.Legal.{Legal, fits};
ghost use Rattle.tables.specs.Lines.{is_empty, target};
ghost use Rattle.model.specs.declared.call.Call.TheVariants.{Post};
ghost use Rattle.model.specs.Bench.{bench, state, hit_line};
ghost use Rattle.model.specs.Steps.{need, step, hit};
ghost use Rattle.bench.specs.Lent.{InOrder, SameLoans, seen, stepped};
ghost use Rattle.answers.specs.Answers.{posted};
ghost use Rattle.moves.specs.Checks.{passes};

use super::checks::check;
use actions::answer_to;
use answers::Posted;
use bench::{Bench, is_free, line_at, own_hit, set_register};
use memory::Home;
use operation::Operation;
use tables::{Entry, Ledger, Line, Refusal, Register, Request};
use victim::Victim;

// The checks of a post on legal tables.
fn post_checks<V: Copy, P: Copy>(
    ledger: &Ledger,
    cells: usize,
    registers: &[Register<V, P>],
    party: usize,
    request: &Request<V, P>,
) -> Result<(), Refusal>
    ensures { result ≡ passes (need (is_open ledger.now) LedgerClosed (need (counts_low ledger.now) CountTooHigh (need (nat_lt party (length registers.now)) NoSuchParty (need (nat_lt (target request.now) cells) NoSuchCell (need (is_empty (slice_index_or registers.now party Empty)) RegisterInUse None))))) }
{
    check(ledger.is_open(), Refusal::LedgerClosed)?;
    check(ledger.counts_low(), Refusal::CountTooHigh)?;
    check(party < registers.len(), Refusal::NoSuchParty)?;
    check(request.cell() < cells, Refusal::NoSuchCell)?;
    check(is_free(registers, party), Refusal::RegisterInUse)
}

// The line once the request has hit it: a write replaces a Modified value; an update acts on one, or is joined
// to a held partial, the held one first.
fn hit_line<O: Operation>(
    request: Request<O::Value, O::Partial>,
    line: Line<O::Value, O::Partial>,
) -> Line<O::Value, O::Partial>
    ensures { result ≡ hit_line O.Operation.algebra request line }
{
    match (request, line) {
        (Request::Write { value, .. }, Line::Modified { cell, .. }) => Line::Modified {
            cell,
            value,
        },
        (
            Request::Update { partial, .. },
            Line::UpdateOnly {
                cell,
                partial: held,
            },
        ) => {
            Line::UpdateOnly {
                cell,
                partial: O::join(held, partial),
            }
        }
        (Request::Update { partial, .. }, Line::Modified { cell, value }) => {
            Line::Modified {
                cell,
                value: O::act(value, partial),
            }
        }
        (_, line) => line,
    }
}

// The request is finished by its party's line i. (The directory and the home are lent for the clause, which speaks of the
// whole state.)
fn finish_hit<O: Operation, H: Home<O>, R: Victim>(
    lines: &mut [Line<O::Value, O::Partial>],
    directory: &mut [Entry],
    registers: &mut [Register<O::Value, O::Partial>],
    ledger: &mut Ledger,
    rule: &mut R,
    home: &H,
    ways: usize,
    party: usize,
    request: Request<O::Value, O::Partial>,
    i: usize,
)
    requires place { (i < length lines.old) × ((party * ways ≤ i) × (party * ways ≤ 128)) }
    requires limits { party < length registers.old }
    requires counts { ledger.old.hits < 2 ^ 63 }
    ensures { state lines.new directory.new registers.new ledger.new rule.new (H.Home.meaning home.now) ≡ hit (bench O.Operation.algebra R.Victim.rule ways (state lines.old directory.old registers.old ledger.old rule.old (H.Home.meaning home.now))) (state lines.old directory.old registers.old ledger.old rule.old (H.Home.meaning home.now)) party request i }
{
    let line = line_at(lines, i);
    lines[i] = hit_line::<O>(request, line);
    set_register(
        registers,
        party,
        Register::Answered(answer_to(request, line)),
    );
    ledger.hits += 1;
    rule.touch(party, i - party * ways);
}

// Finishes the request at once if a line of its party allows it, or lets it wait. (Over the tables, with the home lent to
// be read: a post changes nothing in it, so a host that has its home only to read may post too, and a bench holds its home
// to be changed. What it leaves can be lent to the next call as it is.)
pub fn post_over<O: Operation, H: Home<O>, R: Victim>(
    lines: &mut [Line<O::Value, O::Partial>],
    directory: &mut [Entry],
    registers: &mut [Register<O::Value, O::Partial>],
    ledger: &mut Ledger,
    rule: &mut R,
    home: &H,
    ways: usize,
    party: usize,
    request: Request<O::Value, O::Partial>,
) -> Result<Posted, Refusal>
    requires sizes { fits ways lines.old directory.old registers.old ≡ true }
    requires legal { Legal ways lines.old directory.old registers.old }
    ensures answer { posted result ≡ (step (bench O.Operation.algebra R.Victim.rule ways (state lines.old directory.old registers.old ledger.old rule.old (H.Home.meaning home.now))) (state lines.old directory.old registers.old ledger.old rule.old (H.Home.meaning home.now)) (Post party request)).1 }
    ensures state { state lines.new directory.new registers.new ledger.new rule.new (H.Home.meaning home.now) ≡ (step (bench O.Operation.algebra R.Victim.rule ways (state lines.old directory.old registers.old ledger.old rule.old (H.Home.meaning home.now))) (state lines.old directory.old registers.old ledger.old rule.old (H.Home.meaning home.now)) (Post party request)).0 }
    ensures legal { Legal ways lines.new directory.new registers.new }
    ensures sizes { fits ways lines.new directory.new registers.new ≡ true }
{
    post_checks(ledger, directory.len(), registers, party, &request)?;
    match own_hit(lines, ways, party, request) {
        Some(i) => {
            finish_hit::<O, H, R>(
                lines, directory, registers, ledger, rule, home, ways, party, request, i,
            );
            Ok(Posted::Hit)
        }
        None => {
            set_register(registers, party, Register::Waiting(request));
            Ok(Posted::Queued)
        }
    }
}

// The same of a bench.
pub fn post<O: Operation, H: Home<O>, R: Victim>(
    bench: &mut Bench<'_, O, H, R>,
    party: usize,
    request: Request<O::Value, O::Partial>,
) -> Result<Posted, Refusal>
    requires { InOrder bench.old }
    ensures answer { posted result ≡ (stepped O.Operation.algebra R.Victim.rule H.Home.meaning bench.old (Post party request)).1 }
    ensures state { seen H.Home.meaning bench.new ≡ (stepped O.Operation.algebra R.Victim.rule H.Home.meaning bench.old (Post party request)).0 }
    ensures home { bench.new.home.now ≡ bench.old.home.now }
    ensures in_order { InOrder bench.new }
    ensures lent { SameLoans bench.old bench.new }
{
    post_over::<O, H, R>(
        bench.lines,
        bench.directory,
        bench.registers,
        bench.ledger,
        bench.rule,
        bench.home,
        bench.ways,
        party,
        request,
    )
}
