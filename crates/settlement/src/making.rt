// The making of a bench.
ghost use Rattle.std.specs.Prelude.{◌≡◌, ◌-◌, ◌≤◌, true, length, replicate, is_ok, None, nat_le};
ghost use Rattle.tables.specs.Legal.{Legal, fits, blank};
ghost use Rattle.tables.specs.Ledgers.{counted_nothing};
ghost use Rattle.tables.specs.declared.ledger.Status.TheVariants.{Open};
ghost use Rattle.tables.specs.declared.line.Line.TheVariants.{Invalid};
ghost use Rattle.tables.specs.declared.register.Register.TheVariants.{Empty};
ghost use Rattle.tables.specs.declared.refusal.Refusal.TheVariants.{Sizes, HomeTooSmall};
ghost use Rattle.model.specs.Bench.{bench, state};
ghost use Rattle.model.specs.Steps.{need, make_refusal};
ghost use Rattle.bench.specs.Lent.{InOrder, SameLoans, seen, terms};
ghost use Rattle.moves.specs.Checks.{passes};
ghost use Rattle.settlement.specs.Makes.{issued, made_or};

use super::ticket::Ticket;
use audit::sizes_fit;
use bench::Bench;
use memory::Home;
use moves::check;
use operation::Operation;
use tables::{Entry, Ledger, Line, Refusal, Register, Status};
use victim::Victim;

// Every place of the table gets the value.
fn clear<T: Copy>(table: &mut [T], value: T)
    ensures { table.new ≡ replicate (length table.old) value }
{
    // By number: `fill` wants a clone that is known not to fail, and of a walk by `iter_mut` only the length is known.
    for i in 0..table.len() {
        table[i] = value;
    }
}

// Whether a bench can be made over tables of these sizes and the home.
pub fn makeable_over<O: Operation, H: Home<O>>(
    lines: &[Line<O::Value, O::Partial>],
    directory: &[Entry],
    registers: &[Register<O::Value, O::Partial>],
    home: &H,
    ways: usize,
) -> Result<(), Refusal>
    ensures { result ≡ passes (need (fits ways lines.now directory.now registers.now) Sizes (need (nat_le (length directory.now) (length (H.Home.meaning home.now))) HomeTooSmall None)) }
{
    let fit = sizes_fit(lines, directory, registers, ways);
    check(fit, Refusal::Sizes)?;
    check(directory.len() <= home.cells(), Refusal::HomeTooSmall)
}

// The same of a bench.
pub fn makeable<O: Operation, H: Home<O>, R>(bench: &Bench<'_, O, H, R>) -> Result<(), Refusal>
    ensures { result ≡ passes (need (fits bench.now.ways bench.now.lines.now bench.now.directory.now bench.now.registers.now) Sizes (need (nat_le (length bench.now.directory.now) (length (H.Home.meaning bench.now.home.now))) HomeTooSmall None)) }
{
    makeable_over::<O, H>(
        bench.lines,
        bench.directory,
        bench.registers,
        bench.home,
        bench.ways,
    )
}

// The tables and the ledger of a new bench; nobody was granted yet, and the highest party stands for that.
fn renew<V: Copy, P: Copy>(
    lines: &mut [Line<V, P>],
    directory: &mut [Entry],
    registers: &mut [Register<V, P>],
    ledger: &mut Ledger,
)
    requires { 1 ≤ length registers.old }
    ensures lines { lines.new ≡ replicate (length lines.old) Invalid }
    ensures directory { directory.new ≡ replicate (length directory.old) (blank (length registers.old - 1)) }
    ensures registers { registers.new ≡ replicate (length registers.old) Empty }
    ensures ledger { ledger.new ≡ counted_nothing Open }
{
    let last = registers.len() - 1;
    clear(lines, Line::Invalid);
    clear(directory, Entry::free(last));
    clear(registers, Register::Empty);
    *ledger = Ledger::new(Status::Open);
}

// A new bench over the lent tables, whatever they held: every line Invalid, every entry Free, with no holder, no
// turn and the highest party as the last one granted, every register Empty, and an open ledger that has counted
// nothing. The rule and the home are left as they are, and need be lent only to be read. The ticket is to be given up to
// `settle` or `abandon`.
pub fn make_over<O: Operation, H: Home<O>, R: Victim>(
    lines: &mut [Line<O::Value, O::Partial>],
    directory: &mut [Entry],
    registers: &mut [Register<O::Value, O::Partial>],
    ledger: &mut Ledger,
    rule: &R,
    home: &H,
    ways: usize,
) -> Result<Ticket, Refusal>
    ensures answer { issued result ≡ make_refusal (bench O.Operation.algebra R.Victim.rule ways (state lines.old directory.old registers.old ledger.old rule.now (H.Home.meaning home.now))) (state lines.old directory.old registers.old ledger.old rule.now (H.Home.meaning home.now)) }
    ensures state { state lines.new directory.new registers.new ledger.new rule.now (H.Home.meaning home.now) ≡ made_or (issued result) (bench O.Operation.algebra R.Victim.rule ways (state lines.old directory.old registers.old ledger.old rule.now (H.Home.meaning home.now))) (state lines.old directory.old registers.old ledger.old rule.now (H.Home.meaning home.now)) }
    ensures legal { is_ok result ≡ true → Legal ways lines.new directory.new registers.new }
{
    makeable_over::<O, H>(lines, directory, registers, home, ways)?;
    renew(lines, directory, registers, ledger);
    Ok(Ticket::issue())
}

// The same of a bench.
pub fn make<O: Operation, H: Home<O>, R: Victim>(
    bench: &mut Bench<'_, O, H, R>,
) -> Result<Ticket, Refusal>
    ensures answer { issued result ≡ make_refusal (terms O.Operation.algebra R.Victim.rule H.Home.meaning bench.old) (seen H.Home.meaning bench.old) }
    ensures state { seen H.Home.meaning bench.new ≡ made_or (issued result) (terms O.Operation.algebra R.Victim.rule H.Home.meaning bench.old) (seen H.Home.meaning bench.old) }
    ensures home { bench.new.home.now ≡ bench.old.home.now }
    ensures in_order { is_ok result ≡ true → InOrder bench.new }
    ensures lent { SameLoans bench.old bench.new }
{
    make_over::<O, H, R>(
        bench.lines,
        bench.directory,
        bench.registers,
        bench.ledger,
        bench.rule,
        bench.home,
        bench.ways,
    )
}
