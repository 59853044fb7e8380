// Cases of an operation, of a home and of the limits, each without a play.
ghost use Rattle.std.specs.Prelude.{◌≡◌, ◌≤◌};
ghost use Rattle.cases.specs.Benches.{cells_of};
ghost use Rattle.cases.specs.Replies.{done_or, made_of, value_or};

use super::texts::Reply;
use memory::{Combining, Home, PlainCells};
use operation::{Count, Delta, Operation, Total};
use protocol::{abandon, make_over};
use tables::{Entry, Ledger, Line, Register, Status};
use victim::Rotate;

// A step down below 0 wraps.
pub fn acting(rt: &HostRuntime) -> anyhow::Result<()> {
    let value = Total::act(Count::new(3), Delta::new(-5)).get();
    println!(rt; "case 7")?;
    println!(rt; "-5 acting on 3: value {value}")?;
    Ok(())
}

impl From<Result<(), memory::Refusal>> for Reply {
    ghost from_gives = { λ res reply. reply ≡ done_or res };

    fn from(res: Result<(), memory::Refusal>) -> Reply {
        match res {
            Ok(()) => Reply::Done,
            Err(refusal) => Reply::Refused(refusal.number()),
        }
    }
}

impl From<Result<Count, memory::Refusal>> for Reply {
    ghost from_gives = { λ res reply. reply ≡ value_or res };

    fn from(res: Result<Count, memory::Refusal>) -> Reply {
        match res {
            Ok(value) => Reply::Value(value.get()),
            Err(refusal) => Reply::Refused(refusal.number()),
        }
    }
}

// A store forgets what the register holds back for its place.
pub fn combining(rt: &HostRuntime) -> anyhow::Result<()> {
    let below = PlainCells::<Total>::new(vec![in rt.alloc(); Count::new(10)]?);
    let mut home = Combining::<Total, PlainCells<Total>>::over(below);
    let applied = Reply::from(home.apply(0, Delta::new(5)));
    let stored = Reply::from(home.store(0, Count::new(9)));
    let value = Reply::from(home.load(0));
    println!(rt; "case 8")?;
    println!(rt; "apply 0 by 5: {applied}")?;
    println!(rt; "store 0 value 9: {stored}")?;
    println!(rt; "load 0: {value}")?;
    Ok(())
}

// The most parties and cells pass a make, and one more of either is refused.
pub fn limits(rt: &HostRuntime) -> anyhow::Result<()> {
    println!(rt; "case 9")?;
    show_make(rt, 16, 256)?;
    show_make(rt, 17, 256)?;
    show_make(rt, 16, 257)
}

fn show_make(rt: &HostRuntime, parties: usize, cells: usize) -> anyhow::Result<()>
    requires { (parties ≤ 17) × (cells ≤ 257) }
{
    let row = vec![in rt.alloc(); Count::new(0); 257]?;
    let home = PlainCells::<Total>::new(row);
    let mut lines = [Line::<Count, Delta>::Invalid; 17];
    let mut directory = [Entry::free(0); 257];
    let mut registers = [Register::<Count, Delta>::Empty; 17];
    let reply = make_and_abandon(
        &mut lines[0..parties],
        &mut directory[0..cells],
        &mut registers[0..parties],
        &home,
    );
    println!(rt; "make of {parties} parties and {cells} cells: {reply}")?;
    Ok(())
}

// What a make of a bench with one way for each party comes to. A bench that is made is given up at once. (Over lent
// tables: its home is lent to it to be read alone.)
fn make_and_abandon(
    lines: &mut [Line<Count, Delta>],
    directory: &mut [Entry],
    registers: &mut [Register<Count, Delta>],
    home: &PlainCells<Total>,
) -> Reply
    ensures { result ≡ made_of lines.old directory.old registers.old (cells_of home.now) }
{
    let mut ledger = Ledger::new(Status::Closed);
    let rule = Rotate::new();
    match make_over::<Total, PlainCells<Total>, Rotate>(
        lines,
        directory,
        registers,
        &mut ledger,
        &rule,
        home,
        1,
    ) {
        Ok(ticket) => {
            let _ = abandon(ticket, lines, &mut ledger);
            Reply::Done
        }
        Err(refusal) => Reply::Refused(refusal.number()),
    }
}
