// Plays cases, and prints a line for each step.
use super::calls::answer;
use super::cases::{
    Step, a_hit, a_late_update, a_read, a_yield, an_eviction, one_update, two_updates,
};
use super::texts::{Held, Reply, Said};
use memory::{Home, PlainCells};
use operation::{Count, Total};
use protocol::{Bench, abandon_bench, make};
use tables::{Entry, Ledger, Line, Register, Status};
use victim::Rotate;

pub fn play_all(rt: &HostRuntime) -> anyhow::Result<()> {
    let heap = rt.alloc();
    play(rt, "case 1", one_update(heap)?.as_slice())?;
    play(rt, "case 2", two_updates(heap)?.as_slice())?;
    play(rt, "case 3", a_hit(heap)?.as_slice())?;
    play(rt, "case 4", a_read(heap)?.as_slice())?;
    play(rt, "case 5", a_late_update(heap)?.as_slice())?;
    play(rt, "case 6", an_eviction(heap)?.as_slice())?;
    play(rt, "a yield", a_yield(heap)?.as_slice())
}

// A case on a new bench: two parties with one way each, and two cells, which hold 10 and 20.
fn play(rt: &HostRuntime, heading: &str, steps: &[Step]) -> anyhow::Result<()> {
    let mut home = PlainCells::<Total>::new(vec![in rt.alloc(); Count::new(10), Count::new(20)]?);
    let mut rule = Rotate::new();
    let mut lines = [Line::Invalid; 2];
    let mut directory = [Entry::free(0); 2];
    let mut registers = [Register::Empty; 2];
    let mut ledger = Ledger::new(Status::Closed);
    let mut bench = Bench::<Total, PlainCells<Total>, Rotate>::over(
        &mut lines,
        &mut directory,
        &mut registers,
        &mut ledger,
        &mut rule,
        &mut home,
        1,
    );
    println!(rt; "{heading}")?;
    match make(&mut bench) {
        Err(refusal) => {
            let reply = Reply::Refused(refusal.number());
            println!(rt; "make: {reply}")?;
        }
        Ok(ticket) => {
            // Whatever becomes of the printing, the ticket is to be given up first.
            let printed = take_steps(rt, &mut bench, steps);
            let left = abandon_bench(ticket, &mut bench);
            printed?;
            println!(rt; "abandon: left {left}")?;
        }
    }
    Ok(())
}

fn take_steps(
    rt: &HostRuntime,
    bench: &mut Bench<'_, Total, PlainCells<Total>, Rotate>,
    steps: &[Step],
) -> anyhow::Result<()> {
    let reply = Reply::Done;
    println!(rt; "make: {reply}")?;
    for step in steps {
        take_step(rt, bench, *step)?;
    }
    Ok(())
}

fn take_step(
    rt: &HostRuntime,
    bench: &mut Bench<'_, Total, PlainCells<Total>, Rotate>,
    step: Step,
) -> anyhow::Result<()> {
    match step {
        Step::Call(call) => {
            let answer = Said(answer(bench, call));
            println!(rt; "{call}: {answer}")?;
        }
        Step::Home => show_home(rt, bench.home)?,
        Step::Lines => show_lines(rt, bench)?,
    }
    Ok(())
}

fn show_home(rt: &HostRuntime, home: &mut PlainCells<Total>) -> anyhow::Result<()> {
    print!(rt; "home:")?;
    // A home is read by place: it has no list to walk.
    for place in 0..home.cells() {
        if let Ok(value) = home.load(place) {
            let value = value.get();
            print!(rt; " {value}")?;
        }
    }
    println!(rt; "")?;
    Ok(())
}

// A party has one way, so line p is that of party p.
fn show_lines(
    rt: &HostRuntime,
    bench: &Bench<'_, Total, PlainCells<Total>, Rotate>,
) -> anyhow::Result<()> {
    for (party, line) in bench.lines.iter().enumerate() {
        let held = Held(*line);
        println!(rt; "line of {party}: {held}")?;
    }
    Ok(())
}
