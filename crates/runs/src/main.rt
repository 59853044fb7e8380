// Plays one list of calls through `run` on several benches, and prints the answers, the tally and the cells: over a
// total under both rules, over a pair of operations, and over a combining register.
#![tactic(auto)]

mod calls;

use anyhow::bail;
use calls::{CELLS, PARTIES, WAYS, contended};
use history::{Played, Unplayed, run};
use memory::{Combining, Home, PlainCells};
use model::{Answer, Call};
use notation::Shown;
use operation::{Count, Delta, Flags, Operation, Pair, Peak, Total};
use protocol::{Bench, abandon_bench};
use std::process::ExitCode;
use victim::{Oldest, Rotate, Victim};
use wording::{Tally, answer_text};
use workbench::{Workbench, row_of};

fn print_answers<O: Shown>(rt: &HostRuntime, answers: &[Answer<O::Value>]) -> anyhow::Result<()> {
    for (i, answer) in answers.iter().enumerate() {
        let text = answer_text::<O>(*answer, rt.alloc())?;
        println!(rt; "{i} {text}")?;
    }
    Ok(())
}

fn print_cells<O: Shown, H: Home<O>>(rt: &HostRuntime, home: &mut H) -> anyhow::Result<()> {
    // A home is read by place: it has no list to walk.
    for cell in 0..home.cells() {
        if let Ok(value) = home.load(cell) {
            let text = O::show(value, rt.alloc())?;
            println!(rt; "cell {cell} {text}")?;
        }
    }
    Ok(())
}

// A run of the calls on a new bench over the home, under the rule.
fn play<O: Shown, H: Home<O> + Drop, R: Victim + Drop>(
    rt: &HostRuntime,
    title: &str,
    mut home: H,
    mut rule: R,
    calls: &[Call<O::Value, O::Partial>],
) -> anyhow::Result<()> {
    println!(rt; "{title}")?;
    let Workbench {
        mut lines,
        mut directory,
        mut registers,
        mut ledger,
    } = Workbench::<O::Value, O::Partial>::new(PARTIES, WAYS, CELLS, rt.alloc())?;
    let mut bench = Bench::<O, H, R>::over(
        lines.as_mut_slice(),
        directory.as_mut_slice(),
        registers.as_mut_slice(),
        &mut ledger,
        &mut rule,
        &mut home,
        usize::from(WAYS),
    );
    match run(&mut bench, calls, rt.alloc()) {
        Ok(Played { answers, ticket }) => {
            if let Some(ticket) = ticket {
                let left = abandon_bench(ticket, &mut bench);
                println!(rt; "left {left}")?;
            }
            print_answers::<O>(rt, answers.as_slice())?;
            let tally = Tally(*bench.ledger);
            println!(rt; "{tally}")?;
            print_cells::<O, H>(rt, bench.home)
        }
        // Told here and not by `?`: a refusal is printed as an answer, and is no fault of the program's.
        Err(Unplayed::Refused(refusal)) => {
            let number = refusal.number();
            println!(rt; "refused {number}")?;
            Ok(())
        }
        Err(Unplayed::OutOfMemory) => bail!("no memory for the answers"),
    }
}

fn play_all(rt: &HostRuntime) -> anyhow::Result<()> {
    let heap = rt.alloc();
    let totals = contended::<Total>(Delta::new(5), Delta::new(-7), Count::new(100));
    let cells = row_of(Count::new(10), usize::from(CELLS), heap)?;
    play::<Total, PlainCells<Total>, Rotate>(
        rt,
        "total, rotate, plain cells",
        PlainCells::new(cells),
        Rotate::new(),
        &totals,
    )?;
    let cells = row_of(Count::new(10), usize::from(CELLS), heap)?;
    play::<Total, PlainCells<Total>, Oldest>(
        rt,
        "total, oldest, plain cells",
        PlainCells::new(cells),
        Oldest::new(),
        &totals,
    )?;
    let cells = row_of(Count::new(10), usize::from(CELLS), heap)?;
    play::<Total, Combining<Total, PlainCells<Total>>, Oldest>(
        rt,
        "total, oldest, a combining register over plain cells",
        Combining::over(PlainCells::new(cells)),
        Oldest::new(),
        &totals,
    )?;
    let pairs = contended::<Pair<Peak, Flags>>((3, 1), (9, 6), (5, 8));
    let cells = row_of((4, 0), usize::from(CELLS), heap)?;
    play::<Pair<Peak, Flags>, PlainCells<Pair<Peak, Flags>>, Rotate>(
        rt,
        "peak and flags as a pair, rotate, plain cells",
        PlainCells::new(cells),
        Rotate::new(),
        &pairs,
    )
}

// A fault is told in one line of its own, so main does not return it: the runtime would print it once more.
fn main(rt: HostRuntime) -> ExitCode {
    match play_all(&rt) {
        Ok(()) => ExitCode::SUCCESS,
        Err(stop) => {
            let _ = eprintln!(rt; "runs: {stop}");
            ExitCode::FAILURE
        }
    }
}
