// The two ways to play the calls: as one run, and call by call through the public calls, which audit every time.
use super::calls::{CELLS, PARTIES, WAYS};
use anyhow::bail;
use history::{Played, Unplayed, run};
use memory::PlainCells;
use model::Call;
use operation::{Count, Delta, Total};
use protocol::{
    Bench, Ticket, Unsettled, abandon_bench, advance, collect, make, post, relinquish, settle,
};
use std::alloc::{AllocError, Global};
use tables::{Ledger, Refusal};
use victim::Oldest;
use workbench::{Workbench, row_of};

// What a play leaves behind, to be compared.
#[derive(Drop, PartialEq)]
pub struct End {
    pub ledger: Ledger,
    pub cells: Vec<Count>,
}

fn home(heap: Global) -> Result<PlainCells<Total>, AllocError> {
    Ok(PlainCells::new(row_of(Count::new(0), usize::from(CELLS), heap)?))
}

fn refused(refusal: Refusal) -> anyhow::Result<()> {
    bail!("the make is refused with {}", refusal.number())
}

fn one_run(
    bench: &mut Bench<'_, Total, PlainCells<Total>, Oldest>,
    calls: &[Call<Count, Delta>],
    heap: Global,
) -> anyhow::Result<()> {
    match run(bench, calls, heap) {
        Ok(Played { answers: _, ticket }) => {
            if let Some(ticket) = ticket {
                let _left = abandon_bench(ticket, bench);
            }
            Ok(())
        }
        // Told here: the two are no errors of `anyhow`'s, and `runs` prints the first as an answer.
        Err(Unplayed::Refused(refusal)) => refused(refusal),
        Err(Unplayed::OutOfMemory) => bail!("no memory for the answers"),
    }
}

// One public call; the ticket is kept unless a settle is accepted.
fn call_once(
    bench: &mut Bench<'_, Total, PlainCells<Total>, Oldest>,
    ticket: Option<Ticket>,
    call: Call<Count, Delta>,
) -> Option<Ticket> {
    match call {
        Call::Post { party, request } => {
            let _ = post(bench, party, request);
            ticket
        }
        Call::Advance { cell } => {
            let _ = advance(bench, cell);
            ticket
        }
        Call::Collect { party } => {
            let _ = collect(bench, party);
            ticket
        }
        Call::Yield { party, cell } => {
            let _ = relinquish(bench, party, cell);
            ticket
        }
        Call::Settle => match settle(ticket?, bench) {
            Ok(()) => None,
            Err(Unsettled { refusal: _, ticket }) => Some(ticket),
        },
    }
}

fn one_by_one(
    bench: &mut Bench<'_, Total, PlainCells<Total>, Oldest>,
    calls: &[Call<Count, Delta>],
) -> anyhow::Result<()> {
    let mut kept = match make(bench) {
        Ok(ticket) => Some(ticket),
        Err(refusal) => return refused(refusal),
    };
    for call in calls {
        kept = call_once(bench, kept, *call);
    }
    if let Some(ticket) = kept {
        let _left = abandon_bench(ticket, bench);
    }
    Ok(())
}

// What a play of the calls on a new bench comes to.
fn end_of<F: FnOnce(&mut Bench<'_, Total, PlainCells<Total>, Oldest>) -> anyhow::Result<()>>(
    play: F,
    heap: Global,
) -> anyhow::Result<End>
    requires { F.IsAlwaysCallable play }
{
    let Workbench {
        mut lines,
        mut directory,
        mut registers,
        mut ledger,
    } = Workbench::<Count, Delta>::new(PARTIES, WAYS, CELLS, heap)?;
    let mut rule = Oldest::new();
    let mut home = home(heap)?;
    let mut bench = Bench::<Total, PlainCells<Total>, Oldest>::over(
        lines.as_mut_slice(),
        directory.as_mut_slice(),
        registers.as_mut_slice(),
        &mut ledger,
        &mut rule,
        &mut home,
        usize::from(WAYS),
    );
    play(&mut bench)?;
    Ok(End {
        ledger,
        cells: home.into_row(),
    })
}

pub fn as_one_run(calls: &[Call<Count, Delta>], heap: Global) -> anyhow::Result<End> {
    end_of(|bench| one_run(bench, calls, heap), heap)
}

pub fn call_by_call(calls: &[Call<Count, Delta>], heap: Global) -> anyhow::Result<End> {
    end_of(|bench| one_by_one(bench, calls), heap)
}
