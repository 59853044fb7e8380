// How fast a bench is: plays many contended calls as one run, and call by call.
// Without an argument it plays a few and prints what came of them; with a number of calls it also measures.
#![tactic(auto)]

mod calls;
mod plays;

use calls::contended;
use model::Call;
use operation::{Count, Delta};
use plays::{End, as_one_run, call_by_call};
use std::env;
use std::process::ExitCode;
use std::time::{Duration, Instant};
use wording::Tally;

const FEW: usize = 3000;

fn print_ends(rt: &HostRuntime, calls: usize, a: &End, b: &End) -> anyhow::Result<()> {
    let tally = Tally(a.ledger);
    println!(rt; "calls {calls}")?;
    println!(rt; "{tally}")?;
    let same = if a == b { "the same" } else { "different" };
    println!(rt; "one run and call by call end {same}")?;
    Ok(())
}

fn per_second(calls: usize, time: Duration) -> u128 {
    let nanos = time.as_nanos();
    if nanos == 0 {
        return 0;
    }
    (calls as u128).saturating_mul(1_000_000_000) / nanos
}

fn measure(rt: &HostRuntime, list: &[Call<Count, Delta>]) -> anyhow::Result<()> {
    let start = Instant::now(rt)?;
    let a = as_one_run(list, rt.alloc())?;
    let run_time = start.elapsed(rt)?;
    let start = Instant::now(rt)?;
    let b = call_by_call(list, rt.alloc())?;
    let call_time = start.elapsed(rt)?;
    print_ends(rt, list.len(), &a, &b)?;
    let run_rate = per_second(list.len(), run_time);
    let call_rate = per_second(list.len(), call_time);
    println!(rt; "one run: {run_rate} calls per second")?;
    println!(rt; "call by call: {call_rate} calls per second")?;
    Ok(())
}

fn play_few(rt: &HostRuntime) -> anyhow::Result<()> {
    let list = contended(FEW, rt.alloc())?;
    let a = as_one_run(list.as_slice(), rt.alloc())?;
    let b = call_by_call(list.as_slice(), rt.alloc())?;
    print_ends(rt, list.len(), &a, &b)
}

fn start(rt: &HostRuntime) -> anyhow::Result<()> {
    let mut words = env::args(rt)?;
    let _program = words.next();
    match words.next() {
        Some(word) => {
            let count: usize = word.as_str().parse()?;
            let list = contended(count, rt.alloc())?;
            measure(rt, list.as_slice())
        }
        None => play_few(rt),
    }
}

// A fault is told in one line of its own, so main does not return it: the runtime would print it once more.
fn main(rt: HostRuntime) -> ExitCode {
    match start(&rt) {
        Ok(()) => ExitCode::SUCCESS,
        Err(stop) => {
            let _ = eprintln!(rt; "speed: {stop}");
            ExitCode::FAILURE
        }
    }
}
