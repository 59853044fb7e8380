// Plays worked cases of the bench and of its parts, and prints every call with its answer.
#![tactic(auto)]

mod calls;
mod cases;
mod parts;
mod player;
mod texts;

use parts::{acting, combining, limits};
use player::play_all;
use std::process::ExitCode;

fn run(rt: &HostRuntime) -> anyhow::Result<()> {
    play_all(rt)?;
    acting(rt)?;
    combining(rt)?;
    limits(rt)?;
    let known = sheet::cases();
    println!(rt; "")?;
    println!(rt; "{known} cases, which hold of the definitions by a theorem")?;
    Ok(())
}

// A fault is told in one line of its own, so main does not return it: the runtime would print it once more.
fn main(rt: HostRuntime) -> ExitCode {
    match run(&rt) {
        Ok(()) => ExitCode::SUCCESS,
        Err(stop) => {
            let _ = eprintln!(rt; "cases: {stop}");
            ExitCode::FAILURE
        }
    }
}
