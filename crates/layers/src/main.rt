// What does a combining register save? Plays a list of memory calls on three piles of layers, and compares them.
#![tactic(auto)]

#[cfg(test)]
mod tests;

use call_report::{MOST, report};
use std::alloc::Global;
use std::fs::File;
use std::io::Read;
use std::process::ExitCode;
use std::{env, io};

// Reads one byte more than is taken, so that a longer input shows.
fn read_some(from: impl Read + Drop, heap: Global) -> io::Result<Vec<u8>> {
    let mut bytes = Vec::new(heap);
    // `as`, since no `From` widens a `usize`.
    let mut part = from.take(MOST as u64 + 1);
    part.read_to_end(&mut bytes)?;
    Ok(bytes)
}

// The file that the first argument names, or else standard input.
fn read_input(rt: &HostRuntime) -> io::Result<Vec<u8>> {
    match env::args(rt)?.nth(1) {
        Some(path) => read_some(File::open(rt, path.as_str())?, rt.alloc()),
        None => read_some(rt.stdin(), rt.alloc()),
    }
}

fn run(rt: &HostRuntime) -> anyhow::Result<()> {
    let input = read_input(rt)?;
    rt.print(report(input.as_slice(), rt.alloc())?)?;
    Ok(())
}

// A fault is told in one line of its own, so main does not return it: the runtime would print it once more.
fn main(rt: HostRuntime) -> ExitCode {
    match run(&rt) {
        Ok(()) => ExitCode::SUCCESS,
        Err(stop) => {
            let _ = eprintln!(rt; "layers: {stop}");
            ExitCode::FAILURE
        }
    }
}
