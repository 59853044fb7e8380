// A whole script: the bench of its first line, and the calls of the others.
ghost use Rattle.std.specs.Prelude.{◌≡◌, IfOk};
ghost use Rattle.script.specs.Scripts.{start_of, head_of, calls_of, Added};

use super::calls::read_call;
use super::cuts::Lines;
use super::faults::{LineFault, NoBench, PlayFault};
use super::heads::{Head, read_bench};
use super::scripted::Scripted;
use model::Call;
use std::alloc::{AllocError, Global};

// The most bytes of a script.
const LONGEST: usize = 65_536;

// The bench that a script is played on, if the script is not too long and its first line describes one.
pub fn read_head(script: &[u8]) -> Result<Head, LineFault>
    ensures { result ≡ head_of script.now }
{
    Ok(read_start(script)?)
}

fn read_start(script: &[u8]) -> Result<Head, NoBench>
    ensures { result ≡ start_of script.now }
{
    if script.len() > LONGEST {
        return Err(NoBench);
    }
    read_bench(Lines::new(script).next().ok_or(NoBench)?)
}

// What the lines after the first say: the calls before the first line with a fault, and that fault, if there is one.
// The call with index `i` is that of line `i + 2`.
#[derive(Drop)]
pub struct Reading<V, P> {
    pub calls: Vec<Call<V, P>>,
    pub fault: Option<LineFault>,
}

// What a script says after its first line, unless memory is wanting. Whether the play comes as far as the fault is
// not known before: a settle that is accepted ends it, and what follows is as if it were not there.
pub fn read_calls<O: Scripted>(
    script: &[u8],
    heap: Global,
) -> Result<Reading<O::Value, O::Partial>, AllocError>
    ensures { IfOk result (λ s. (s.calls.items ≡ (calls_of O.Scripted.values O.Scripted.partials script.now).0) × (s.fault ≡ (calls_of O.Scripted.values O.Scripted.partials script.now).1)) }
{
    let mut calls = Vec::new(heap);
    match read_lines::<O>(&mut calls, script) {
        Ok(()) => Ok(Reading { calls, fault: None }),
        Err(PlayFault::Script(fault)) => Ok(Reading {
            calls,
            fault: Some(fault),
        }),
        Err(PlayFault::Memory(none)) => Err(none),
    }
}

fn read_lines<O: Scripted>(
    calls: &mut Vec<Call<O::Value, O::Partial>>,
    script: &[u8],
) -> Result<(), PlayFault>
    ensures { Added (calls_of O.Scripted.values O.Scripted.partials script.now) calls.old.items calls.new.items result }
{
    let mut lines = Lines::new(script);
    // The first describes the bench.
    let _head = lines.next();
    for (i, line) in lines.enumerate() {
        calls.push(read_call::<O>(i + 2, line)?)?;
    }
    Ok(())
}
