// The cases that are played on a bench, each from its making on.
ghost use Rattle.std.specs.Prelude.{◌≡◌, ◌++◌, IfOk};
ghost use Rattle.tables.specs.declared.request.Request.TheVariants.{Read};
ghost use Rattle.cases.specs.declared.calls.Call.TheVariants as call;
ghost use Rattle.cases.specs.declared.cases.Step.TheVariants as step;

use super::calls::Call;
use operation::Delta;
use std::alloc::{AllocError, Global};
use tables::Request;

// What a case does next: it makes a call, or looks at the home or at the lines.
#[derive(Clone, Copy)]
pub enum Step {
    Call(Call),
    Home,
    Lines,
}

fn update(party: usize, cell: usize, by: i32) -> Step {
    Step::Call(Call::Post(
        party,
        Request::Update {
            cell,
            partial: Delta::new(by),
        },
    ))
}

fn read(party: usize, cell: usize) -> Step
    ensures { result ≡ step.Call (call.Post party (Read cell)) }
{
    Step::Call(Call::Post(party, Request::Read { cell }))
}

fn advance(cell: usize) -> Step
    ensures { result ≡ step.Call (call.Advance cell) }
{
    Step::Call(Call::Advance(cell))
}

fn collect(party: usize) -> Step
    ensures { result ≡ step.Call (call.Collect party) }
{
    Step::Call(Call::Collect(party))
}

fn relinquish(party: usize, cell: usize) -> Step
    ensures { result ≡ step.Call (call.Yield party cell) }
{
    Step::Call(Call::Yield(party, cell))
}

// The steps, and more after them.
fn then(steps: Vec<Step>, more: &[Step]) -> Result<Vec<Step>, AllocError>
    ensures { IfOk result (λ all. all.items ≡ steps.items ++ more.now) }
{
    let mut all = steps;
    all.extend_from_slice(more)?;
    Ok(all)
}

// Party 0 updates cell 0; the home does not have it yet.
pub fn one_update(heap: Global) -> Result<Vec<Step>, AllocError> {
    then(Vec::new(heap), &[update(0, 0, 5), advance(0), Step::Home])
}

// Party 1 updates the same cell, and both lines are Update-only.
pub fn two_updates(heap: Global) -> Result<Vec<Step>, AllocError> {
    then(
        one_update(heap)?,
        &[collect(0), update(1, 0, 7), advance(0), Step::Lines],
    )
}

// A second update of party 1 is a hit.
pub fn a_hit(heap: Global) -> Result<Vec<Step>, AllocError> {
    then(
        two_updates(heap)?,
        &[collect(1), update(1, 0, 1), Step::Lines],
    )
}

// Party 0 reads the cell: its own line and that of party 1 are recalled first.
pub fn a_read(heap: Global) -> Result<Vec<Step>, AllocError> {
    then(
        a_hit(heap)?,
        &[read(0, 0), advance(0), advance(0), advance(0), collect(0)],
    )
}

// Party 1 updates the cell once more between the two recalls.
pub fn a_late_update(heap: Global) -> Result<Vec<Step>, AllocError> {
    then(
        a_hit(heap)?,
        &[
            read(0, 0),
            advance(0),
            collect(1),
            update(1, 0, 2),
            advance(0),
            advance(0),
            collect(0),
        ],
    )
}

// Party 0 reads another cell, and its only way is evicted first.
pub fn an_eviction(heap: Global) -> Result<Vec<Step>, AllocError> {
    then(
        one_update(heap)?,
        &[
            collect(0),
            read(0, 1),
            advance(1),
            Step::Home,
            advance(1),
            collect(0),
        ],
    )
}

// Party 0 yields its line, and that of party 1 is left.
pub fn a_yield(heap: Global) -> Result<Vec<Step>, AllocError> {
    then(two_updates(heap)?, &[relinquish(0, 0), Step::Home])
}
