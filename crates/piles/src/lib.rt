// Piles of layers over plain cells, each with a count of what reaches the cells, and the play of calls on any of them.
#![tactic(auto)]

ghost use Rattle.std.specs.Prelude.{◌≡◌, IfOk};
ghost use Rattle.memory.specs.Row.{counted};
ghost use Rattle.layering.specs.Plays.{Played};

mod pile;
#[cfg(test)]
mod tests;

use layering::{Answer, Call, Counts, play};
use memory::Home;
use operation::Operation;
pub use pile::{Bare, Pile, drained};
use std::alloc::{AllocError, Global};

// What a play on a pile gave: the answers, what reached the cells, and the values in the end.
#[derive(Drop)]
pub struct Outcome<V> {
    pub answers: Vec<Answer<V>>,
    pub reached: Counts,
    pub values: Vec<V>,
}

// The calls, played on a pile over a row; what the pile holds in the end is sent down.
pub fn play_on<O: Operation, P: Pile<O>>(
    row: Vec<O::Value>,
    calls: &[Call<O::Value, O::Partial>],
    heap: Global,
) -> Result<Outcome<O::Value>, AllocError>
    ensures { IfOk result (λ p. Played O.Operation.algebra calls.now (counted row.items) p.answers.items p.values.items) }
{
    let mut pile = P::on_row(row);
    let answers = play(&mut pile, calls, heap)?;
    settled(answers, pile.drained(), heap)
}

// The values of a home, place by place.
pub fn values<O: Operation, H: Home<O>>(
    home: &mut H,
    heap: Global,
) -> Result<Vec<O::Value>, AllocError>
    ensures value { IfOk result (λ v. v.items ≡ H.Home.meaning home.old) }
    ensures after { H.Home.meaning home.new ≡ H.Home.meaning home.old }
{
    let cells = home.cells();
    let mut values = Vec::with_capacity(heap, cells)?;
    // A home is read by place: it has no list to walk.
    for place in 0..cells {
        let Ok(value) = home.load(place) else {
            unreachable();
        };
        values.push_reserved(value);
    }
    Ok(values)
}

// The cells are read once nothing counts any more.
fn settled<O: Operation>(
    answers: Vec<Answer<O::Value>>,
    bottom: Bare<O>,
    heap: Global,
) -> Result<Outcome<O::Value>, AllocError>
    ensures { IfOk result (λ p. (p.answers ≡ answers) × (p.reached ≡ bottom.counts) × (p.values.items ≡ counted bottom.below.row.items)) }
{
    let (mut cells, reached) = bottom.into_parts();
    let values = values(&mut cells, heap)?;
    Ok(Outcome {
        answers,
        reached,
        values,
    })
}
