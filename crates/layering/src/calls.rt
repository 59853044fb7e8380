// Calls of a memory as data, and their play on any home.
ghost use Rattle.std.specs.Prelude.{◌≡◌, MatchResult};
ghost use Rattle.layering.specs.Plays.{answer, of_change, after, Played};

use memory::{Home, Refusal};
use operation::Operation;
use std::alloc::{AllocError, Global};

// A call of a home, over its kinds of values and of partials.
#[derive(Clone, Copy)]
pub enum Call<V, P> {
    Load { place: usize },
    Store { place: usize, value: V },
    Apply { place: usize, partial: P },
}

// What a call answered. (No `Result<Option<V>, Refusal>`: a play keeps an answer for each call, and that is half as large
// again.)
#[derive(Clone, Copy, PartialEq, Eq, Debug)]
pub enum Answer<V> {
    // Of a load.
    Value(V),
    // Of a store or an apply.
    Done,
    Refused(Refusal),
}

// Makes one call.
pub fn perform<O: Operation, H: Home<O>>(
    home: &mut H,
    call: &Call<O::Value, O::Partial>,
) -> Answer<O::Value>
    ensures value { result ≡ answer call.now (H.Home.meaning home.old) }
    ensures after { H.Home.meaning home.new ≡ after O.Operation.algebra call.now (H.Home.meaning home.old) }
{
    match call {
        Call::Load { place } => match home.load(*place) {
            Ok(value) => Answer::Value(value),
            Err(refusal) => Answer::Refused(refusal),
        },
        Call::Store { place, value } => change_answer(home.store(*place, *value)),
        Call::Apply { place, partial } => change_answer(home.apply(*place, *partial)),
    }
}

// Plays the calls in their order. The answers, and the values afterwards, are those of a plain list with the home's values:
// so any two homes that start with the same values agree.
// Memory for the answers is taken first: where there is none, no call was made.
pub fn play<O: Operation, H: Home<O>>(
    home: &mut H,
    calls: &[Call<O::Value, O::Partial>],
    heap: Global,
) -> Result<Vec<Answer<O::Value>>, AllocError>
    ensures { MatchResult result (λ v. Played O.Operation.algebra calls.now (H.Home.meaning home.old) v.items (H.Home.meaning home.new)) (λ _. home.new ≡ home.old) }
{
    let mut answers = Vec::with_capacity(heap, calls.len())?;
    for call in calls {
        answers.push_reserved(perform(home, call));
    }
    Ok(answers)
}

// The answer of a store or an apply.
fn change_answer<V>(outcome: Result<(), Refusal>) -> Answer<V>
    ensures { result ≡ of_change outcome }
{
    match outcome {
        Ok(()) => Answer::Done,
        Err(refusal) => Answer::Refused(refusal),
    }
}
