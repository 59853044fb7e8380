// The answers and the counts of a bench in words, as programs print them.
#![tactic(auto)]

ghost use Rattle.std.specs.Prelude.{◌≡◌, Some, IfOk, string_bytes};
ghost use Rattle.wording.specs.Answers.{said, tally};

use model::Answer;
use notation::Shown;
use std::alloc::{AllocError, Global};
use std::fmt;
use tables::Ledger;

#[cfg(test)]
mod tests;

// What is printed of an answer: a refusal by its number, a collect by its value or as done. (A function and no `Display`:
// how a value is written is the operation's, and an answer alone does not know it.)
pub fn answer_text<O: Shown>(answer: Answer<O::Value>, heap: Global) -> Result<String, AllocError>
    ensures { IfOk result (λ s. string_bytes s ≡ said O.Shown.shown answer) }
{
    match answer {
        Answer::Refused(refusal) => {
            let number = refusal.number();
            format!(in heap; "refused {number}")
        }
        Answer::Hit => format!(in heap; "hit"),
        Answer::Queued => format!(in heap; "queued"),
        Answer::Idle => format!(in heap; "idle"),
        Answer::Recall(party) => format!(in heap; "recall {party}"),
        Answer::Evict(way) => format!(in heap; "evict {way}"),
        Answer::Grant(party) => format!(in heap; "grant {party}"),
        Answer::Collected(Some(value)) => {
            let value = O::show(value, heap)?;
            format!(in heap; "value {value}")
        }
        Answer::Collected(None) => format!(in heap; "done"),
        Answer::Yielded => format!(in heap; "yielded"),
        Answer::Settled => format!(in heap; "settled"),
    }
}

// A ledger's counts, to be printed as they stand: no memory is asked for.
#[derive(Clone, Copy)]
pub struct Tally(pub Ledger);

impl fmt::Display for Tally {
    ghost output = { λ t. Some (tally t.0) };

    fn fmt<W: fmt::Write>(&self, f: &mut fmt::Formatter<W>) -> fmt::Result {
        let Ledger {
            hits,
            grants,
            recalls,
            evictions,
            yields,
            ..
        } = self.0;
        write!(
            f,
            "tally hits {hits} grants {grants} recalls {recalls} evictions {evictions} yields {yields}"
        )
    }
}

// The same as a text.
pub fn tally_text(ledger: &Ledger, heap: Global) -> Result<String, AllocError>
    ensures { IfOk result (λ s. string_bytes s ≡ tally ledger.now) }
{
    let counts = Tally(*ledger);
    format!(in heap; "{counts}")
}
