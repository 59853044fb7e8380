// A whole run.
ghost use Rattle.std.specs.Prelude.{◌≡◌, ◌≤◌, true, [], length, vec_len, vec_capacity, MatchResult, OnErr};
ghost use Rattle.tables.specs.Ledgers.{is_open};
ghost use Rattle.model.specs.Steps.{events, final};
ghost use Rattle.bench.specs.Lent.{InOrder, SameLoans, seen, terms};
ghost use Rattle.history.specs.Runs.{Ran, Spared, answers_of, held};
ghost use Rattle.history.specs.declared.playing.Unplayed.TheVariants.{Refused, OutOfMemory};

use super::taking::take;
use bench::Bench;
use memory::Home;
use model::{Answer, Call};
use operation::Operation;
use settlement::{Ticket, make, makeable};
use std::alloc::{AllocError, Global};
use tables::Refusal;
use victim::Victim;

// What a run gives: the answers, one for each call, and the ticket if no settle was accepted.
pub struct Played<V> {
    pub answers: Vec<Answer<V>>,
    pub ticket: Option<Ticket>,
}

// Why a run did not take place. All is as it was.
#[derive(Clone, Copy, PartialEq, Eq, Debug)]
pub enum Unplayed {
    // The bench was not made.
    Refused(Refusal),
    // The bench could be made, but there is no memory for the answers.
    OutOfMemory,
}

impl From<Refusal> for Unplayed {
    ghost from_gives = { λ refusal r. r ≡ Refused refusal };

    fn from(refusal: Refusal) -> Unplayed {
        Unplayed::Refused(refusal)
    }
}

impl From<AllocError> for Unplayed {
    ghost from_gives = { λ _ r. r ≡ OutOfMemory };

    fn from(_none: AllocError) -> Unplayed {
        Unplayed::OutOfMemory
    }
}

// Plays the calls on a bench that is in play. There is room for their answers.
fn play_all<O: Operation, H: Home<O>, R: Victim>(
    bench: &mut Bench<'_, O, H, R>,
    ticket: Ticket,
    calls: &[Call<O::Value, O::Partial>],
    mut answers: Vec<Answer<O::Value>>,
) -> Played<O::Value>
    requires in_order { InOrder bench.old }
    requires unsettled { is_open bench.old.ledger.now ≡ true }
    requires room { (answers.items ≡ []) × ((vec_len answers ≡ 0) × (length calls.now ≤ vec_capacity answers)) }
    ensures answers { result.answers.items ≡ answers_of (events (terms O.Operation.algebra R.Victim.rule H.Home.meaning bench.old) (seen H.Home.meaning bench.old) calls.now) }
    ensures state { seen H.Home.meaning bench.new ≡ final (terms O.Operation.algebra R.Victim.rule H.Home.meaning bench.old) (seen H.Home.meaning bench.old) calls.now }
    ensures ticket { held result.ticket ≡ is_open bench.new.ledger.now }
    ensures in_order { InOrder bench.new }
    ensures lent { SameLoans bench.old bench.new }
{
    let mut ticket = Some(ticket);
    for call in calls {
        let (kept, answer) = take(bench, ticket, *call);
        ticket = kept;
        answers.push_reserved(answer);
    }
    Played { answers, ticket }
}

// Makes a bench over the lent tables and plays the calls on it, one after the other.
// Whatever the calls, the laws over runs hold of them and their answers.
pub fn run<O: Operation, H: Home<O>, R: Victim>(
    bench: &mut Bench<'_, O, H, R>,
    calls: &[Call<O::Value, O::Partial>],
    heap: Global,
) -> Result<Played<O::Value>, Unplayed>
    ensures ran { MatchResult result (λ p. Ran O.Operation.algebra R.Victim.rule bench.old.ways (seen H.Home.meaning bench.old) (seen H.Home.meaning bench.new) calls.now p.answers.items p.ticket) (λ e. Spared O.Operation.algebra R.Victim.rule bench.old.ways (seen H.Home.meaning bench.old) (seen H.Home.meaning bench.new) e) }
    ensures home { OnErr result (bench.new.home.now ≡ bench.old.home.now) }
    ensures lent { SameLoans bench.old bench.new }
{
    makeable(bench)?;
    let answers = Vec::with_capacity(heap, calls.len())?;
    let ticket = make(bench)?;
    Ok(play_all(bench, ticket, calls, answers))
}
