// What accepted calls answer, and the answer that a call's result stands for.
#![tactic(auto)]

ghost use Rattle.std.specs.Prelude.{◌≡◌};
ghost use Rattle.answers.specs.Answers.{posted, advanced, collected, yielded};

use model::Answer;
use tables::Refusal;

// A post is finished at once by a line of its party, or waits in its register.
#[derive(Clone, Copy, PartialEq, Eq, Debug)]
pub enum Posted {
    Hit,
    Queued,
}

// What an advance did: nothing, since nobody waits; sent home the line of a party; sent home a way of the
// party that it serves; or finished the request of a party.
#[derive(Clone, Copy, PartialEq, Eq, Debug)]
pub enum Advanced {
    Idle,
    Recall(usize),
    Evict(usize),
    Grant(usize),
}

// The four functions that follow share the arm of a refusal, and no more: each call has answers of its own, and a
// generic one would promise a relation where these name the answer.

// What a post returned, as an answer.
pub fn of_post<V: Copy>(res: Result<Posted, Refusal>) -> Answer<V>
    ensures { result ≡ posted res }
{
    match res {
        Ok(Posted::Hit) => Answer::Hit,
        Ok(Posted::Queued) => Answer::Queued,
        Err(refusal) => Answer::Refused(refusal),
    }
}

// What an advance returned, as an answer.
pub fn of_advance<V: Copy>(res: Result<Advanced, Refusal>) -> Answer<V>
    ensures { result ≡ advanced res }
{
    match res {
        Ok(Advanced::Idle) => Answer::Idle,
        Ok(Advanced::Recall(party)) => Answer::Recall(party),
        Ok(Advanced::Evict(way)) => Answer::Evict(way),
        Ok(Advanced::Grant(party)) => Answer::Grant(party),
        Err(refusal) => Answer::Refused(refusal),
    }
}

// What a collect returned, as an answer.
pub fn of_collect<V: Copy>(res: Result<Option<V>, Refusal>) -> Answer<V>
    ensures { result ≡ collected res }
{
    match res {
        Ok(value) => Answer::Collected(value),
        Err(refusal) => Answer::Refused(refusal),
    }
}

// What a yield returned, as an answer.
pub fn of_yield<V: Copy>(res: Result<(), Refusal>) -> Answer<V>
    ensures { result ≡ yielded res }
{
    match res {
        Ok(()) => Answer::Yielded,
        Err(refusal) => Answer::Refused(refusal),
    }
}
