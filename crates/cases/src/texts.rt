// Calls and lines as text: what is printed of a case.
ghost use Rattle.std.specs.Prelude.{Some, decimal};
ghost use Rattle.wording.specs.Answers.{said};

use super::calls::Call;
use model::Answer;
use operation::{Count, Delta};
use std::fmt;
use tables::{Line, Request};

impl fmt::Display for Call {
    fn fmt<W: fmt::Write>(&self, f: &mut fmt::Formatter<W>) -> fmt::Result {
        match self {
            Call::Post(party, request) => {
                let asked = Asked(*request);
                write!(f, "post {party} {asked}")
            }
            Call::Advance(cell) => write!(f, "advance {cell}"),
            Call::Collect(party) => write!(f, "collect {party}"),
            Call::Yield(party, cell) => write!(f, "yield {party} {cell}"),
        }
    }
}

// A request, to be printed.
#[derive(Drop)]
struct Asked(Request<Count, Delta>);

impl fmt::Display for Asked {
    fn fmt<W: fmt::Write>(&self, f: &mut fmt::Formatter<W>) -> fmt::Result {
        match &self.0 {
            Request::Read { cell } => write!(f, "read {cell}"),
            Request::Write { cell, value } => {
                let value = value.get();
                write!(f, "write {cell} value {value}")
            }
            Request::Update { cell, partial } => {
                let by = partial.get();
                write!(f, "update {cell} by {by}")
            }
        }
    }
}

// An answer, to be printed as it stands: no memory is asked for, so no answer is lost for want of it once its call is made.
#[derive(Drop)]
pub struct Said(pub Answer<Count>);

impl fmt::Display for Said {
    ghost output = { λ s. Some (said (λ count. decimal count.bits) s.0) };

    fn fmt<W: fmt::Write>(&self, f: &mut fmt::Formatter<W>) -> fmt::Result {
        match &self.0 {
            Answer::Refused(refusal) => {
                let number = refusal.number();
                write!(f, "refused {number}")
            }
            Answer::Hit => f.write_str("hit"),
            Answer::Queued => f.write_str("queued"),
            Answer::Idle => f.write_str("idle"),
            Answer::Recall(party) => write!(f, "recall {party}"),
            Answer::Evict(way) => write!(f, "evict {way}"),
            Answer::Grant(party) => write!(f, "grant {party}"),
            Answer::Collected(Some(value)) => {
                let value = value.get();
                write!(f, "value {value}")
            }
            Answer::Collected(None) => f.write_str("done"),
            Answer::Yielded => f.write_str("yielded"),
            Answer::Settled => f.write_str("settled"),
        }
    }
}

// A line, to be printed.
#[derive(Drop)]
pub struct Held(pub Line<Count, Delta>);

impl fmt::Display for Held {
    fn fmt<W: fmt::Write>(&self, f: &mut fmt::Formatter<W>) -> fmt::Result {
        match &self.0 {
            Line::Invalid => f.write_str("invalid"),
            Line::Shared { cell, value } => {
                let value = value.get();
                write!(f, "shared {cell} value {value}")
            }
            Line::UpdateOnly { cell, partial } => {
                let by = partial.get();
                write!(f, "update-only {cell} by {by}")
            }
            Line::Modified { cell, value } => {
                let value = value.get();
                write!(f, "modified {cell} value {value}")
            }
        }
    }
}

// What a make, or a call of a home, comes to, as it is printed. A `Result` would have to name a refusal's type, and there
// are two, so a refusal is here by its number.
#[derive(Clone, Copy)]
pub enum Reply {
    Done,
    Value(u32),
    Refused(u8),
}

impl fmt::Display for Reply {
    fn fmt<W: fmt::Write>(&self, f: &mut fmt::Formatter<W>) -> fmt::Result {
        match self {
            Reply::Done => f.write_str("done"),
            Reply::Value(value) => write!(f, "value {value}"),
            Reply::Refused(number) => write!(f, "refused {number}"),
        }
    }
}
