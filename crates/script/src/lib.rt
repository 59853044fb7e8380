// The reader of scripts: from a script's bytes to the bench of its first line and the calls of the others.
#![tactic(auto)]

mod calls;
mod cuts;
mod faults;
mod fields;
mod heads;
mod lines;
mod numbers;
mod reading;
mod scripted;
#[cfg(test)]
mod tests;
mod words;

pub use faults::{Cause, FieldFault, LineFault, PlayFault, Wrong};
pub use heads::Head;
pub use lines::Line;
pub use notation::Kind;
pub use reading::{Reading, read_calls, read_head};
pub use scripted::Scripted;
pub use words::{Ranking, Vocabulary};
