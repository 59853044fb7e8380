// Whole runs of a bench: a make and a list of calls, with the laws that hold of every run.
#![tactic(auto)]

mod playing;
mod taking;

pub use playing::{Played, Unplayed, run};
