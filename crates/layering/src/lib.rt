// Piles of memory layers: a layer that counts, and the playing of calls on any pile.
#![tactic(auto)]

mod calls;
mod counting;

pub use calls::{Answer, Call, perform, play};
pub use counting::{Counting, Counts};
