// Hosts: how a bench is played and its ticket given up. A host that lets its ticket go, or gives it up twice, is
// refused by the check.
#![tactic(auto)]

mod ending;
mod playing;

pub use ending::{Ending, end, end_over};
pub use playing::{play_one, play_slotted};
