// The bench as mathematics: its state, what each call does to it, the reference memory, and the laws over runs.
// There is no code here but the calls, the answers and the decision that the laws and the steps speak of.
#![tactic(auto)]

mod answer;
mod call;
mod next;

pub use answer::Answer;
pub use call::Call;
pub use next::Next;
