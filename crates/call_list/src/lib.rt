// Lists of memory calls as text, read into calls.
#![tactic(auto)]

mod faults;
mod fields;
mod script;

pub use faults::{Fault, Reason, Stop};
pub use script::{read_call, read_calls, read_head};
