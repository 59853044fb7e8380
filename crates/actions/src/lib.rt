// The actions that the calls are made of: a line goes home, a request is granted.
#![tactic(auto)]

mod actions;
mod granting;
mod send;

pub use actions::{evict, grant, recall};
pub use granting::answer_to;
pub use send::{send_home, send_line, yield_line};
