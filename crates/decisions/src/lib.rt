// What an advance does next. (Functions over the tables alone, so that a host that has them only to read can ask too.)
#![tactic(auto)]

mod decision;
mod turn;

pub use bench::{entry_at, find_line, is_free, line_at, register_at, set_register};
pub use decision::decide;
pub use turn::next_waiting;
