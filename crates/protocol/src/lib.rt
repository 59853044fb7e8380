// The calls of a bench, for hosts. Every call takes any tables and any numbers: it checks first, in rising order of
// the refusals' numbers, and either refuses and leaves all as it was, or does exactly one step.
#![tactic(auto)]

mod calls;
mod over;

pub use bench::Bench;
pub use calls::{advance, collect, post, relinquish, settle};
pub use over::{collect_over, post_over, settle_over};
pub use settlement::{Ticket, Unsettled, abandon, abandon_bench, make, make_over};
