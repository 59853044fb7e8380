// A report on a list of memory calls: the answers, what reached the cells under each pile, and the cells in the end.
#![tactic(auto)]

mod comparison;
mod input;
mod reporting;
mod texts;

pub use comparison::{Comparison, compare};
pub use input::MOST;
pub use reporting::report;
