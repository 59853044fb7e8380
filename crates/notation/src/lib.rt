// How values and partials are written: as fields of a line, and in a report; and the names of operations.
#![tactic(auto)]

mod kind;
mod notation;
mod number;
mod shown;
#[cfg(test)]
mod tests;

pub use kind::Kind;
pub use notation::Notation;
pub use number::{Misread, read, read_number};
pub use shown::Shown;
