// How a bench begins and ends: the ticket, the make that issues it, and the settle and the abandon that spend it.
// The settle here is on tables that are known to be legal; hosts call that of `protocol`, which audits first.
#![tactic(auto)]

mod ending;
mod making;
mod settling;
mod ticket;

pub use ending::{abandon, abandon_bench};
pub use making::{make, make_over, makeable, makeable_over};
pub use settling::{settle_legal, settle_legal_over};
pub use ticket::{Ticket, Unsettled};
