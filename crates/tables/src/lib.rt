// The tables of a bench: lines, directory entries, registers and the ledger, and when they are legal.
#![tactic(auto)]

mod entry;
mod ledger;
mod line;
mod refusal;
mod register;
mod request;

pub use entry::{Entry, Phase};
pub use ledger::{Ledger, Status};
pub use line::Line;
pub use party_set::PartySet;
pub use refusal::Refusal;
pub use register::Register;
pub use request::Request;
