// An advance on tables that are known to be legal: the decision, and then the action.
#![tactic(auto)]

mod advance;

pub use advance::advance as advance_legal;
