// The calls on tables that are known to be legal.
// Hosts call `protocol`, which audits first; a run, whose tables stay legal, calls these. A post and a collect stand over
// the tables too (`.._over`), for a host that has its home only to read.
#![tactic(auto)]

mod checks;
mod collect;
mod post;
mod relinquish;

pub use answers::{Advanced, Posted};
pub use checks::{check, in_play, in_play_over};
pub use collect::{collect as collect_legal, collect_over as collect_legal_over};
pub use decisions::{decide, find_line};
pub use post::{post as post_legal, post_over as post_legal_over};
pub use relinquish::relinquish as relinquish_legal;
