// What the desk's program says in words: sets, lists of jobs, events and refusals. For programs only.
#![tactic(auto)]

mod entries;
mod lists;
mod refusals;

pub use entries::what;
pub use lists::{jobs, set};
pub use refusals::{reason, refused};
