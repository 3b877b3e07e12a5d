// A recording as a value change dump, as `bin/desk wave` prints it. For programs only.
#![tactic(auto)]

mod changes;
mod dump;
mod header;
mod variables;

pub use changes::{Trace, end};
pub use header::first;
