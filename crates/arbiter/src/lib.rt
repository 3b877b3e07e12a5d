// The arbiter: a table of locking requests, the events that change it, and the answers to questions about it.
#![tactic(auto)]

mod calls;
mod lent;
mod table;

pub use lent::found;
pub use table::{Next, Report, Table};
