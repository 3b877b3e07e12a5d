// Questions that are answered along the line: who is in the way, who is overdue, and whoever passes a test.
#![tactic(auto)]

mod along;

pub use along::{in_way, list_late, list_where};
