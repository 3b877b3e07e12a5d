// The rows of a table, and the one order among them: the order of opening.
#![tactic(auto)]

mod row;
mod scan;
mod stand;

pub use row::{Row, Turn, earlier, idle, live};
pub use scan::live_count;
pub use stand::{Standing, behind, front, token, waiting};
