// Along the line: what an event that may wake others makes of the rows, and whom it wakes.
#![tactic(auto)]

mod settling;

pub use settling::settle;
