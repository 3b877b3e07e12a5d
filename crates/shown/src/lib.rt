// How the program probe shows what a call leaves: the line of what it says, the lent list and the table.
#![tactic(auto)]

mod print;
mod tables;

pub use print::CUT;
pub use tables::show;
