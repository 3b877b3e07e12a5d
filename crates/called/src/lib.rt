// What the call of a case leaves: the line of what it says, what is shown after that, and the table.
#![tactic(auto)]

mod lines;
mod made;

pub use lines::{Line, NUMBERS, Word};
pub use made::{Left, Part, left_by};
