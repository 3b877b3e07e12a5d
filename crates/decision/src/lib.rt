// What an event comes to, decided on numbers and one row.
#![tactic(auto)]

mod answer;
mod deciding;

pub use answer::Answer;
pub use deciding::{Change, decide};
