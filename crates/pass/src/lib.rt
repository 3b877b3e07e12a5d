// One pass over all rows: the live jobs are put in line, and along the line each row is tested beside what stands before
// it. What the acting job's row is, and what stands before it, is found on the way.
#![tactic(auto)]

mod known;
mod whole;

pub use known::Survey;
pub use whole::survey;
