// What the drive says to the arbiter, and the time, the limits and the refusals that go with it.
#![tactic(auto)]

mod clock;
mod events;
mod limits;
mod refusal;

pub use clock::{Tick, forward};
pub use events::{Entry, Event, Kind, Parts, Shape, Start};
pub use limits::{HIGHEST, JOBS, MOST};
pub use refusal::Refusal;
