// The text of a replay, byte for byte: a line for each record of a recording, and the last line.
#![tactic(auto)]

mod replay;

pub use replay::{LINE, NotTaken, Replay};
