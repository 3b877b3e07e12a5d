// What decisions are made from.
use rows::{Row, Turn};

// What a call about a job sees of a table: whether it is sound, the numbers that refusals go by, the job's row, and
// whether its turn holds a token.
#[derive(Clone, Copy)]
pub struct Seen {
    // A flag: refusal 3 is one of the grounds (`entry_cases`), and the theorems speak of `s.sound`.
    pub sound: bool,
    pub resources: u32,
    pub time: u64,
    pub last: Turn,
    pub row: Row,
    pub token: bool,
}
