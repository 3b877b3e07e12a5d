// The answer to an accepted event. A later case goes at the end.
#[derive(Clone, Copy, Debug, PartialEq, Eq)]
pub enum Answer {
    Token,
    Granted,
    Wait,
    Done,
    Woke(u32),
}
