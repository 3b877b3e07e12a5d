// The table, and what the calls on it answer. What firmware holds is laid out as in C (`repr(C)`).
ghost use Rattle.std.specs.Prelude.{Err, ◌≡◌};
ghost use Rattle.arbiter.specs.Bounded.{bounds_of};
ghost use Rattle.arbiter.specs.Meaning.{no_table};

use decision::Answer;
use event::{JOBS, Refusal};
use rows::{Row, Turn, idle};
use soundness::Bounds;

// T, R, the waiting limit in ms, the true time, the last turn given, and a row for each job.
#[repr(C)]
#[derive(Clone, Copy)]
pub struct Table {
    pub tokens: u32,
    pub resources: u32,
    pub limit: u32,
    pub time: u64,
    pub last: Turn,
    pub rows: [Row; JOBS],
}

// An answer, or why there is none, and the next table.
#[derive(Clone, Copy)]
pub struct Next {
    pub answer: Result<Answer, Refusal>,
    pub table: Table,
}

// What a report says about a live request.
#[repr(C)]
#[derive(Clone, Copy)]
pub struct Report {
    pub turn: Turn,
    pub token: bool,
    pub waiting: bool,
    pub ahead: u32,
    pub in_way: u32,
}

impl Next {
    // A refusal: the table is as it was.
    pub fn refused(table: Table, refusal: Refusal) -> Next
        ensures { result ≡ record { answer = Err refusal; table = table } }
    {
        Next {
            answer: Err(refusal),
            table,
        }
    }
}

impl Table {
    // The all-zero table, which is not sound. A refused start gives it.
    pub fn zero() -> Table
        ensures { result ≡ no_table }
    {
        Table {
            tokens: 0,
            resources: 0,
            limit: 0,
            time: 0,
            last: Turn(0),
            rows: [idle(); JOBS],
        }
    }

    // The numbers of a table.
    pub fn bounds(&self) -> Bounds
        ensures { result ≡ bounds_of self.now }
    {
        Bounds {
            tokens: self.tokens,
            resources: self.resources,
            limit: self.limit,
            time: self.time,
            last: self.last,
        }
    }
}
