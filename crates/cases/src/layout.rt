// A case in its bytes, numbers most significant byte first: the call, what is handed to it, how long the lent list is, and
// the table: its own numbers, then each job's row.
ghost use Rattle.std.specs.Prelude.{◌<◌, ◌≡◌};
ghost use Rattle.event.specs.Limits.{jobs};
ghost use Rattle.fields.specs.Promises.{IsField};
ghost use Rattle.cases.specs.Layout.{CaseIn, InCase, RowsIn, TableIn, row_at};

use arbiter::Table;
use event::{JOBS, Tick};
use rows::{Row, Turn};

// How wide the fields before the rows are, in bits.
const CALL_WIDTH: u32 = 8;

const JOB_WIDTH: u32 = 32;

const TICK_WIDTH: u32 = 32;

const SET_WIDTH: u32 = 64;

const LENGTH_WIDTH: u32 = 16;

const TOKENS_WIDTH: u32 = 8;

const RESOURCES_WIDTH: u32 = 8;

const LIMIT_WIDTH: u32 = 32;

const TIME_WIDTH: u32 = 64;

const LAST_WIDTH: u32 = 64;

// The bit at which each begins: where the one before it ends.
const CALL_AT: usize = 0;

const JOB_AT: usize = CALL_AT + CALL_WIDTH as usize;

const TICK_AT: usize = JOB_AT + JOB_WIDTH as usize;

const SET_AT: usize = TICK_AT + TICK_WIDTH as usize;

const LENGTH_AT: usize = SET_AT + SET_WIDTH as usize;

const TOKENS_AT: usize = LENGTH_AT + LENGTH_WIDTH as usize;

const RESOURCES_AT: usize = TOKENS_AT + TOKENS_WIDTH as usize;

const LIMIT_AT: usize = RESOURCES_AT + RESOURCES_WIDTH as usize;

const TIME_AT: usize = LIMIT_AT + LIMIT_WIDTH as usize;

const LAST_AT: usize = TIME_AT + TIME_WIDTH as usize;

// The bit at which the rows begin.
const ROWS_AT: usize = LAST_AT + LAST_WIDTH as usize;

// How wide each field of a row is.
const WORD: u32 = 64;

// The bit of its row at which each begins.
const TURN_AT: usize = 0;

const DECLARED_AT: usize = TURN_AT + WORD as usize;

const HELD_AT: usize = DECLARED_AT + WORD as usize;

const ASKED_AT: usize = HELD_AT + WORD as usize;

const SINCE_AT: usize = ASKED_AT + WORD as usize;

// How wide a row is.
const ROW_WIDTH: usize = SINCE_AT + WORD as usize;

// How many bytes a case has.
pub const CASE: usize = (ROWS_AT + JOBS * ROW_WIDTH) / 8;

// A call's number, what is handed to the call, and how long the lent list is.
#[derive(Clone, Copy)]
pub struct Case {
    pub call: u8,
    pub job: u32,
    pub tick: Tick,
    pub set: u64,
    pub length: u16,
}

// The field of that width that starts at that bit.
fn field(bytes: &[u8; CASE], at: usize, width: u32) -> u64
    requires { InCase at width }
    ensures { IsField bytes.now at width result }
{
    fields::read(bytes, at, width)
}

// The row of a job.
fn row_at(bytes: &[u8; CASE], job: usize) -> Row
    requires { job < jobs }
    ensures { result ≡ row_at bytes.now job }
{
    let at = ROWS_AT + job * ROW_WIDTH;
    Row {
        turn: Turn(field(bytes, at + TURN_AT, WORD)),
        declared: field(bytes, at + DECLARED_AT, WORD),
        held: field(bytes, at + HELD_AT, WORD),
        asked: field(bytes, at + ASKED_AT, WORD),
        since: field(bytes, at + SINCE_AT, WORD),
    }
}

// The rows of all jobs.
fn rows_of(bytes: &[u8; CASE]) -> [Row; JOBS]
    ensures { RowsIn bytes.now result }
{
    // `array::from_fn` was tried: of what its closure holds at a later call nothing is known
    let mut rows = [rows::idle(); JOBS];
    for (job, row) in rows.iter_mut().enumerate() {
        *row = row_at(bytes, job);
    }
    rows
}

// The table.
pub fn table_of(bytes: &[u8; CASE]) -> Table
    ensures { TableIn bytes.now result }
{
    Table {
        tokens: field(bytes, TOKENS_AT, TOKENS_WIDTH) as u32,
        resources: field(bytes, RESOURCES_AT, RESOURCES_WIDTH) as u32,
        limit: field(bytes, LIMIT_AT, LIMIT_WIDTH) as u32,
        time: field(bytes, TIME_AT, TIME_WIDTH),
        last: Turn(field(bytes, LAST_AT, LAST_WIDTH)),
        rows: rows_of(bytes),
    }
}

// What stands before the table.
pub fn case_of(bytes: &[u8; CASE]) -> Case
    ensures { CaseIn bytes.now result }
{
    Case {
        call: field(bytes, CALL_AT, CALL_WIDTH) as u8,
        job: field(bytes, JOB_AT, JOB_WIDTH) as u32,
        tick: Tick(field(bytes, TICK_AT, TICK_WIDTH) as u32),
        set: field(bytes, SET_AT, SET_WIDTH),
        length: field(bytes, LENGTH_AT, LENGTH_WIDTH) as u16,
    }
}
