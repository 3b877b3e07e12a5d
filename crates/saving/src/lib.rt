// A table into its service file.
#![tactic(auto)]

ghost use Rattle.std.specs.Prelude.{◌*◌, ◌≤◌, ◌≡◌, length};
ghost use Rattle.service.specs.File.{head_of, row_size, rows_bytes, rows_said, say_row};
ghost use Rattle.laws.specs.Front.{over};
ghost use Rattle.line.specs.LineInCode.{Lines};
ghost use Rattle.rows.specs.Line.{line};
ghost use Rattle.saving.specs.Promises.{SavedInto};

use arbiter::Table;
use event::{JOBS, Refusal};
use line::Line;
use pass::survey;
use rows::Row;
use service::{FileHead, FileRow, HEAD, ROW, VERSION, put_head, put_row};

// What the head says of a table with this many live rows.
fn head_of(t: &Table, count: usize) -> FileHead
    requires { (1 ≤ t.now.tokens) × (1 ≤ t.now.resources) × (count ≡ length (line t.now.rows)) }
    ensures { result ≡ head_of t.now }
{
    FileHead {
        version: VERSION,
        tokens: t.tokens as u64 - 1,
        resources: t.resources as u64 - 1,
        limit: t.limit as u64,
        time: t.time,
        last: t.last.0,
        count: count as u64,
        zero: 0,
    }
}

// What is said of a job's row.
fn say_row(job: u8, row: &Row) -> FileRow
    ensures { result ≡ say_row job row.now }
{
    FileRow {
        job: job as u64,
        turn: row.turn.0,
        declared: row.declared,
        held: row.held,
        asked: row.asked,
        since: row.since,
        zero: 0,
    }
}

// Writes the rows of a line, one after the other, at the front of the room.
fn put_rows(rows: &[Row; JOBS], along: &Line, room: &mut [u8])
    requires { Lines rows.now along.now × (row_size * length (line rows.now) ≤ length room.old) }
    ensures { room.new ≡ over (rows_bytes (rows_said rows.now (line rows.now))) room.old }
{
    for (i, &job) in along.jobs[..along.len].iter().enumerate() {
        put_row(say_row(job, &rows[job as usize]), &mut room[ROW * i..]);
    }
}

// Writes the file of a table at the front of the room. What comes after it is kept; a refusal keeps all.
pub fn save(t: &Table, room: &mut [u8]) -> Result<u32, Refusal>
    ensures { SavedInto t.now room.old result room.new }
{
    let surveyed = survey(&t.rows, t.bounds(), 0);
    if !surveyed.seen.sound {
        return Err(Refusal::UnsoundTable);
    }
    let line = surveyed.line;
    let size = HEAD + ROW * line.len;
    if room.len() < size {
        return Err(Refusal::WrongSize);
    }
    put_head(head_of(t, line.len), room);
    put_rows(&t.rows, &line, &mut room[HEAD..]);
    Ok(size as u32)
}
