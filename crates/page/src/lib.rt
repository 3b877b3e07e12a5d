// The page of a table: a line of its numbers, then a line for each live row, put into a lent room.
#![tactic(auto)]

ghost use Rattle.std.specs.Prelude.{◌+◌, ◌*◌, ◌≤◌, ◌≡◌, length};
ghost use Rattle.event.specs.Limits.{jobs};
ghost use Rattle.line.specs.LineInCode.{Lines};
ghost use Rattle.lines.specs.Lines.{items};
ghost use Rattle.lines.specs.Texts.{Puts, Room};
ghost use Rattle.rows.specs.Line.{line};
ghost use Rattle.page.specs.Page.{head_line, head_room, live_lines, number_room, row_line, row_room, word_and_numbers, word_and_numbers_room};
ghost use Rattle.page.specs.Promises.{PutPage};

use arbiter::Table;
use event::{JOBS, Refusal};
use line::Line;
use lines::Text;
use pass::survey;
use rows::Row;

// The room that the longest page takes: "table" and six numbers, then for each job "row" and six numbers; each number
// takes a space and at most 20 digits.
pub const PAGE: usize = 132 + 130 * JOBS;

// Puts a space before each number.
fn put_numbers(page: &mut Text, numbers: &[u64])
    requires { Room page.old (number_room * length numbers.now) }
    ensures puts { Puts page.old (items numbers.now) page.new }
    ensures upper_bound { page.new.at ≤ page.old.at + number_room * length numbers.now }
{
    for &n in numbers {
        page.word(b" ", n);
    }
}

// Puts a line: a word, and a space before each number.
pub fn put_word_and_numbers(page: &mut Text, word: &[u8], numbers: &[u64])
    requires { Room page.old (word_and_numbers_room (length word.now) (length numbers.now)) }
    ensures puts { Puts page.old (word_and_numbers word.now numbers.now) page.new }
    ensures upper_bound { page.new.at ≤ page.old.at + word_and_numbers_room (length word.now) (length numbers.now) }
{
    page.put(word);
    put_numbers(page, numbers);
    page.put(b"\n");
}

// Puts the first line of a table with this many live rows.
fn put_head(page: &mut Text, t: &Table, live: usize)
    requires live_value { live ≡ length (line t.now.rows) }
    requires room { Room page.old head_room }
    ensures puts { Puts page.old (head_line t.now) page.new }
    ensures upper_bound { page.new.at ≤ page.old.at + head_room }
{
    let numbers = [
        t.tokens as u64,
        t.resources as u64,
        t.limit as u64,
        t.time,
        t.last.0,
        live as u64,
    ];
    put_word_and_numbers(page, b"table", &numbers);
}

// Puts the line of a job's row.
fn put_row(page: &mut Text, job: u8, row: &Row)
    requires { Room page.old row_room }
    ensures puts { Puts page.old (row_line job row.now) page.new }
    ensures upper_bound { page.new.at ≤ page.old.at + row_room }
{
    let numbers = [
        job as u64,
        row.turn.0,
        row.declared,
        row.held,
        row.asked,
        row.since,
    ];
    put_word_and_numbers(page, b"row", &numbers);
}

// Puts the lines of the live rows, in order of turn.
fn put_rows(page: &mut Text, rows: &[Row; JOBS], line: &Line)
    requires lines { Lines rows.now line.now }
    requires room { Room page.old (row_room * jobs) }
    ensures { Puts page.old (live_lines rows.now) page.new }
{
    for &job in &line.jobs[..line.len] {
        put_row(page, job, &rows[job as usize]);
    }
}

// Puts the page of a table at the front of out. What comes after it is kept; a refusal keeps all.
pub fn put_page(table: &Table, out: &mut [u8]) -> Result<usize, Refusal>
    ensures { PutPage table.now out.old result out.new }
{
    let surveyed = survey(&table.rows, table.bounds(), 0);
    if !surveyed.seen.sound {
        return Err(Refusal::UnsoundTable);
    }
    if out.len() < PAGE {
        return Err(Refusal::WrongSize);
    }
    let mut page = Text { out, at: 0 };
    put_head(&mut page, table, surveyed.line.len);
    put_rows(&mut page, &table.rows, &surveyed.line);
    Ok(page.at)
}
