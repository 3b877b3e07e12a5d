// A table out of its service file.
#![tactic(auto)]

ghost use Rattle.std.specs.Prelude.{◌+◌, ◌*◌, ◌≤◌, ◌≡◌, drop, length, replicate};
ghost use Rattle.arbiter.specs.Sound.{sound};
ghost use Rattle.event.specs.Limits.{jobs};
ghost use Rattle.event.specs.Refusals.{outcome_of};
ghost use Rattle.fields.specs.Fields.{Fit};
ghost use Rattle.rows.specs.Order.{idle};
ghost use Rattle.service.specs.File.{head_order, head_size, head_widths, row_size, rows_in, table_of, table_read};
ghost use Rattle.service.specs.Promises.{ReadRow};
ghost use Rattle.loading.specs.Promises.{Loaded};
ghost use Rattle.loading.specs.Taking.{rows_taken, with_left};

use arbiter::{Next, Table};
use decision::Answer;
use event::{JOBS, Refusal};
use pass::survey;
use rows::{Row, Turn, earlier, live};
use service::{FileHead, FileRow, HEAD, ROW, VERSION, head_in, row_in};

// Whether a table is sound.
fn is_sound(t: &Table) -> bool
    ensures { result ≡ sound t.now }
{
    survey(&t.rows, t.bounds(), 0).seen.sound
}

// Row i of a file.
fn row_at(file: &[u8], i: usize) -> FileRow
    requires { head_size + row_size * (i + 1) ≤ length file.now }
    ensures { ReadRow (drop (row_size * i) (drop head_size file.now)) result }
{
    row_in(&file[HEAD + ROW * i..])
}

// This many rows of a file, each at the place of its job in the lent rows. A bit that must be 0 counts before the order of the
// rows, so rows out of order are refused at the end.
fn take_rows(file: &[u8], count: usize, rows: &mut [Row; JOBS]) -> Result<(), Refusal>
    requires room { head_size + row_size * count ≤ length file.now }
    requires idle { rows.old ≡ replicate jobs idle }
    ensures { outcome_of (with_left result rows.new) ≡ rows_taken (rows_in count (drop head_size file.now)) }
{
    let mut fits = true;
    let mut passed = Turn(0);
    for i in 0..count {
        let said = row_at(file, i);
        if 0 < said.zero {
            return Err(Refusal::BitSet);
        }
        let row = Row::from(said);
        let job = said.job as usize;
        // `&` was kept: with `&&` the proof of the loop fell apart by cases
        fits &= earlier(passed, row.turn) & !live(rows[job]);
        passed = row.turn;
        rows[job] = row;
    }
    if fits {
        Ok(())
    } else {
        Err(Refusal::UnsoundTable)
    }
}

// Writes the numbers of a head into a table, beside its rows.
fn take_head(head: FileHead, table: &mut Table)
    requires { Fit (head_order head_widths) (head_order head) }
    ensures { table.new ≡ table_of head table.old.rows }
{
    table.tokens = head.tokens as u32 + 1;
    table.resources = head.resources as u32 + 1;
    table.limit = head.limit as u32;
    table.time = head.time;
    table.last = Turn(head.last);
}

// The table whose file these bytes are, read into a lent one whose rows are idle: to hand it back would copy it once more.
fn read_into(file: &[u8], table: &mut Table) -> Result<(), Refusal>
    requires { table.old.rows ≡ replicate jobs idle }
    ensures { outcome_of (with_left result table.new) ≡ table_read file.now }
{
    if file.len() < HEAD {
        return Err(Refusal::WrongSize);
    }
    let head = head_in(file);
    if head.version != VERSION {
        return Err(Refusal::UnknownVersion);
    }
    let count = head.count as usize;
    if file.len() != HEAD + ROW * count {
        return Err(Refusal::WrongSize);
    }
    if 0 < head.zero {
        return Err(Refusal::BitSet);
    }
    take_rows(file, count, &mut table.rows)?;
    take_head(head, &mut *table);
    if !is_sound(&*table) {
        return Err(Refusal::UnsoundTable);
    }
    Ok(())
}

// The table whose file these bytes are.
pub fn table_in(file: &[u8]) -> Result<Table, Refusal>
    ensures { outcome_of result ≡ table_read file.now }
{
    let mut table = Table::zero();
    read_into(file, &mut table)?;
    Ok(table)
}

// Loads the table whose file these bytes are; a refused load hands back the all-zero table.
pub fn load(file: &[u8]) -> Next
    ensures { Loaded file.now result }
{
    let mut next = Next {
        answer: Ok(Answer::Done),
        table: Table::zero(),
    };
    if let Err(refusal) = read_into(file, &mut next.table) {
        return Next::refused(Table::zero(), refusal);
    }
    next
}
