// Tables, printed, and all that a call leaves.
ghost use Rattle.std.specs.Prelude.{◌≤◌};

use crate::print;
use arbiter::Table;
use called::{Left, Part};
use event::JOBS;
use rows::Row;
use stream::Printer;

// Whether the numbers of a row are all 0.
fn blank(row: &Row) -> bool {
    [row.turn.0, row.declared, row.held, row.asked, row.since] == [0; 5]
}

// A job and the numbers of its row.
fn show_row(printer: &mut Printer<impl Print + Eprint>, job: u64, row: &Row)
    ensures { printer.old.failures ≤ printer.new.failures }
{
    printer.word(b" ", job);
    printer.word(b":", row.turn.0);
    for number in [row.declared, row.held, row.asked, row.since] {
        printer.word(b",", number);
    }
}

// The rows that are not all 0.
fn rows(printer: &mut Printer<impl Print + Eprint>, rows: &[Row; JOBS])
    ensures { printer.old.failures ≤ printer.new.failures }
{
    for (job, row) in rows.iter().enumerate() {
        if !blank(row) {
            show_row(printer, job as u64, row);
        }
    }
}

// The beginning of a table's line: the numbers before the rows.
fn head(printer: &mut Printer<impl Print + Eprint>, table: &Table)
    ensures { printer.old.failures ≤ printer.new.failures }
{
    printer.text(b"\ntable");
    printer.word(b" ", table.tokens as u64);
    printer.word(b" ", table.resources as u64);
    printer.word(b" ", table.limit as u64);
    printer.word(b" ", table.time);
    printer.word(b" ", table.last.0);
}

// The line of a table.
fn table(printer: &mut Printer<impl Print + Eprint>, table: &Table)
    ensures { printer.old.failures ≤ printer.new.failures }
{
    head(printer, table);
    rows(printer, &table.rows);
}

// A part of what a call leaves. A match, since a part is data that `left_by` promises.
fn show_part(printer: &mut Printer<impl Print + Eprint>, part: Part, list: &[u8], after: &Table)
    ensures { printer.old.failures ≤ printer.new.failures }
{
    match part {
        Part::Nothing => {}
        Part::List => print::list(printer, list),
        Part::Table => table(printer, after),
    }
}

// All that a call leaves, after the number of its case.
pub fn show(printer: &mut Printer<impl Print + Eprint>, left: &Left, list: &[u8])
    ensures { printer.old.failures ≤ printer.new.failures }
{
    print::line(printer, &left.line);
    show_part(printer, left.then, list, &left.table);
    show_part(printer, left.last, list, &left.table);
    printer.text(b"\n");
}
