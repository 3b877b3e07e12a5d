// A table after a record, as `bin/desk at` prints it. For programs only.
#![tactic(auto)]

ghost use Rattle.std.specs.Prelude.{◌≤◌};

use arbiter::{Report, Table};
use asking::{overdue, report};
use event::{JOBS, Tick};
use follow::listed;
use page::{PAGE, put_page};
use pass::survey;
use stream::Printer;
use words::jobs;

// How many ticks there are before they begin again.
const WRAP: u64 = 4_294_967_296;

// A test after its name.
fn answered(printer: &mut Printer<impl Print + Eprint>, name: &[u8], yes: bool)
    ensures { printer.old.failures ≤ printer.new.failures }
{
    printer.text(name);
    if yes {
        printer.text(b" yes");
    } else {
        printer.text(b" no");
    }
}

// What is reported of a job after its number.
fn reported(printer: &mut Printer<impl Print + Eprint>, report: Report)
    ensures { printer.old.failures ≤ printer.new.failures }
{
    printer.word(b": turn ", report.turn.0);
    answered(printer, b", token", report.token);
    answered(printer, b", waiting", report.waiting);
    printer.word(b", ahead ", report.ahead as u64);
    printer.word(b", in the way ", report.in_way as u64);
}

// The line of a live job.
fn job_line(printer: &mut Printer<impl Print + Eprint>, table: &Table, job: u8)
    ensures { printer.old.failures ≤ printer.new.failures }
{
    let Ok(known) = report(table, job as u32) else {
        return;
    };
    printer.word(b"job ", job as u64);
    reported(printer, known);
    printer.text(b"\n");
}

// The lines of the live jobs, in order of turn.
fn job_lines(printer: &mut Printer<impl Print + Eprint>, table: &Table)
    ensures { printer.old.failures ≤ printer.new.failures }
{
    let line = survey(&table.rows, table.bounds(), 0).line;
    for job in line.jobs.iter().take(line.len) {
        job_line(printer, table, *job);
    }
}

// Who is overdue at the time of the table itself.
fn late_line(printer: &mut Printer<impl Print + Eprint>, table: &Table)
    ensures { printer.old.failures ≤ printer.new.failures }
{
    let mut list = [0u8; JOBS];
    let tick = Tick((table.time % WRAP) as u32);
    printer.text(b"overdue: ");
    match overdue(table, tick, &mut list) {
        Ok(0) => printer.text(b"nobody"),
        Ok(count) => jobs(printer, listed(&list, count)),
        Err(_) => {}
    }
    printer.text(b"\n");
}

// The lines of the table itself.
fn page_of(printer: &mut Printer<impl Print + Eprint>, table: &Table)
    ensures { printer.old.failures ≤ printer.new.failures }
{
    let mut page = [0u8; PAGE];
    let Ok(count) = put_page(table, &mut page) else {
        return;
    };
    printer.text(page.get(..count).unwrap_or(b""));
}

// The table after so many records: its lines, what is reported of each live job, and who is overdue.
pub fn print(printer: &mut Printer<impl Print + Eprint>, number: u64, table: &Table)
    ensures { printer.old.failures ≤ printer.new.failures }
{
    printer.word(b"after record ", number);
    printer.word(b": time ", table.time);
    printer.text(b"\n");
    page_of(printer, table);
    job_lines(printer, table);
    late_line(printer, table);
}

// There is no table, since the first record is no accepted start.
pub fn print_none(printer: &mut Printer<impl Print + Eprint>)
    ensures { printer.old.failures ≤ printer.new.failures }
{
    printer.text(b"after record 1: no table\n");
}
