// The figures, printed.
ghost use Rattle.std.specs.Prelude.{◌≤◌};

use crate::sheet::{Figures, JobFigures, NUMBERS, Overdue, Stamp};
use arbiter::Table;
use event::Refusal;
use follow::{State, state_of};
use stream::Printer;
use words::reason;

// How many ticks there are before they begin again.
const WRAP: u64 = 4_294_967_296;

// How often records were refused so, if they were.
fn refusals(printer: &mut Printer<impl Print + Eprint>, refusal: Refusal, count: u64)
    ensures { printer.old.failures ≤ printer.new.failures }
{
    if count == 0 {
        return;
    }
    printer.word(b"refused as ", u32::from(refusal) as u64);
    printer.word(b": ", count);
    printer.text(b", ");
    reason(printer, refusal);
    printer.text(b"\n");
}

// The refusals by number.
fn all_refusals(printer: &mut Printer<impl Print + Eprint>, by_number: &[u64; NUMBERS])
    ensures { printer.old.failures ≤ printer.new.failures }
{
    for (number, count) in (0u32..).zip(by_number) {
        if let Some(refusal) = Refusal::numbered(number) {
            refusals(printer, refusal, *count);
        }
    }
}

// The span of true time from the start, and the wraps in it. A table that was never started has the time 0.
fn span(printer: &mut Printer<impl Print + Eprint>, from: u64, to: u64)
    ensures { printer.old.failures ≤ printer.new.failures }
{
    printer.word(b"time ", from);
    printer.word(b" to ", to);
    printer.word(b", ", to.saturating_sub(from));
    printer.word(b" ms, wraps ", (to / WRAP).saturating_sub(from / WRAP));
}

// The lines about the whole recording.
fn head(printer: &mut Printer<impl Print + Eprint>, figures: &Figures, records: u64, time: u64)
    ensures { printer.old.failures ≤ printer.new.failures }
{
    printer.word(b"records ", records);
    printer.word(b", refused ", figures.refused);
    printer.text(b"\n");
    all_refusals(printer, &figures.by_number);
    span(printer, figures.from, time);
    printer.word(b"\nmost live ", figures.most_live);
    printer.word(b", most tokens in use ", figures.most_tokens);
    printer.text(b"\n");
}

// A record by its number and its time.
fn stamp(printer: &mut Printer<impl Print + Eprint>, words: &[u8], at: Stamp)
    ensures { printer.old.failures ≤ printer.new.failures }
{
    printer.word(words, at.number);
    printer.word(b" time ", at.time);
}

// At how many records a job was overdue, and the first and the last of them.
fn overdue(printer: &mut Printer<impl Print + Eprint>, overdue: Option<Overdue>)
    ensures { printer.old.failures ≤ printer.new.failures }
{
    match overdue {
        None => printer.word(b", overdue at ", 0),
        Some(known) => {
            printer.word(b", overdue at ", known.records);
            stamp(printer, b", first record ", known.first);
            stamp(printer, b", last record ", known.last);
        }
    }
}

// What is still open at the end: a wait, or else the request.
fn open_end(printer: &mut Printer<impl Print + Eprint>, state: State, waited: u64, lived: u64)
    ensures { printer.old.failures ≤ printer.new.failures }
{
    match state {
        State::Idle => {}
        State::HasToken => printer.word(b", at the end live, so far ", lived),
        State::WaitsForToken => {
            printer.word(b", at the end waits for its token, so far ", waited)
        }
        State::WaitsForSet => printer.word(b", at the end waits for its set, so far ", waited),
    }
}

// What a job's line says before what is still open.
fn job_figures(printer: &mut Printer<impl Print + Eprint>, job: u32, figures: JobFigures)
    ensures { printer.old.failures ≤ printer.new.failures }
{
    printer.word(b"job ", job as u64);
    printer.word(b": openings ", figures.openings);
    printer.word(b", completions ", figures.completions);
    printer.word(b", refusals ", figures.refusals);
    printer.word(b", longest token wait ", figures.token_wait);
    printer.word(b", longest set wait ", figures.set_wait);
    printer.word(b", longest request ", figures.request);
    overdue(printer, figures.overdue);
}

// The line of a job, with the figures so far. A wait that is still open counts as far as it went.
fn job_line(
    printer: &mut Printer<impl Print + Eprint>,
    job: u32,
    mut figures: JobFigures,
    table: &Table,
    since: u64,
)
    ensures { printer.old.failures ≤ printer.new.failures }
{
    let state = state_of(table, job);
    let waited = table.time.saturating_sub(since);
    let lived = table.time.saturating_sub(figures.opened);
    figures.wait(state, waited);
    job_figures(printer, job, figures);
    open_end(printer, state, waited, lived);
    printer.text(b"\n");
}

impl Figures {
    // Prints the figures: those of the whole recording, then a line for each job that a record names.
    pub fn print(&self, printer: &mut Printer<impl Print + Eprint>, records: u64, table: &Table)
        ensures { printer.old.failures ≤ printer.new.failures }
    {
        head(printer, self, records, table.time);
        for (job, (figures, row)) in (0u32..).zip(self.jobs.iter().zip(&table.rows)) {
            if 0 < figures.named {
                job_line(printer, job, *figures, table, row.since);
            }
        }
    }

    // Prints which jobs records name: a 0 or a 1 for each job.
    pub fn mask(&self, printer: &mut Printer<impl Print + Eprint>)
        ensures { printer.old.failures ≤ printer.new.failures }
    {
        for figures in &self.jobs {
            printer.text(if figures.named == 0 { b"0" } else { b"1" });
        }
        printer.text(b"\n");
    }
}
