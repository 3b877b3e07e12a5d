// What one record changes.
ghost use Rattle.std.specs.Prelude.{◌≡◌, ◌≤◌, min};
ghost use Rattle.laws.specs.Lists.{count};
ghost use Rattle.rows.specs.Order.{live};
ghost use Rattle.wave.specs.Trace.{refused_after, trace_after};

use crate::dump::{job_value, value};
use crate::variables::{VARIABLES, View, shown};
use arbiter::Table;
use decision::Answer;
use event::{Parts, Refusal};
use follow::Visit;
use lines::tokens_in;
use rows::live_count;
use stream::Printer;

// A dump: how many records had the true time of the last one, and how many were refused.
#[derive(Clone, Copy)]
pub struct Trace {
    pub here: u64,
    pub refusals: u64,
}

// How many records were refused, with one that was answered so.
pub fn refusals_after(answer: Result<Answer, Refusal>, refusals: u64) -> u64
    ensures { result ≡ refused_after answer refusals }
{
    match answer {
        Err(_) => refusals.saturating_add(1),
        Ok(_) => refusals,
    }
}

// A value of the drive, if it changed.
fn changed(printer: &mut Printer<impl Print + Eprint>, id: u8, was: u64, is: u64)
    ensures { printer.old.failures ≤ printer.new.failures }
{
    if was != is {
        value(printer, id, is);
    }
}

// What changed of a job, if it is shown.
fn job_in(printer: &mut Printer<impl Print + Eprint>, mask: &[u8], job: u32, visit: &Visit)
    ensures { printer.old.failures ≤ printer.new.failures }
{
    if !shown(mask, job) {
        return;
    }
    let before = View::of(visit.before, job);
    let after = View::of(visit.after, job);
    for variable in VARIABLES {
        let is = after.value(variable);
        if before.value(variable) != is {
            job_value(printer, variable, job, is);
        }
    }
}

// What an event changed of the jobs: of its own, if it names one, then of those that it woke.
fn jobs_in(printer: &mut Printer<impl Print + Eprint>, mask: &[u8], parts: Parts, visit: &Visit)
    ensures { printer.old.failures ≤ printer.new.failures }
{
    if parts.kind.shape().job {
        job_in(printer, mask, parts.job, visit);
    }
    for job in visit.woken() {
        job_in(printer, mask, *job as u32, visit);
    }
}

// How many requests are live, and how many tokens are in use.
fn in_use(table: &Table) -> (u64, u64)
    ensures live { result.0 ≡ count live table.now.rows }
    ensures tokens { result.1 ≡ min table.now.tokens (count live table.now.rows) }
{
    let live = live_count(&table.rows);
    (live as u64, tokens_in(table.tokens, live) as u64)
}

// The number of a record, how many have its time, and what it changed in all.
fn counts(printer: &mut Printer<impl Print + Eprint>, here: u64, visit: &Visit)
    ensures { printer.old.failures ≤ printer.new.failures }
{
    let (live_before, tokens_before) = in_use(visit.before);
    let (live, tokens) = in_use(visit.after);
    value(printer, b'r', visit.number);
    value(printer, b'n', here);
    changed(printer, b'l', live_before, live);
    changed(printer, b't', tokens_before, tokens);
}

impl Trace {
    // A record after the first. Its time is printed if it is not that of the record before.
    pub fn next(&mut self, printer: &mut Printer<impl Print + Eprint>, mask: &[u8], visit: &Visit)
        ensures kept { printer.old.failures ≤ printer.new.failures }
        ensures counts { self.new ≡ trace_after self.old visit.now }
    {
        if visit.before.time == visit.after.time {
            self.here = self.here.saturating_add(1);
        } else {
            self.here = 1;
            printer.word(b"#", visit.after.time);
            printer.text(b"\n");
        }
        counts(printer, self.here, visit);
        let refusals = refusals_after(visit.answer, self.refusals);
        changed(printer, b'x', self.refusals, refusals);
        self.refusals = refusals;
        if let (Ok(_), Some(parts)) = (visit.answer, visit.parts()) {
            jobs_in(printer, mask, parts, visit);
        }
    }
}

// The end: one millisecond after the last record.
pub fn end(printer: &mut Printer<impl Print + Eprint>, time: u64)
    ensures { printer.old.failures ≤ printer.new.failures }
{
    printer.word(b"#", time.saturating_add(1));
    printer.text(b"\n");
}
