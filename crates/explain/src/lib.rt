// A record and its answer in words, as `bin/desk explain` prints them. For programs only.
#![tactic(auto)]

ghost use Rattle.std.specs.Prelude.{◌≤◌};

use arbiter::Table;
use decision::Answer;
use event::{JOBS, Kind, Parts};
use follow::{State, Visit, completions_away, listed, state_of};
use hindering::hinderers;
use stream::Printer;
use words::{jobs, refused, what};

// How far away a token is.
fn away(printer: &mut Printer<impl Print + Eprint>, completions: u64)
    ensures { printer.old.failures ≤ printer.new.failures }
{
    printer.word(b"waits for its token, ", completions);
    if completions == 1 {
        printer.text(b" completion away");
    } else {
        printer.text(b" completions away");
    }
}

// The jobs that are in the way of what a job asked for. After an ask that waits the question is not refused.
fn in_way(printer: &mut Printer<impl Print + Eprint>, after: &Table, job: u32)
    ensures { printer.old.failures ≤ printer.new.failures }
{
    let mut list = [0u8; JOBS];
    printer.text(b"waits, in the way: ");
    match hinderers(after, job, &mut list) {
        Ok(count) => jobs(printer, listed(&list, count)),
        Err(refusal) => refused(printer, refusal),
    }
}

// What an open or an ask waits for.
fn waits(printer: &mut Printer<impl Print + Eprint>, parts: Parts, after: &Table)
    ensures { printer.old.failures ≤ printer.new.failures }
{
    match parts.kind {
        Kind::Ask => in_way(printer, after, parts.job),
        _ => away(printer, completions_away(after, parts.job)),
    }
}

// What a woken job got that stood so before.
fn gain(before: State) -> &'static [u8] {
    match before {
        State::WaitsForToken => b" with its token",
        _ => b" with its set",
    }
}

// The woken jobs, each with what it got.
fn gains(printer: &mut Printer<impl Print + Eprint>, before: &Table, woken: &[u8])
    ensures { printer.old.failures ≤ printer.new.failures }
{
    let mut mark: &[u8] = b", wakes ";
    for job in woken {
        printer.word(mark, *job as u64);
        printer.text(gain(state_of(before, *job as u32)));
        mark = b", ";
    }
}

// What an accepted event was answered.
fn said(printer: &mut Printer<impl Print + Eprint>, answer: Answer, parts: Parts, visit: &Visit)
    ensures { printer.old.failures ≤ printer.new.failures }
{
    match answer {
        Answer::Token => printer.text(b"has its token"),
        Answer::Granted => printer.text(b"granted"),
        Answer::Wait => waits(printer, parts, visit.after),
        Answer::Done => printer.text(b"done"),
        Answer::Woke(_) => {
            printer.text(b"done");
            gains(printer, visit.before, visit.woken());
        }
    }
}

// What a record was answered: a refusal, the answer to an event, or else that of an accepted start.
fn answered(printer: &mut Printer<impl Print + Eprint>, visit: &Visit)
    ensures { printer.old.failures ≤ printer.new.failures }
{
    match (visit.answer, visit.parts()) {
        (Err(refusal), _) => refused(printer, refusal),
        (Ok(answer), Some(parts)) => said(printer, answer, parts, visit),
        (Ok(_), None) => printer.text(b"started"),
    }
}

// The line of a record: its number, its tick and the true time after it, what it asks for, and the answer.
pub fn line(printer: &mut Printer<impl Print + Eprint>, visit: &Visit)
    ensures { printer.old.failures ≤ printer.new.failures }
{
    printer.number(visit.number);
    what(printer, visit.reading, visit.after.time);
    printer.text(b": ");
    answered(printer, visit);
    printer.text(b"\n");
}

// The last line: live requests and tokens in use.
pub fn end(printer: &mut Printer<impl Print + Eprint>, live: u64, tokens: u64)
    ensures { printer.old.failures ≤ printer.new.failures }
{
    printer.word(b"end: live ", live);
    printer.word(b", tokens in use ", tokens);
    printer.text(b"\n");
}
