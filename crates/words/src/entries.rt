// What a record asks for: its tick and its event, with job and set.
ghost use Rattle.std.specs.Prelude.{◌≤◌};

use crate::lists::set;
use event::{Entry, Kind, Parts, Refusal, Start, Tick};
use stream::Printer;

// The tick of a record, and the true time after it.
fn times(printer: &mut Printer<impl Print + Eprint>, tick: Tick, time: u64)
    ensures { printer.old.failures ≤ printer.new.failures }
{
    printer.word(b" tick ", tick.0 as u64);
    printer.word(b" time ", time);
}

// The words of a kind of event.
fn words_of(kind: Kind) -> &'static [u8] {
    match kind {
        Kind::Beat => b" beat",
        Kind::Open => b" open",
        Kind::Ask => b" ask",
        Kind::Release => b" release",
        Kind::Complete => b" complete",
        Kind::GiveUp => b" give up",
    }
}

// An event by its kind, and its job and its set if its kind has them.
fn event(printer: &mut Printer<impl Print + Eprint>, parts: Parts, time: u64)
    ensures { printer.old.failures ≤ printer.new.failures }
{
    let shape = parts.kind.shape();
    times(printer, parts.tick, time);
    printer.text(words_of(parts.kind));
    if shape.job {
        printer.word(b" ", parts.job as u64);
    }
    if shape.set {
        printer.text(b" ");
        set(printer, parts.set);
    }
}

// A start by its numbers.
fn start(printer: &mut Printer<impl Print + Eprint>, start: Start, time: u64)
    ensures { printer.old.failures ≤ printer.new.failures }
{
    times(printer, start.tick, time);
    printer.word(b" start T=", start.tokens as u64);
    printer.word(b" R=", start.resources as u64);
    printer.word(b" limit=", start.limit as u64);
}

// A record that cannot be read.
fn unreadable(printer: &mut Printer<impl Print + Eprint>, time: u64)
    ensures { printer.old.failures ≤ printer.new.failures }
{
    printer.word(b" tick - time ", time);
    printer.text(b" unreadable");
}

// What a record asks for, with its tick and the true time after it.
pub fn what(printer: &mut Printer<impl Print + Eprint>, reading: Result<Entry, Refusal>, time: u64)
    ensures { printer.old.failures ≤ printer.new.failures }
{
    match reading {
        Err(_) => unreadable(printer, time),
        Ok(Entry::Start(begun)) => start(printer, begun, time),
        Ok(Entry::Event(asked)) => event(printer, Parts::from(asked), time),
    }
}
