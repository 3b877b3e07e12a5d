// What each question says or keeps of a record, and what it says at the end.
ghost use Rattle.std.specs.Prelude.{◌≤◌};

use crate::following::Answering;
use event::JOBS;
use figures::Figures;
use follow::Visit;
use lines::tokens_in;
use listing::Replay;
use rows::live_count;
use stage::goes_on;
use stream::Printer;
use wave::Trace;

// Each record in words.
#[derive(Drop)]
pub struct Explain;

impl Answering for Explain {
    fn record(&mut self, printer: &mut Printer<impl Print + Eprint>, visit: &Visit) {
        explain::line(printer, visit);
    }

    fn end(&mut self, printer: &mut Printer<impl Print + Eprint>, replay: &Replay) {
        let live = live_count(&replay.table.rows);
        let used = tokens_in(replay.table.tokens, live);
        explain::end(printer, live as u64, used as u64);
    }
}

// The figures of each job and of the whole recording.
#[derive(Drop)]
pub struct Stats(pub Figures);

impl Answering for Stats {
    fn record(&mut self, _printer: &mut Printer<impl Print + Eprint>, visit: &Visit) {
        self.0.count(visit);
    }

    fn end(&mut self, printer: &mut Printer<impl Print + Eprint>, replay: &Replay) {
        self.0.print(printer, replay.number, &replay.table);
    }
}

// Which jobs the records name.
#[derive(Drop)]
pub struct Jobs(pub Figures);

impl Answering for Jobs {
    fn record(&mut self, _printer: &mut Printer<impl Print + Eprint>, visit: &Visit) {
        self.0.count(visit);
    }

    fn end(&mut self, printer: &mut Printer<impl Print + Eprint>, _replay: &Replay) {
        self.0.mask(printer);
    }
}

// The table after the last record, if the first was an accepted start.
#[derive(Drop)]
pub struct At;

impl Answering for At {
    fn record(&mut self, _printer: &mut Printer<impl Print + Eprint>, _visit: &Visit) {}

    fn end(&mut self, printer: &mut Printer<impl Print + Eprint>, replay: &Replay) {
        if goes_on(replay.stage) {
            state::print(printer, replay.number, &replay.table);
        } else {
            state::print_none(printer);
        }
    }
}

// A dump of the jobs that have a 1 in the mask. It begins with the first record.
#[derive(Drop)]
pub struct Wave {
    pub mask: [u8; JOBS],
    pub trace: Option<Trace>,
}

impl Wave {
    // The beginning of the dump. Without an accepted start no job is shown.
    fn first(&self, printer: &mut Printer<impl Print + Eprint>, visit: &Visit) -> Trace
        ensures { printer.old.failures ≤ printer.new.failures }
    {
        match visit.answer {
            Ok(_) => wave::first(printer, &self.mask, visit.answer, visit.after),
            Err(_) => wave::first(printer, b"", visit.answer, visit.after),
        }
    }
}

impl Answering for Wave {
    fn record(&mut self, printer: &mut Printer<impl Print + Eprint>, visit: &Visit) {
        match &mut self.trace {
            Some(trace) => trace.next(printer, &self.mask, visit),
            None => self.trace = Some(self.first(printer, visit)),
        }
    }

    // The end of the dump, if the first record was an accepted start.
    fn end(&mut self, printer: &mut Printer<impl Print + Eprint>, replay: &Replay) {
        if goes_on(replay.stage) {
            wave::end(printer, replay.table.time);
        }
    }
}
