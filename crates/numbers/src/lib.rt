// Answers in numbers, since no enum passes the boundary: each begins with a refusal's number, or 0.
#![tactic(auto)]

ghost use Rattle.std.specs.Prelude.{◌≡◌};
ghost use Rattle.arbiter.specs.Answers.{said_of};
ghost use Rattle.event.specs.Refusals.{outcome_of};
ghost use Rattle.numbers.specs.Numbers.{answer_in_numbers, event_in_numbers, late_in_numbers, refusal_in, report_in_numbers, saved_in_numbers};

use arbiter::{Next, Report, Table};
use decision::Answer;
use event::Refusal;
use rows::Turn;

// The answer to an accepted event; 0 where it is refused. Numbers, since C reads them (`norakkeun.h`).
const TOKEN: u32 = 1;

const GRANTED: u32 = 2;

const WAIT: u32 = 3;

const DONE: u32 = 4;

const WOKE: u32 = 5;

// The answer to an event, how many jobs it woke, and the next table.
#[repr(C)]
#[derive(Clone, Copy)]
pub struct Told {
    pub refusal: u32,
    pub said: u32,
    pub woken: u32,
    pub table: Table,
}

// The answer to an event and how many jobs it woke, where the next table stands elsewhere.
#[repr(C)]
#[derive(Clone, Copy)]
pub struct EventAnswer {
    pub refusal: u32,
    pub said: u32,
    pub woken: u32,
}

// The report of a job's request; with a refusal all of it is 0.
#[repr(C)]
#[derive(Clone, Copy)]
pub struct JobReport {
    pub refusal: u32,
    pub report: Report,
}

// How many jobs are overdue; with a refusal, 0.
#[repr(C)]
#[derive(Clone, Copy)]
pub struct LateJobs {
    pub refusal: u32,
    pub count: u32,
}

// How many bytes of the lent room are the service file; with a refusal, 0. A type beside `LateJobs`, since C has both.
#[repr(C)]
#[derive(Clone, Copy)]
pub struct SavedFile {
    pub refusal: u32,
    pub length: u32,
}

// An accepted event.
fn accepted(said: u32, woken: u32) -> EventAnswer
    ensures { result ≡ record { refusal = 0; said = said; woken = woken } }
{
    EventAnswer {
        refusal: 0,
        said,
        woken,
    }
}

// An event's answer.
impl From<Result<Answer, Refusal>> for EventAnswer {
    ghost from_gives = { λ answer numbers. numbers ≡ answer_in_numbers (said_of answer) };

    fn from(answer: Result<Answer, Refusal>) -> EventAnswer {
        match answer {
            Err(refusal) => EventAnswer {
                refusal: u32::from(refusal),
                said: 0,
                woken: 0,
            },
            Ok(Answer::Token) => accepted(TOKEN, 0),
            Ok(Answer::Granted) => accepted(GRANTED, 0),
            Ok(Answer::Wait) => accepted(WAIT, 0),
            Ok(Answer::Done) => accepted(DONE, 0),
            Ok(Answer::Woke(woken)) => accepted(WOKE, woken),
        }
    }
}

// An event's answer and the next table.
impl From<Next> for Told {
    ghost from_gives = { λ next told. told ≡ event_in_numbers (said_of next.answer) next.table };

    fn from(next: Next) -> Told {
        let numbers = EventAnswer::from(next.answer);
        Told {
            refusal: numbers.refusal,
            said: numbers.said,
            woken: numbers.woken,
            table: next.table,
        }
    }
}

// A report's answer.
impl From<Result<Report, Refusal>> for JobReport {
    ghost from_gives = { λ answer numbers. numbers ≡ report_in_numbers (outcome_of answer) };

    fn from(answer: Result<Report, Refusal>) -> JobReport {
        match answer {
            Err(refusal) => JobReport {
                refusal: u32::from(refusal),
                report: Report {
                    turn: Turn(0),
                    token: false,
                    waiting: false,
                    ahead: 0,
                    in_way: 0,
                },
            },
            Ok(report) => JobReport { refusal: 0, report },
        }
    }
}

// The answer to who is overdue.
impl From<Result<u32, Refusal>> for LateJobs {
    ghost from_gives = { λ answer numbers. numbers ≡ late_in_numbers (outcome_of answer) };

    fn from(answer: Result<u32, Refusal>) -> LateJobs {
        match answer {
            Err(refusal) => LateJobs {
                refusal: u32::from(refusal),
                count: 0,
            },
            Ok(count) => LateJobs { refusal: 0, count },
        }
    }
}

// What saving a table gave.
impl From<Result<u32, Refusal>> for SavedFile {
    ghost from_gives = { λ answer numbers. numbers ≡ saved_in_numbers (outcome_of answer) };

    fn from(answer: Result<u32, Refusal>) -> SavedFile {
        match answer {
            Err(refusal) => SavedFile {
                refusal: u32::from(refusal),
                length: 0,
            },
            Ok(length) => SavedFile { refusal: 0, length },
        }
    }
}

// What writing a record gave. No `From`, since neither `u32` nor `Result` is a type of this crate.
pub fn refusal_in(written: Result<(), Refusal>) -> u32
    ensures { result ≡ refusal_in (outcome_of written) }
{
    match written {
        Err(refusal) => u32::from(refusal),
        Ok(()) => 0,
    }
}
