// What an event comes to, from what it sees of the table: a refusal, or what it changes.
ghost use Rattle.std.specs.Prelude.{◌<◌, ◌^◌, true, ◌≡◌};
ghost use Rattle.event.specs.Events.{tick_of};
ghost use Rattle.event.specs.Refusals.{outcome_of};
ghost use Rattle.laws.specs.Cases.{outcome};
ghost use Rattle.grounds.specs.Refusals.{time_from};
ghost use Rattle.decision.specs.Changes.{ask_answer, change_at, change_for, keeps, open_answer, opens, refusal_cases};

use crate::answer::Answer;
use event::{Event, Refusal};
use request::{Seen, asked_row, given_up_row, opened_row, released_row};
use rows::{Row, Turn, idle};
use verdict::{
    ask_verdict, clock_verdict, complete_verdict, give_up_verdict, open_verdict, release_verdict,
};

// What an accepted event changes: the answer, true time, the last turn, and the row of its job. Whom it wakes, and so the
// answer to an event that may wake others, is found out along the line.
#[derive(Clone, Copy)]
pub struct Change {
    pub answer: Answer,
    pub time: u64,
    pub last: Turn,
    pub row: Row,
}

// The answer to an opening.
fn open_answer(token: bool) -> Answer
    ensures { result ≡ open_answer token }
{
    if token { Answer::Token } else { Answer::Wait }
}

// The answer to an ask.
fn ask_answer(forbidden: bool) -> Answer
    ensures { result ≡ ask_answer forbidden }
{
    if forbidden {
        Answer::Wait
    } else {
        Answer::Granted
    }
}

// Why an event is refused, apart from a lent list that is too short; else the next true time.
fn verdict(event: Event, s: Seen) -> Result<u64, Refusal>
    ensures { outcome_of result ≡ outcome (refusal_cases s event) (time_from s.time (tick_of event)) }
{
    match event {
        Event::Beat(tick) => clock_verdict(s, tick),
        Event::Open { job, tick, set } => open_verdict(s, job, tick, set),
        Event::Ask { job, tick, set } => ask_verdict(s, job, tick, set),
        Event::Release { job, tick, set } => release_verdict(s, job, tick, set),
        Event::Complete { job, tick } => complete_verdict(s, job, tick),
        Event::GiveUp { job, tick, set } => give_up_verdict(s, job, tick, set),
    }
}

// An opening: the job has a request with the next turn.
fn opening(s: Seen, time: u64, token: bool, declared: u64) -> Change
    requires { s.last.0 < 2 ^ 63 }
    ensures { result ≡ opens s time token declared }
{
    let row = opened_row(s.last, token, time, declared);
    Change {
        answer: open_answer(token),
        time,
        last: row.turn,
        row,
    }
}

// An event that gives no turn: this answer and this row.
fn keeping(s: Seen, time: u64, answer: Answer, row: Row) -> Change
    ensures { result ≡ keeps s time answer row }
{
    Change {
        answer,
        time,
        last: s.last,
        row,
    }
}

// What an accepted event changes at this time.
fn change_at(event: Event, s: Seen, time: u64, forbidden: bool, token: bool) -> Change
    requires { s.last.0 < 2 ^ 63 }
    ensures { result ≡ change_at s time forbidden token event }
{
    match event {
        Event::Beat(_) => keeping(s, time, Answer::Done, s.row),
        Event::Open { set, .. } => opening(s, time, token, set),
        Event::Ask { set, .. } => {
            let row = asked_row(s.row, forbidden, time, set);
            keeping(s, time, ask_answer(forbidden), row)
        }
        Event::Release { set, .. } => keeping(s, time, Answer::Done, released_row(s.row, set)),
        Event::Complete { .. } => keeping(s, time, Answer::Done, idle()),
        Event::GiveUp { set, .. } => keeping(s, time, Answer::Done, given_up_row(s.row, set)),
    }
}

// What an event comes to. Whether Q3 forbids its set, and whether a request opened now would have a token, is handed in.
// The bound is no ghost field of `Seen`: the definitions make a `Seen` of any table (`seen_in`), and would carry its proof.
pub fn decide(event: Event, s: Seen, forbidden: bool, token: bool) -> Result<Change, Refusal>
    requires { s.sound ≡ true → s.last.0 < 2 ^ 63 }
    ensures { outcome_of result ≡ outcome (refusal_cases s event) (change_for s forbidden token event) }
{
    let time = verdict(event, s)?;
    Ok(change_at(event, s, time, forbidden, token))
}
