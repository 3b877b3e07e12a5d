// The events on a table that is lent: it is changed where it lies.
ghost use Rattle.std.specs.Prelude.{◌<◌, ◌^◌, false, true, ◌≡◌};
ghost use Rattle.event.specs.Events.{about};
ghost use Rattle.event.specs.Limits.{jobs};
ghost use Rattle.arbiter.specs.ChangeLaws.{Finds};
ghost use Rattle.arbiter.specs.Promises.{Answered, AnsweredInto};

use crate::table::Table;
use decision::{Answer, Change, decide};
use event::{Event, JOBS, Parts, Refusal};
use laws::sets;
use pass::{Survey, survey};
use sweep::settle;

// What an event comes to on a table that was surveyed for it. The bound is a clause as at `decide`.
pub fn found(s: &Survey, tokens: u32, event: Event) -> Result<Change, Refusal>
    requires { s.now.seen.sound ≡ true → s.now.seen.last.0 < 2 ^ 63 }
    ensures { Finds s.now tokens event result }
{
    let forbidden = sets::meets(s.standing.claims, Parts::from(event).set);
    decide(event, s.seen, forbidden, s.line.len < tokens as usize)
}

impl Table {
    // An event that wakes nobody: it is refused and nothing changes, or one row is written.
    pub fn carry(&mut self, event: Event) -> Result<Answer, Refusal>
        requires { (about event).wakes ≡ false }
        ensures { Answered jobs self.old event (record { answer = result; table = self.new }) }
    {
        let job = Parts::from(event).job;
        let s = survey(&self.rows, self.bounds(), job);
        let change = found(&s, self.tokens, event)?;
        self.time = change.time;
        self.last = change.last;
        self.rows[job as usize] = change.row;
        Ok(change.answer)
    }

    // An event that may wake others: it is refused and nothing changes, or its row is written, whoever can go on goes on, and
    // their jobs are written to the lent list in order of turn.
    pub fn carry_waking(&mut self, event: Event, woken: &mut [u8]) -> Result<Answer, Refusal>
        requires { (about event).wakes ≡ true }
        ensures { AnsweredInto self.old event woken.old (record { answer = result; table = self.new }) woken.new }
    {
        if woken.len() < JOBS {
            return Err(Refusal::ShortList);
        }
        let job = Parts::from(event).job;
        let bounds = self.bounds();
        let s = survey(&self.rows, bounds, job);
        let change = found(&s, bounds.tokens, event)?;
        self.time = change.time;
        self.last = change.last;
        let count = settle(
            &mut self.rows,
            &s.line,
            bounds,
            job as usize,
            change.row,
            woken,
        );
        Ok(Answer::Woke(count))
    }
}
