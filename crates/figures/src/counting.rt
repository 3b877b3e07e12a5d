// What one record adds to the figures.
ghost use Rattle.std.specs.Prelude.{◌≡◌, fold};
ghost use Rattle.figures.specs.Counting.{answered, counted, late_in, seen, with_late, with_named, woken_in};

use crate::sheet::{Figures, Stamp, add_one};
use arbiter::Table;
use asking::overdue;
use event::{JOBS, Parts, Tick, forward};
use follow::{Visit, listed, state_of};
use lines::tokens_in;
use rows::live_count;

impl Figures {
    // The answer to a record: a refusal is counted; the first record is the start if it was accepted.
    fn count_answer(&mut self, visit: &Visit)
        ensures { self.new ≡ answered self.old visit.now.number visit.now.answer visit.now.after.now.time }
    {
        match visit.answer {
            Err(refusal) => self.refuse(refusal),
            Ok(_) => {
                if visit.number == 1 {
                    self.from = visit.after.time;
                }
            }
        }
    }

    // The most live requests and the most tokens in use.
    fn count_most(&mut self, table: &Table)
        ensures { self.new ≡ seen self.old table.now }
    {
        let live = live_count(&table.rows);
        self.raise(live as u64, tokens_in(table.tokens, live) as u64);
    }

    // A job that is overdue at a record. One that no table has is counted nowhere.
    fn count_late(&mut self, at: Stamp, job: u8)
        ensures { self.new ≡ late_in at self.old job }
    {
        let job = job as usize;
        if job < JOBS {
            self.jobs[job].be_late(at);
        }
    }

    // Those of a list that are overdue at a record.
    fn count_all_late(&mut self, at: Stamp, list: &[u8])
        ensures { self.new ≡ fold (late_in at) self.old list.now }
    {
        for job in list {
            self.count_late(at, *job);
        }
    }

    // Who is overdue at the tick of an event, just before it is taken. A tick that is refused names nobody.
    fn count_overdue(&mut self, visit: &Visit, tick: Tick)
        ensures { self.new ≡ with_late self.old visit.now tick.0 }
    {
        let mut list = [0u8; JOBS];
        let Ok(count) = overdue(visit.before, tick, &mut list) else {
            return;
        };
        let Ok(time) = forward(visit.before.time, tick) else {
            return;
        };
        let at = Stamp {
            number: visit.number,
            time,
        };
        self.count_all_late(at, listed(&list, count));
    }

    // An event that names a job. One that no table has is counted nowhere.
    fn count_named(&mut self, visit: &Visit, parts: Parts)
        ensures { self.new ≡ with_named self.old visit.now parts }
    {
        let job = parts.job as usize;
        if !parts.kind.shape().job || JOBS <= job {
            return;
        }
        let figures = &mut self.jobs[job];
        add_one(&mut figures.named);
        match visit.answer {
            Err(_) => add_one(&mut figures.refusals),
            Ok(_) => figures.accept(parts.kind, visit.after.time),
        }
    }

    // The end of a wait: a woken job got what it waited for before, its token or its set.
    fn count_wait(&mut self, visit: &Visit, job: u8)
        ensures { self.new ≡ woken_in visit.now self.old job }
    {
        let state = state_of(visit.before, job as u32);
        let job = job as usize;
        if job < JOBS {
            let since = visit.before.rows[job].since;
            self.jobs[job].wait(state, visit.after.time.saturating_sub(since));
        }
    }

    // The ends of the waits of those that were woken.
    fn count_woken(&mut self, visit: &Visit, woken: &[u8])
        ensures { self.new ≡ fold (woken_in visit.now) self.old woken.now }
    {
        for job in woken {
            self.count_wait(visit, *job);
        }
    }

    // A record.
    pub fn count(&mut self, visit: &Visit)
        ensures { self.new ≡ counted self.old visit.now }
    {
        self.count_answer(visit);
        self.count_most(visit.after);
        if let Some(parts) = visit.parts() {
            self.count_overdue(visit, parts.tick);
            self.count_named(visit, parts);
            self.count_woken(visit, visit.woken());
        }
    }
}
