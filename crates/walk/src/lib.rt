// The walk along the line.
#![tactic(auto)]

ghost use Rattle.std.specs.Prelude.{◌<◌, ◌≡◌};
ghost use Rattle.event.specs.Limits.{jobs};
ghost use Rattle.line.specs.LineInCode.{Lines};
ghost use Rattle.walk.specs.Pace.{begun, finished, follows, paced};
ghost use Rattle.walk.specs.Walk.{Walks};

use event::JOBS;
use laws::sets;
use line::Line;
use rows::{Row, Standing, Turn, behind, earlier, front, idle};
use soundness::{Bounds, live_sound};

// What a walk finds of the job that was looked for: what stands before it, and its row. The row of a job that has no request
// is idle.
#[derive(Clone, Copy)]
pub struct Place {
    pub standing: Standing,
    pub row: Row,
}

// How far a walk has come over sound rows: what stands before the next job, what was found of the job that is looked for, and
// the last turn passed.
#[derive(Clone, Copy)]
struct Pace {
    s: Standing,
    place: Place,
    passed: Turn,
}

// Whether a row may come next in line: its turn is above the last one passed, and it is sound beside what stands before it.
fn follows(r: Row, last: Turn, s: Standing, b: Bounds) -> bool
    ensures { result ≡ follows r last s b }
{
    earlier(last, r.turn) && live_sound(r, s, b.tokens, b.time)
}

impl Pace {
    // Before the first job.
    fn begun() -> Pace
        ensures { result ≡ begun }
    {
        Pace {
            s: front(),
            place: Place {
                standing: front(),
                row: idle(),
            },
            passed: Turn(0),
        }
    }

    // One job further, if the job's row may come next.
    fn further(self, k: u8, r: Row, b: Bounds, job: u32) -> Option<Pace>
        requires { self.s.ahead < jobs }
        ensures { result ≡ paced self k r b job }
    {
        if !follows(r, self.passed, self.s, b) {
            return None;
        }
        let mut place = self.place;
        if k as u32 == job {
            place = Place {
                standing: self.s,
                row: r,
            };
        }
        Some(Pace {
            s: behind(self.s, r),
            place,
            passed: r.turn,
        })
    }

    // At the end of the line: that no turn is above the last one given, and that all resources are below R, is tested once.
    fn finished(self, b: Bounds) -> Option<Place>
        ensures { result ≡ finished self b }
    {
        if earlier(b.last, self.passed) | !sets::below(self.s.claims, b.resources) {
            return None;
        }
        Some(self.place)
    }
}

// Goes along the line over lent rows, as far as they are sound. Nothing is found where a live row is not.
pub fn walk_of(rows: &[Row; JOBS], line: &Line, b: Bounds, job: u32) -> Option<Place>
    requires { Lines rows.now line.now }
    ensures { Walks b rows.now job result }
{
    let mut w = Pace::begun();
    for &k in &line.jobs[..line.len] {
        w = w.further(k, rows[k as usize], b, job)?;
    }
    w.finished(b)
}
