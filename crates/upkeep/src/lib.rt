// The line and the declared sets, kept up to date from event to event: whoever keeps them need not look at all rows.
#![tactic(auto)]

ghost use Rattle.std.specs.Prelude.{◌<◌, ◌≤◌, cond, true, ◌≡◌};
ghost use Rattle.event.specs.Limits.{jobs};
ghost use Rattle.line.specs.LineInCode.{jobs_of};
ghost use Rattle.line.specs.Placing.{Below};
ghost use Rattle.rows.specs.Order.{live};
ghost use Rattle.rows.specs.Stand.{front};
ghost use Rattle.upkeep.specs.Upkeep.{Appended, Declares, Removed, standing_in};

use event::JOBS;
use laws::sets;
use line::Line;
use rows::{Row, Standing, front, live};

// The declared set of each job.
pub fn declared_by(rows: &[Row; JOBS]) -> [u64; JOBS]
    ensures { Declares rows.now result }
{
    rows.map(|r| r.declared)
}

// What stands before the job of a row in line. A row that is no request is in no line.
pub fn standing_of(r: Row, line: &Line, declared: &[u64; JOBS], job: u8) -> Standing
    requires { (line.now.len ≤ jobs) × Below line.now }
    ensures { result ≡ cond (live r) (standing_in declared.now job front (jobs_of line.now)) front }
{
    if !live(r) {
        return front();
    }
    let mut claims = 0;
    for (p, &other) in line.jobs[..line.len].iter().enumerate() {
        if other == job {
            return Standing {
                ahead: p as u32,
                claims,
            };
        }
        claims = sets::union(claims, declared[other as usize]);
    }
    front()
}

// Puts a job at the end of the line if it comes.
pub fn append(line: &mut Line, job: u8, comes: bool)
    requires { comes ≡ true → line.old.len < jobs }
    ensures { Appended comes job line.old line.new }
{
    if comes {
        line.jobs[line.len] = job;
        line.len += 1;
    }
}

// Takes the job at a place out of the line if it goes: those behind it move up.
pub fn remove(line: &mut Line, place: usize, goes: bool)
    requires { (place < line.old.len) × (line.old.len ≤ jobs) }
    ensures { Removed goes place line.old line.new }
{
    if goes {
        line.jobs.copy_within(place + 1..line.len, place);
        line.len -= 1;
    }
}
