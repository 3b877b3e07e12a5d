// What an event that may wake others makes of the rows.
ghost use Rattle.std.specs.Prelude.{◌+◌, ◌<◌, ◌≤◌, true, ◌≡◌, length};
ghost use Rattle.event.specs.Limits.{jobs};
ghost use Rattle.laws.specs.Bools.{bit};
ghost use Rattle.line.specs.LineInCode.{Lines};
ghost use Rattle.rows.specs.Line.{row_of};
ghost use Rattle.soundness.specs.Beside.{sound_by};
ghost use Rattle.sweep.specs.Passing.{noted, passed_by};
ghost use Rattle.sweep.specs.Sweeping.{Acts, Onward, Settles};

use event::JOBS;
use line::Line;
use request::{goes_on, wakes};
use rows::{Row, Standing, behind, front, live};
use soundness::Bounds;

// What passing one job comes to: its row, what stands before the next, and whether it woke.
#[derive(Clone, Copy)]
pub struct Passed {
    pub row: Row,
    pub s: Standing,
    pub woke: bool,
}

// One job further: whoever has gone is passed over; whoever waited and need not wait any more goes on; and the next stands
// behind it.
fn pass_by(r: Row, s: Standing, tokens: u32, up: bool) -> Passed
    requires { (s.ahead < tokens) × (tokens ≤ jobs) }
    ensures { result ≡ passed_by up tokens s r }
{
    if live(r) {
        let t = behind(s, r);
        if wakes(r, s, tokens, up) {
            return Passed {
                row: goes_on(r),
                s: t,
                woke: true,
            };
        }
        return Passed {
            row: r,
            s: t,
            woke: false,
        };
    }
    Passed {
        row: r,
        s,
        woke: false,
    }
}

// Writes a job that woke at the end of the list so far, and returns how many are listed then.
fn note(woken: &mut [u8], n: usize, job: u8, woke: bool) -> usize
    requires { n < length woken.old }
    ensures { (result ≡ n + bit woke) × (woken.new ≡ noted woken.old n job woke) }
{
    if woke {
        woken[n] = job;
        return n + 1;
    }
    n
}

// Job k's row becomes `row`; if its request has ended, the line moves up. Along the line, whoever waited and need not wait any
// more goes on, and is listed. After the last that has a token nothing can change, so the loop ends there. The rows are lent,
// and changed where they lie.
pub fn settle(
    rows: &mut [Row; JOBS],
    line: &Line,
    b: Bounds,
    k: usize,
    row: Row,
    woken: &mut [u8],
) -> u32
    requires lines { Lines rows.old line.now × (sound_by b rows.old ≡ true) }
    requires acts { Acts b.tokens rows.old k × Onward (row_of rows.old k) row × (jobs ≤ length woken.old) }
    ensures { Settles b.tokens rows.old k row woken.old (record { rows = rows.new; count = result }) woken.new }
{
    rows[k] = row;
    let up = !live(row);
    let mut s = front();
    let mut n = 0;
    for &job in &line.jobs[..line.len] {
        if b.tokens <= s.ahead {
            break;
        }
        let passed = pass_by(rows[job as usize], s, b.tokens, up);
        rows[job as usize] = passed.row;
        s = passed.s;
        n = note(&mut *woken, n, job, passed.woke);
    }
    n as u32
}
