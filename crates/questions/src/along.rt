// Along the line.
ghost use Rattle.std.specs.Prelude.{ℕ, Bool, ◌≤◌, true, ◌≡◌, length};
ghost use Rattle.event.specs.Limits.{jobs};
ghost use Rattle.line.specs.LineInCode.{Lines, Listed};
ghost use Rattle.soundness.specs.Beside.{sound_by};
ghost use Rattle.rows.specs.Order.{in_way};
ghost use Rattle.questions.specs.InCode.{Decides, passing};
ghost use Rattle.questions.specs.Late.{late_in};

use event::JOBS;
use laws::sets;
use line::Line;
use request::{in_time_from, is_late};
use rows::{Row, Turn, earlier};
use soundness::Bounds;

// How many live rows of lower turn declare some member of `s`. A `for` with a count: in the chain with `filter` and `count`,
// which was tried, it stays open that each entry is a job.
pub fn in_way(rows: &[Row; JOBS], line: &Line, turn: Turn, s: u64) -> u32
    requires { Lines rows.now line.now }
    ensures { result ≡ in_way rows.now turn.0 s }
{
    let mut n = 0;
    for &job in &line.jobs[..line.len] {
        let r = rows[job as usize];
        if earlier(r.turn, turn) & sets::meets(r.declared, s) {
            n += 1;
        }
    }
    n
}

// Lists the jobs that pass a test of their place in line and their row, in order of turn, and returns their number.
pub fn list_where<F: Fn(usize, Row) -> bool>(
    rows: &[Row; JOBS],
    line: &Line,
    list: &mut [u8],
    test: F,
) -> u32
    requires lines { Lines rows.now line.now }
    requires jobs_in_bounds { jobs ≤ length list.old }
    requires callable { F.IsAlwaysCallable test }
    ensures { (f : ℕ → Bool) → Decides (F.post test) rows.now f → Listed (passing f rows.now) list.old result list.new }
{
    let mut n = 0;
    for (place, &job) in line.jobs[..line.len].iter().enumerate() {
        if test(place, rows[job as usize]) {
            list[n] = job;
            n += 1;
        }
    }
    n as u32
}

// Lists the jobs whose wait up to this time is the limit or more, in order of turn, and returns their number. In a sound
// table the first in line have the tokens.
pub fn list_late(rows: &[Row; JOBS], line: &Line, b: Bounds, time: u64, late: &mut [u8]) -> u32
    requires lines { Lines rows.now line.now × (sound_by b rows.now ≡ true) }
    requires jobs_in_bounds { jobs ≤ length late.old }
    ensures { Listed (late_in b.tokens b.limit time rows.now) late.old result late.new }
{
    let tokens = b.tokens as usize;
    let from = in_time_from(time, b.limit);
    list_where(
        rows,
        line,
        late,
        |place, row| is_late(row, place < tokens, from),
    )
}
