// The whole table surveyed.
ghost use Rattle.std.specs.Prelude.{false, ◌≡◌};
ghost use Rattle.pass.specs.Pass.{Surveyed};

use crate::known::Survey;
use event::JOBS;
use gather::line_up_of;
use line::Line;
use request::Seen;
use rows::{Row, front, idle, token};
use soundness::{Bounds, numbers_sound};
use walk::walk_of;

// What is seen of a table that is not sound.
fn unsound(b: Bounds) -> Survey
    ensures { result.seen.sound ≡ false }
{
    Survey {
        line: Line {
            jobs: [0; JOBS],
            len: 0,
        },
        seen: Seen {
            sound: false,
            resources: b.resources,
            time: b.time,
            last: b.last,
            row: idle(),
            token: false,
        },
        standing: front(),
    }
}

// Tests a whole table whose rows are lent, and tells what a call about this job sees of it.
pub fn survey(rows: &[Row; JOBS], b: Bounds, job: u32) -> Survey
    ensures { Surveyed b rows.now job result }
{
    if !numbers_sound(b) {
        return unsound(b);
    }
    let Some(line) = line_up_of(rows) else {
        return unsound(b);
    };
    let Some(place) = walk_of(rows, &line, b, job) else {
        return unsound(b);
    };
    Survey {
        line,
        seen: Seen {
            sound: true,
            resources: b.resources,
            time: b.time,
            last: b.last,
            row: place.row,
            token: token(place.standing, b.tokens),
        },
        standing: place.standing,
    }
}
