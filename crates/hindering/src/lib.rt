// Who is in the way of what a job asked for.
#![tactic(auto)]

ghost use Rattle.std.specs.Prelude.{◌≤◌, length};
ghost use Rattle.event.specs.Limits.{jobs};
ghost use Rattle.line.specs.LineInCode.{Lines, Listed};
ghost use Rattle.hindering.specs.Hindering.{claimants_before};
ghost use Rattle.hindering.specs.Promises.{Hinders};

use arbiter::Table;
use event::{JOBS, Refusal};
use laws::sets;
use line::Line;
use pass::survey;
use questions::list_where;
use rows::{Row, Turn, earlier, live};

// Lists the jobs whose requests came before this turn and declare a member of the set, in order of turn.
fn list_claimants(rows: &[Row; JOBS], line: &Line, turn: Turn, s: u64, list: &mut [u8]) -> u32
    requires lines { Lines rows.now line.now }
    requires jobs_in_bounds { jobs ≤ length list.old }
    ensures { Listed (claimants_before rows.now turn.0 s) list.old result list.new }
{
    list_where(
        rows,
        line,
        list,
        |_, row| earlier(row.turn, turn) & sets::meets(row.declared, s),
    )
}

// The jobs in the way of what a job asked for, written to the lent list in order of turn; nothing changes.
pub fn hinderers(table: &Table, job: u32, list: &mut [u8]) -> Result<u32, Refusal>
    ensures { Hinders table.now job list.old result list.new }
{
    if list.len() < JOBS {
        return Err(Refusal::ShortList);
    }
    let s = survey(&table.rows, table.bounds(), job);
    if !s.seen.sound {
        return Err(Refusal::UnsoundTable);
    }
    if JOBS as u32 <= job {
        return Err(Refusal::NoSuchJob);
    }
    let row = s.seen.row;
    if !live(row) {
        return Err(Refusal::NotLive);
    }
    Ok(list_claimants(&table.rows, &s.line, row.turn, row.asked, list))
}
