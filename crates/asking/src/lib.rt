// The two questions about a table: the report of a job's request, and who is overdue.
#![tactic(auto)]

ghost use Rattle.arbiter.specs.Promises.{OverdueAnswered, ReportAnswered};

use arbiter::{Report, Table};
use event::{JOBS, Refusal, Tick};
use pass::survey;
use questions::{in_way, list_late};
use rows::{live, waiting};
use verdict::clock_verdict;

// The report of a job's request; nothing changes.
pub fn report(table: &Table, job: u32) -> Result<Report, Refusal>
    ensures { ReportAnswered table.now job result }
{
    let s = survey(&table.rows, table.bounds(), job);
    if !s.seen.sound {
        return Err(Refusal::UnsoundTable);
    }
    if JOBS as u32 <= job {
        return Err(Refusal::NoSuchJob);
    }
    let row = s.seen.row;
    if !live(row) {
        return Err(Refusal::NotLive);
    }
    Ok(Report {
        turn: row.turn,
        token: s.seen.token,
        waiting: waiting(row, s.standing, table.tokens),
        ahead: s.standing.ahead,
        in_way: in_way(&table.rows, &s.line, row.turn, row.declared),
    })
}

// The jobs whose wait is the limit or more, written to the lent list in order of turn; no clock moves.
pub fn overdue(table: &Table, tick: Tick, late: &mut [u8]) -> Result<u32, Refusal>
    ensures { OverdueAnswered table.now tick.0 late.old result late.new }
{
    if late.len() < JOBS {
        return Err(Refusal::ShortList);
    }
    let bounds = table.bounds();
    let s = survey(&table.rows, bounds, 0);
    let time = clock_verdict(s.seen, tick)?;
    Ok(list_late(&table.rows, &s.line, bounds, time, late))
}
