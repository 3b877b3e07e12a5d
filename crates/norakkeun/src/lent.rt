// The calls on a table that is lent: the events change it where it lies, the questions read it there. Each answers as the call
// by value of the same name does; `norakkeun.h` has both.
ghost use Rattle.std.specs.Prelude.{◌≡◌, length};
ghost use Rattle.event.specs.declared.events.Event.TheVariants.{Ask, Beat, Complete, GiveUp, Open, Release};
ghost use Rattle.event.specs.Limits.{jobs};
ghost use Rattle.arbiter.specs.Meaning.{overdue, overdue_list, report};
ghost use Rattle.numbers.specs.Numbers.{late_in_numbers, report_in_numbers};
ghost use Rattle.in_place.specs.Promises.{InPlace, InPlaceInto};

use arbiter::Table;
use event::{Event, Tick};
use in_place::{carry, carry_waking};
use numbers::{EventAnswer, JobReport, LateJobs};

// Only the clock moves.
#[unsafe(no_mangle)]
pub extern "C" fn norakkeun_beat_in(table: &mut Table, tick: Tick) -> EventAnswer
    ensures { InPlace jobs table.old (Beat tick) result table.new }
{
    carry(table, Event::Beat(tick))
}

// The job's request becomes live with the next turn and this declared set.
#[unsafe(no_mangle)]
pub extern "C" fn norakkeun_open_in(
    table: &mut Table,
    job: u32,
    tick: Tick,
    set: u64,
) -> EventAnswer
    ensures { InPlace jobs table.old (Open job tick set) result table.new }
{
    carry(table, Event::Open { job, tick, set })
}

// The whole set is held, or the whole set is asked.
#[unsafe(no_mangle)]
pub extern "C" fn norakkeun_ask_in(table: &mut Table, job: u32, tick: Tick, set: u64) -> EventAnswer
    ensures { InPlace jobs table.old (Ask job tick set) result table.new }
{
    carry(table, Event::Ask { job, tick, set })
}

// The members leave the held set.
#[unsafe(no_mangle)]
pub extern "C" fn norakkeun_release_in(
    table: &mut Table,
    job: u32,
    tick: Tick,
    set: u64,
) -> EventAnswer
    ensures { InPlace jobs table.old (Release job tick set) result table.new }
{
    carry(table, Event::Release { job, tick, set })
}

// The row becomes idle; the woken jobs are written to the lent list in order of turn.
#[unsafe(no_mangle)]
pub extern "C" fn norakkeun_complete_in(
    table: &mut Table,
    job: u32,
    tick: Tick,
    woken: &mut [u8],
) -> EventAnswer
    ensures { InPlaceInto table.old (Complete job tick) woken.old result table.new
        woken.new }
{
    carry_waking(table, Event::Complete { job, tick }, woken)
}

// The members leave the held and the declared set for good; the woken jobs are written to the lent list in order of turn.
#[unsafe(no_mangle)]
pub extern "C" fn norakkeun_give_up_in(
    table: &mut Table,
    job: u32,
    tick: Tick,
    set: u64,
    woken: &mut [u8],
) -> EventAnswer
    ensures { InPlaceInto table.old (GiveUp job tick set) woken.old result table.new
        woken.new }
{
    carry_waking(table, Event::GiveUp { job, tick, set }, woken)
}

// The report of a job's request.
#[unsafe(no_mangle)]
pub extern "C" fn norakkeun_report_of(table: &Table, job: u32) -> JobReport
    ensures { result ≡ report_in_numbers (report table.now job) }
{
    JobReport::from(asking::report(table, job))
}

// The jobs whose wait is the limit or more, written to the lent list in order of turn.
#[unsafe(no_mangle)]
pub extern "C" fn norakkeun_overdue_of(table: &Table, tick: Tick, late: &mut [u8]) -> LateJobs
    ensures value { result ≡ late_in_numbers (overdue (length late.old) table.now tick.0) }
    ensures late_after { late.new ≡ overdue_list table.now tick.0 late.old }
{
    LateJobs::from(asking::overdue(table, tick, late))
}
