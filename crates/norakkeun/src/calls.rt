// The calls on a table. Each takes the table by value and hands the next one back, as document 01 wants it.
ghost use Rattle.std.specs.Prelude.{◌≡◌, length};
ghost use Rattle.event.specs.declared.events.Event.TheVariants.{Ask, Beat, Complete, GiveUp, Open, Release};
ghost use Rattle.event.specs.Limits.{jobs};
ghost use Rattle.arbiter.specs.Meaning.{listed, overdue, overdue_list, report, start_answer, start_table};
ghost use Rattle.numbers.specs.Numbers.{event_in_numbers, event_told, late_in_numbers, report_in_numbers};

use arbiter::Table;
use event::Tick;
use numbers::{JobReport, LateJobs, Told};

// The first table: all rows idle, true time is the tick. A refused start gives the all-zero table, which is not sound.
#[unsafe(no_mangle)]
pub extern "C" fn norakkeun_start(tokens: u32, resources: u32, tick: Tick, limit: u32) -> Told
    ensures { result ≡ event_in_numbers (start_answer tokens resources limit) (start_table tokens resources tick.0 limit) }
{
    Told::from(Table::start(tokens, resources, tick, limit))
}

// Only the clock moves.
#[unsafe(no_mangle)]
pub extern "C" fn norakkeun_beat(table: Table, tick: Tick) -> Told
    ensures { result ≡ event_told jobs table (Beat tick) }
{
    Told::from(table.beat(tick))
}

// The job's request becomes live with the next turn and this declared set.
#[unsafe(no_mangle)]
pub extern "C" fn norakkeun_open(table: Table, job: u32, tick: Tick, set: u64) -> Told
    ensures { result ≡ event_told jobs table (Open job tick set) }
{
    Told::from(table.open(job, tick, set))
}

// The whole set is held, or the whole set is asked.
#[unsafe(no_mangle)]
pub extern "C" fn norakkeun_ask(table: Table, job: u32, tick: Tick, set: u64) -> Told
    ensures { result ≡ event_told jobs table (Ask job tick set) }
{
    Told::from(table.ask(job, tick, set))
}

// The members leave the held set.
#[unsafe(no_mangle)]
pub extern "C" fn norakkeun_release(table: Table, job: u32, tick: Tick, set: u64) -> Told
    ensures { result ≡ event_told jobs table (Release job tick set) }
{
    Told::from(table.release(job, tick, set))
}

// The row becomes idle; the woken jobs are written to the lent list in order of turn.
#[unsafe(no_mangle)]
pub extern "C" fn norakkeun_complete(table: Table, job: u32, tick: Tick, woken: &mut [u8]) -> Told
    ensures value { result ≡ event_told (length woken.old) table (Complete job tick) }
    ensures woken_after { woken.new ≡ listed table (Complete job tick) woken.old }
{
    Told::from(table.complete(job, tick, woken))
}

// The members leave the held and the declared set for good; the woken jobs are written to the lent list in order of turn.
#[unsafe(no_mangle)]
pub extern "C" fn norakkeun_give_up(
    table: Table,
    job: u32,
    tick: Tick,
    set: u64,
    woken: &mut [u8],
) -> Told
    ensures value { result ≡ event_told (length woken.old) table (GiveUp job tick set) }
    ensures woken_after { woken.new ≡ listed table (GiveUp job tick set) woken.old }
{
    Told::from(table.give_up(job, tick, set, woken))
}

// The report of a job's request.
#[unsafe(no_mangle)]
pub extern "C" fn norakkeun_report(table: Table, job: u32) -> JobReport
    ensures { result ≡ report_in_numbers (report table job) }
{
    JobReport::from(asking::report(&table, job))
}

// The jobs whose wait is the limit or more, written to the lent list in order of turn.
#[unsafe(no_mangle)]
pub extern "C" fn norakkeun_overdue(table: Table, tick: Tick, late: &mut [u8]) -> LateJobs
    ensures value { result ≡ late_in_numbers (overdue (length late.old) table tick.0) }
    ensures late_after { late.new ≡ overdue_list table tick.0 late.old }
{
    LateJobs::from(asking::overdue(&table, tick, late))
}
