// The grounds on which an event is refused, each found from what its call sees: the tests of document 01's refusals in parts.
// Each part tests in the order of the list.
#![tactic(auto, unfolding(laws::specs::Cases::outcome, laws::specs::Cases::first, event::specs::Clock::forward))]

ghost use Rattle.std.specs.Prelude.{◌≡◌};
ghost use Rattle.event.specs.Refusals.{outcome_of};
ghost use Rattle.laws.specs.Cases.{outcome};
ghost use Rattle.grounds.specs.Grounds.{actor_cases, ask_cases, entry_cases, give_up_cases, release_cases, set_cases, turn_cases};
ghost use Rattle.grounds.specs.Refusals.{calling, time_from};

use event::{HIGHEST, JOBS, Refusal, Tick};
use laws::sets;
use request::Seen;
use rows::{Row, Turn, earlier, live};

// 3, 4, then what is asked of the tick: the table, the job and the clock; else the next true time.
pub fn enter(s: Seen, job: u32, tick: Tick) -> Result<u64, Refusal>
    ensures { outcome_of result ≡ outcome (entry_cases s (calling job tick.0 0)) (time_from s.time tick.0) }
{
    if !s.sound {
        return Err(Refusal::UnsoundTable);
    }
    if JOBS as u32 <= job {
        return Err(Refusal::NoSuchJob);
    }
    event::forward(s.time, tick)
}

// 8, 9, 10: the job's request is live, has a token, and no ask of it still waits.
pub fn actor_verdict(s: Seen) -> Result<(), Refusal>
    ensures { outcome_of result ≡ outcome (actor_cases s) tt }
{
    if !live(s.row) {
        return Err(Refusal::NotLive);
    }
    if !s.token {
        return Err(Refusal::NoToken);
    }
    if 0 < s.row.asked {
        return Err(Refusal::StillWaiting);
    }
    Ok(())
}

// 11, 12: a set has some member, and every member is below R.
pub fn set_verdict(resources: u32, set: u64) -> Result<(), Refusal>
    ensures { outcome_of result ≡ outcome (set_cases resources set) tt }
{
    if set == 0 {
        return Err(Refusal::EmptySet);
    }
    if !sets::below(set, resources) {
        return Err(Refusal::NoSuchResource);
    }
    Ok(())
}

// 16: the turns are not spent.
pub fn turn_verdict(last: Turn) -> Result<(), Refusal>
    ensures { outcome_of result ≡ outcome (turn_cases last.0) tt }
{
    if !earlier(last, Turn(HIGHEST)) & !earlier(Turn(HIGHEST), last) {
        return Err(Refusal::TurnsSpent);
    }
    Ok(())
}

// 13: every member is declared.
pub fn give_up_set_verdict(row: Row, set: u64) -> Result<(), Refusal>
    ensures { outcome_of result ≡ outcome (give_up_cases row set) tt }
{
    if !sets::inside(set, row.declared) {
        return Err(Refusal::NotDeclared);
    }
    Ok(())
}

// 14: no member is held.
pub fn ask_set_verdict(row: Row, set: u64) -> Result<(), Refusal>
    ensures { outcome_of result ≡ outcome (ask_cases row set) tt }
{
    if sets::meets(set, row.held) {
        return Err(Refusal::AlreadyHeld);
    }
    Ok(())
}

// 15: every member is held.
pub fn release_set_verdict(row: Row, set: u64) -> Result<(), Refusal>
    ensures { outcome_of result ≡ outcome (release_cases row set) tt }
{
    if !sets::inside(set, row.held) {
        return Err(Refusal::NotHeld);
    }
    Ok(())
}
