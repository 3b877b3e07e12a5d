// Why an event is refused: for each kind of event its grounds, put together in the order of the list. A later part is asked
// only where the earlier ones accept.
#![tactic(auto, unfolding(laws::specs::Cases::outcome, laws::specs::Cases::first))]

ghost use Rattle.std.specs.Prelude.{◌≡◌};
ghost use Rattle.event.specs.Refusals.{outcome_of};
ghost use Rattle.event.specs.declared.events.Kind.TheVariants.{Ask, Beat, Complete, GiveUp, Open, Release};
ghost use Rattle.grounds.specs.Refusals.{calling, event_cases, time_from};
ghost use Rattle.laws.specs.Cases.{outcome};
ghost use Rattle.verdict.specs.Verdicts.{act_on_cases, open_cases};

use event::{Refusal, Tick};
use grounds::{
    actor_verdict, ask_set_verdict, enter, give_up_set_verdict, release_set_verdict, set_verdict,
    turn_verdict,
};
use request::Seen;
use rows::live;

// The refusals of a beat are those of an entry. It names no job; job 0 stands in, which is never refused as 4.
pub fn clock_verdict(s: Seen, tick: Tick) -> Result<u64, Refusal>
    ensures { outcome_of result ≡ outcome (event_cases s (calling 0 tick.0 0) Beat) (time_from s.time tick.0) }
{
    enter(s, 0, tick)
}

// 7, 11, 12, 16: what is asked of an opening once it may enter.
fn open_at(s: Seen, set: u64) -> Result<(), Refusal>
    ensures { outcome_of result ≡ outcome (open_cases s set) tt }
{
    if live(s.row) {
        return Err(Refusal::AlreadyLive);
    }
    set_verdict(s.resources, set)?;
    turn_verdict(s.last)
}

// The refusals of a completion apart from its list: those of a job that acts.
pub fn complete_verdict(s: Seen, job: u32, tick: Tick) -> Result<u64, Refusal>
    ensures { outcome_of result ≡ outcome (event_cases s (calling job tick.0 0) Complete) (time_from s.time tick.0) }
{
    let time = enter(s, job, tick)?;
    actor_verdict(s)?;
    Ok(time)
}

// The refusals of an opening.
pub fn open_verdict(s: Seen, job: u32, tick: Tick, set: u64) -> Result<u64, Refusal>
    ensures { outcome_of result ≡ outcome (event_cases s (calling job tick.0 set) Open) (time_from s.time tick.0) }
{
    let time = enter(s, job, tick)?;
    open_at(s, set)?;
    Ok(time)
}

// The entry and 8 to 12: the refusals of a job that acts on a set, which a release and a give up share.
fn act_on_verdict(s: Seen, job: u32, tick: Tick, set: u64) -> Result<u64, Refusal>
    ensures { outcome_of result ≡ outcome (act_on_cases s (calling job tick.0 set)) (time_from s.time tick.0) }
{
    let time = complete_verdict(s, job, tick)?;
    set_verdict(s.resources, set)?;
    Ok(time)
}

// The refusals of a give up apart from its list.
pub fn give_up_verdict(s: Seen, job: u32, tick: Tick, set: u64) -> Result<u64, Refusal>
    ensures { outcome_of result ≡ outcome (event_cases s (calling job tick.0 set) GiveUp) (time_from s.time tick.0) }
{
    let time = act_on_verdict(s, job, tick, set)?;
    give_up_set_verdict(s.row, set)?;
    Ok(time)
}

// The refusals of an ask: those of a give up, and then its own.
pub fn ask_verdict(s: Seen, job: u32, tick: Tick, set: u64) -> Result<u64, Refusal>
    ensures { outcome_of result ≡ outcome (event_cases s (calling job tick.0 set) Ask) (time_from s.time tick.0) }
{
    let time = give_up_verdict(s, job, tick, set)?;
    ask_set_verdict(s.row, set)?;
    Ok(time)
}

// The refusals of a release.
pub fn release_verdict(s: Seen, job: u32, tick: Tick, set: u64) -> Result<u64, Refusal>
    ensures { outcome_of result ≡ outcome (event_cases s (calling job tick.0 set) Release) (time_from s.time tick.0) }
{
    let time = act_on_verdict(s, job, tick, set)?;
    release_set_verdict(s.row, set)?;
    Ok(time)
}
