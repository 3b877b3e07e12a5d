// Ticks, and the true time that they tell.
ghost use Rattle.std.specs.Prelude.{◌≡◌};
ghost use Rattle.event.specs.Clock.{forward};
ghost use Rattle.event.specs.Refusals.{outcome_of};

use crate::limits::HIGHEST;
use crate::refusal::Refusal;

// Ticks start again from 0 after 2^32 - 1.
const WRAP: u64 = 4_294_967_296;

// From this difference on the clock has gone back: 2^31.
const GONE_BACK: u64 = 2_147_483_648;

// An hour. Above this difference the clock has leapt.
const HOUR: u64 = 3_600_000;

// The drive's millisecond counter. A type of its own, so that no turn can stand in its place.
#[repr(C)]
#[derive(Clone, Copy, Debug, PartialEq, Eq)]
pub struct Tick(pub u32);

// The true time that `tick` gives after true time `time`, or why it is refused.
#[tactic(auto, unfolding(crate::specs::Clock::forward, laws::specs::Cases::outcome, laws::specs::Cases::first))]
pub fn forward(time: u64, tick: Tick) -> Result<u64, Refusal>
    ensures { outcome_of result ≡ forward time tick.0 }
{
    let low = time % WRAP;
    let difference = (tick.0 as u64 + WRAP - low) % WRAP;
    let room = HIGHEST - difference;
    if GONE_BACK <= difference {
        return Err(Refusal::ClockGoneBack);
    }
    if HOUR < difference {
        return Err(Refusal::ClockLeap);
    }
    if room < time {
        return Err(Refusal::TimeSpent);
    }
    Ok(time + difference)
}
