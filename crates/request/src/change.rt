// What an accepted event makes of a row, and which rows a change lets go on.
ghost use Rattle.std.specs.Prelude.{◌+◌, ◌-◌, ◌<◌, ◌^◌, ◌≡◌};
ghost use Rattle.request.specs.Change.{asking, giving_up, opening, releasing};
ghost use Rattle.request.specs.Going.{goes_on, late_since, wakes_by};

use laws::sets;
use rows::{Row, Standing, Turn};

// The row of a request that is opened: the next turn, and a wait from now on if it has no token.
pub fn opened_row(last: Turn, token: bool, time: u64, set: u64) -> Row
    requires { last.0 < 2 ^ 63 }
    ensures { result ≡ opening last.0 token time set }
{
    Row {
        turn: Turn(last.0 + 1),
        declared: set,
        held: 0,
        asked: 0,
        since: if token { 0 } else { time },
    }
}

// The row of a request that asks: the whole set is held, or, if it is forbidden, the whole set is asked from now on.
pub fn asked_row(r: Row, forbidden: bool, time: u64, set: u64) -> Row
    ensures { result ≡ asking r forbidden time set }
{
    if forbidden {
        Row {
            asked: set,
            since: time,
            ..r
        }
    } else {
        Row {
            held: sets::union(r.held, set),
            ..r
        }
    }
}

// The row of a request that releases: the members are no longer held.
pub fn released_row(r: Row, set: u64) -> Row
    ensures { result ≡ releasing r set }
{
    Row {
        held: sets::without(r.held, set),
        ..r
    }
}

// The row of a request that gives up: the members are released, and no longer declared either.
pub fn given_up_row(r: Row, set: u64) -> Row
    ensures { result ≡ giving_up r set }
{
    Row {
        declared: sets::without(r.declared, set),
        ..released_row(r, set)
    }
}

// Whether a row with this standing, which has a token, waited and need not wait any more: it asks for what nobody before it
// declares now; or, where the line moved up, it is the last that has a token, and so had none up to now.
pub fn wakes(r: Row, s: Standing, tokens: u32, up: bool) -> bool
    requires { s.ahead < tokens }
    ensures { result ≡ wakes_by up tokens s r }
{
    !sets::meets(s.claims, r.asked) && ((0 < r.asked) | (up & (tokens - s.ahead == 1)))
}

// The row of a request that goes on: what it asked for it holds, and it has no waiting time.
pub fn goes_on(r: Row) -> Row
    ensures { result ≡ goes_on r }
{
    Row {
        held: sets::union(r.held, r.asked),
        asked: 0,
        since: 0,
        ..r
    }
}

// From which time on a wait up to `time` is shorter than the limit.
pub fn in_time_from(time: u64, limit: u32) -> u64
    requires { 0 < limit }
    ensures { result ≡ time + 1 - limit }
{
    time.saturating_sub(u64::from(limit) - 1)
}

// Whether a live row, with a token or without one, waits, and began to before that time. The times are compared first, since
// most rows that wait have no token.
pub fn is_late(r: Row, token: bool, from: u64) -> bool
    ensures { result ≡ late_since token from r }
{
    r.since < from && (!token | (0 < r.asked))
}
