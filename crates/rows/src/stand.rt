// What stands before a turn, and what follows from it.
ghost use Rattle.std.specs.Prelude.{◌<◌, ◌≡◌};
ghost use Rattle.event.specs.Limits.{jobs};
ghost use Rattle.rows.specs.Known.{token_by, waiting_by};
ghost use Rattle.rows.specs.Stand.{behind, front};

use crate::row::{Row, live};
use laws::sets;

// What is known of a turn: how many live rows stand before it, and all that those declare.
#[derive(Clone, Copy)]
pub struct Standing {
    pub ahead: u32,
    pub claims: u64,
}

// The standing of the first in line: nobody stands before it.
pub fn front() -> Standing
    ensures { result ≡ front }
{
    Standing {
        ahead: 0,
        claims: 0,
    }
}

// The standing of the next in line, behind this row. No standing has more before it than there are jobs.
pub fn behind(s: Standing, r: Row) -> Standing
    requires { s.ahead < jobs }
    ensures { result ≡ behind s r }
{
    Standing {
        ahead: s.ahead + 1,
        claims: sets::union(s.claims, r.declared),
    }
}

// Whether a turn of this standing holds a token.
pub fn token(s: Standing, tokens: u32) -> bool
    ensures { result ≡ token_by tokens s }
{
    s.ahead < tokens
}

// Whether the row waits: live, and with no token or with a set that it asked for.
pub fn waiting(r: Row, s: Standing, tokens: u32) -> bool
    ensures { result ≡ waiting_by tokens s r }
{
    live(r) && (!token(s, tokens) || 0 < r.asked)
}
