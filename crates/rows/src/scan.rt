// How many requests there are, by one look at all rows.
ghost use Rattle.std.specs.Prelude.{◌≡◌};
ghost use Rattle.laws.specs.Lists.{count};
ghost use Rattle.rows.specs.Order.{live};

use crate::row::{Row, live};
use event::JOBS;

// How many rows are live.
pub fn live_count(rows: &[Row; JOBS]) -> u32
    ensures { result ≡ count live rows.now }
{
    rows.iter().filter(|r| live(**r)).count() as u32
}
