// What a case hands to its call.
ghost use Rattle.std.specs.Prelude.{◌≡◌, length};
ghost use Rattle.cases.specs.Calls.{case_event, case_start, lent};

use crate::layout::Case;
use arbiter::Table;
use event::{Event, Kind, Parts, Start};

// The event of that kind that a case hands over.
pub fn event_in(case: Case, kind: Kind) -> Event
    ensures { result ≡ case_event case kind }
{
    Event::from(Parts {
        kind,
        job: case.job,
        tick: case.tick,
        set: case.set,
    })
}

// The start that a case hands over, with the numbers of its table.
pub fn start_in(case: Case, table: &Table) -> Start
    ensures { result ≡ case_start case table.now }
{
    Start {
        tokens: table.tokens,
        resources: table.resources,
        tick: case.tick,
        limit: table.limit,
    }
}

// Fills the lent list with what stands there before a call: entry i is (7i + 3) modulo 256.
pub fn lend(list: &mut [u8])
    ensures { list.new ≡ lent (length list.old) }
{
    for (i, entry) in list.iter_mut().enumerate() {
        *entry = ((i % 256 * 7 + 3) % 256) as u8;
    }
}
