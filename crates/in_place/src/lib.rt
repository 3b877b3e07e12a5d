// The events on a table that is lent, answered in numbers: it is changed where it lies, and nothing of it is handed around.
#![tactic(auto)]

ghost use Rattle.std.specs.Prelude.{false, true, ◌≡◌};
ghost use Rattle.event.specs.Events.{about};
ghost use Rattle.event.specs.Limits.{jobs};
ghost use Rattle.in_place.specs.Promises.{InPlace, InPlaceInto};

use arbiter::Table;
use event::Event;
use numbers::EventAnswer;

// An event that wakes nobody, on a table that is lent.
pub fn carry(table: &mut Table, event: Event) -> EventAnswer
    requires { (about event).wakes ≡ false }
    ensures { InPlace jobs table.old event result table.new }
{
    EventAnswer::from(table.carry(event))
}

// An event that may wake others, on a table that is lent.
pub fn carry_waking(table: &mut Table, event: Event, woken: &mut [u8]) -> EventAnswer
    requires { (about event).wakes ≡ true }
    ensures { InPlaceInto table.old event woken.old result table.new woken.new }
{
    EventAnswer::from(table.carry_waking(event, woken))
}
