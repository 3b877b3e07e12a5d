// The calls and their numbers.
ghost use Rattle.std.specs.Prelude.{◌≡◌};
ghost use Rattle.cases.specs.Calls.{call_numbered, event_call_numbered};

use event::Kind;

// From this number on an event is written, not made.
const WRITING: u64 = 8;

// A call: an event made, one of the two questions, a start made, or an event or a start written.
#[derive(Clone, Copy)]
pub enum Call {
    Event(Kind),
    Report,
    Overdue,
    Start,
    Write(Kind),
    WriteStart,
}

// The calls of events: the kind's number if the event is made, that number plus WRITING if it is written. A give up's number is
// taken by a question, so it has numbers of its own.
fn event_call_numbered(number: u64) -> Option<Call>
    ensures { result ≡ event_call_numbered number }
{
    if number < WRITING {
        Kind::try_from(number).ok().map(Call::Event)
    } else {
        Kind::try_from(number - WRITING).ok().map(Call::Write)
    }
}

// The call of this number, if one has it.
pub fn call_numbered(number: u8) -> Option<Call>
    ensures { result ≡ call_numbered number }
{
    match number {
        5 => Some(Call::Report),
        6 => Some(Call::Overdue),
        7 => Some(Call::Start),
        13 => Some(Call::WriteStart),
        14 => Some(Call::Event(Kind::GiveUp)),
        15 => Some(Call::Write(Kind::GiveUp)),
        _ => event_call_numbered(number as u64),
    }
}
