// Each call, made with what its case hands to it, and what it leaves.
ghost use Rattle.std.specs.Prelude.{◌≡◌};
ghost use Rattle.arbiter.specs.Answers.{said_of};
ghost use Rattle.event.specs.Refusals.{outcome_of};
ghost use Rattle.called.specs.Left.{left, list_after, list_of, start_left, tabled, untabled};
ghost use Rattle.called.specs.Lines.{answer_line, writing_line};

use crate::lines;
use crate::lines::Line;
use arbiter::{Next, Table};
use cases::{Call, Case};
use event::{Entry, Kind, Refusal, Tick};

// What is shown after the line of what a call says.
#[derive(Clone, Copy)]
pub enum Part {
    Nothing,
    List,
    Table,
}

// What a call leaves: the line of what it says, the two parts after it, and the table.
#[derive(Clone, Copy)]
pub struct Left {
    pub line: Line,
    pub then: Part,
    pub last: Part,
    pub table: Table,
}

// What is shown after the answer to an event of that kind: the list, if it may wake others.
fn listed(kind: Kind) -> Part
    ensures { result ≡ list_of kind }
{
    if kind.shape().wakes {
        Part::List
    } else {
        Part::Nothing
    }
}

// What a call leaves that is shown with its table.
fn tabled(line: Line, then: Part, table: Table) -> Left
    ensures { result ≡ tabled line then table }
{
    Left {
        line,
        then,
        last: Part::Table,
        table,
    }
}

// What an event or a start leaves.
fn next_left(next: Next, then: Part) -> Left
    ensures { result ≡ tabled (answer_line (said_of next.answer)) then next.table }
{
    tabled(lines::answer(next.answer), then, next.table)
}

// What a start with the numbers of the table leaves.
fn start_left(tick: Tick, table: Table) -> Left
    ensures { result ≡ start_left table tick.0 }
{
    let start = Table::start(table.tokens, table.resources, tick, table.limit);
    next_left(start, Part::Nothing)
}

// What the writing of an entry leaves.
fn write_left(written: Result<(), Refusal>, table: Table) -> Left
    ensures { result ≡ untabled (writing_line (outcome_of written)) table }
{
    Left {
        line: lines::writing(written),
        then: Part::List,
        last: Part::Nothing,
        table,
    }
}

// What any call leaves, with a list lent to it. A match, since each arm is a call of its own.
pub fn left_by(case: Case, call: Call, table: Table, list: &mut [u8]) -> Left
    ensures value { result ≡ left case table list.old call }
    ensures list_after { list.new ≡ list_after case table list.old call }
{
    match call {
        Call::Event(kind) => {
            next_left(table.apply(cases::event_in(case, kind), list), listed(kind))
        },
        Call::Report => tabled(
            lines::reported(asking::report(&table, case.job)),
            Part::Nothing,
            table,
        ),
        Call::Overdue => tabled(
            lines::late(asking::overdue(&table, case.tick, list)),
            Part::List,
            table,
        ),
        Call::Start => start_left(case.tick, table),
        Call::Write(kind) => write_left(
            writing::write(Entry::Event(cases::event_in(case, kind)), list),
            table,
        ),
        Call::WriteStart => write_left(
            writing::write(Entry::Start(cases::start_in(case, &table)), list),
            table,
        ),
    }
}
