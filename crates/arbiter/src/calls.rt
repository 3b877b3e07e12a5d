// The start and the six events. An event takes the table by value and returns the next.
ghost use Rattle.std.specs.Prelude.{false, true, ◌≡◌};
ghost use Rattle.event.specs.Events.{about};
ghost use Rattle.event.specs.Limits.{jobs};
ghost use Rattle.event.specs.declared.events.Event.TheVariants.{Ask, Beat, Complete, GiveUp, Open, Release};
ghost use Rattle.arbiter.specs.Promises.{Answered, AnsweredInto, Started};

use crate::table::{Next, Table};
use decision::Answer;
use event::{Event, Refusal, Tick};
use soundness::in_range;

impl Table {
    // A table with all rows idle; true time is the start tick. A refused start gives the all-zero table.
    pub fn start(tokens: u32, resources: u32, tick: Tick, limit: u32) -> Next
        ensures { Started tokens resources tick.0 limit result }
    {
        if !in_range(tokens, resources, limit) {
            return Next::refused(Table::zero(), Refusal::BadStart);
        }
        let table = Table {
            tokens,
            resources,
            limit,
            time: tick.0 as u64,
            ..Table::zero()
        };
        Next {
            answer: Ok(Answer::Done),
            table,
        }
    }

    // An event that wakes nobody. It is carried out where the answer's table lies, so that the table is copied once.
    fn taking(self, event: Event) -> Next
        requires { (about event).wakes ≡ false }
        ensures { Answered jobs self event result }
    {
        let mut next = Next {
            answer: Ok(Answer::Done),
            table: self,
        };
        next.answer = next.table.carry(event);
        next
    }

    // An event that may wake others; who was woken is written to the lent list.
    fn taking_into(self, event: Event, woken: &mut [u8]) -> Next
        requires { (about event).wakes ≡ true }
        ensures { AnsweredInto self event woken.old result woken.new }
    {
        let mut table = self;
        let answer = table.carry_waking(event, woken);
        Next { answer, table }
    }

    // Only the clock moves.
    pub fn beat(self, tick: Tick) -> Next
        ensures { Answered jobs self (Beat tick) result }
    {
        self.taking(Event::Beat(tick))
    }

    // The job has a request with the next turn and this declared set.
    pub fn open(self, job: u32, tick: Tick, declared: u64) -> Next
        ensures { Answered jobs self (Open job tick declared) result }
    {
        self.taking(Event::Open {
            job,
            tick,
            set: declared,
        })
    }

    // The whole set is held if Q3 allows it, else the whole set is asked.
    pub fn ask(self, job: u32, tick: Tick, wanted: u64) -> Next
        ensures { Answered jobs self (Ask job tick wanted) result }
    {
        self.taking(Event::Ask {
            job,
            tick,
            set: wanted,
        })
    }

    // The members leave the held set; the declared set is left alone.
    pub fn release(self, job: u32, tick: Tick, members: u64) -> Next
        ensures { Answered jobs self (Release job tick members) result }
    {
        self.taking(Event::Release {
            job,
            tick,
            set: members,
        })
    }

    // The row becomes idle, and whoever can go on goes on.
    pub fn complete(self, job: u32, tick: Tick, woken: &mut [u8]) -> Next
        ensures { AnsweredInto self (Complete job tick) woken.old result woken.new }
    {
        self.taking_into(Event::Complete { job, tick }, woken)
    }

    // The members leave the held and the declared set for good, and whoever can go on goes on.
    pub fn give_up(self, job: u32, tick: Tick, members: u64, woken: &mut [u8]) -> Next
        ensures { AnsweredInto self (GiveUp job tick members) woken.old result woken.new }
    {
        self.taking_into(
            Event::GiveUp {
                job,
                tick,
                set: members,
            },
            woken,
        )
    }

    // Any event: each kind has a call of its own.
    pub fn apply(self, event: Event, woken: &mut [u8]) -> Next
        ensures { AnsweredInto self event woken.old result woken.new }
    {
        match event {
            Event::Beat(tick) => self.beat(tick),
            Event::Open { job, tick, set } => self.open(job, tick, set),
            Event::Ask { job, tick, set } => self.ask(job, tick, set),
            Event::Release { job, tick, set } => self.release(job, tick, set),
            Event::Complete { job, tick } => self.complete(job, tick, woken),
            Event::GiveUp { job, tick, set } => self.give_up(job, tick, set, woken),
        }
    }
}
