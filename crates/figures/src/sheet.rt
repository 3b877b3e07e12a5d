// The figures that are kept: those of each job, and what is counted in all.
ghost use Rattle.std.specs.Prelude.{◌≡◌, max};
ghost use Rattle.event.specs.Refusals.{number_of};
ghost use Rattle.figures.specs.Sheet.{accepted_at, late_at, more, no_figures, raised, refused_as, waited};

use event::{JOBS, Kind, Refusal};
use follow::State;

// How many numbers of refusals there are: 1 to 23, and 0, which no refusal has.
pub const NUMBERS: usize = 24;

// When a record came: its number and its time.
#[derive(Clone, Copy)]
pub struct Stamp {
    pub number: u64,
    pub time: u64,
}

// At how many records a job was overdue, and the first and the last of them.
#[derive(Clone, Copy)]
pub struct Overdue {
    pub records: u64,
    pub first: Stamp,
    pub last: Stamp,
}

// The figures of a job.
#[derive(Clone, Copy)]
pub struct JobFigures {
    // records that name it, accepted openings and completions, refused records that name it
    pub named: u64,
    pub openings: u64,
    pub completions: u64,
    pub refusals: u64,
    // the longest wait for a token and for a set, and the longest time from an open to its complete
    pub token_wait: u64,
    pub set_wait: u64,
    pub request: u64,
    pub overdue: Option<Overdue>,
    // when its request was opened
    pub opened: u64,
}

// The figures of a recording.
#[derive(Clone, Copy)]
pub struct Figures {
    pub(crate) jobs: [JobFigures; JOBS],
    // refused records, and those of each number
    pub(crate) refused: u64,
    pub(crate) by_number: [u64; NUMBERS],
    // the time of the start
    pub(crate) from: u64,
    pub(crate) most_live: u64,
    pub(crate) most_tokens: u64,
}

// Counts one more, as long as there are numbers.
pub fn add_one(count: &mut u64)
    ensures { count.new ≡ more count.old }
{
    *count = count.saturating_add(1);
}

// Keeps the greater of a figure and a number.
fn keep_greater(figure: &mut u64, number: u64)
    ensures { figure.new ≡ max figure.old number }
{
    *figure = (*figure).max(number);
}

impl JobFigures {
    // An accepted event that names the job.
    pub fn accept(&mut self, kind: Kind, time: u64)
        ensures { self.new ≡ accepted_at kind time self.old }
    {
        match kind {
            Kind::Open => {
                add_one(&mut self.openings);
                self.opened = time;
            }
            Kind::Complete => {
                add_one(&mut self.completions);
                keep_greater(&mut self.request, time.saturating_sub(self.opened));
            }
            _ => {}
        }
    }

    // A wait that lasted so long, or lasts so long by now. Who does not wait adds nothing.
    pub fn wait(&mut self, state: State, long: u64)
        ensures { self.new ≡ waited state long self.old }
    {
        match state {
            State::WaitsForToken => keep_greater(&mut self.token_wait, long),
            State::WaitsForSet => keep_greater(&mut self.set_wait, long),
            State::Idle | State::HasToken => {}
        }
    }

    // A record at which the job is overdue.
    pub fn be_late(&mut self, at: Stamp)
        ensures { self.new ≡ late_at at self.old }
    {
        self.overdue = Some(match self.overdue {
            None => Overdue {
                records: 1,
                first: at,
                last: at,
            },
            Some(mut known) => {
                add_one(&mut known.records);
                Overdue { last: at, ..known }
            }
        });
    }
}

impl Figures {
    // Before the first record.
    pub fn new() -> Figures
        ensures { result ≡ no_figures }
    {
        let unnamed = JobFigures {
            named: 0,
            openings: 0,
            completions: 0,
            refusals: 0,
            token_wait: 0,
            set_wait: 0,
            request: 0,
            overdue: None,
            opened: 0,
        };
        Figures {
            jobs: [unnamed; JOBS],
            refused: 0,
            by_number: [0; NUMBERS],
            from: 0,
            most_live: 0,
            most_tokens: 0,
        }
    }

    // A refusal, in all and under its number.
    pub fn refuse(&mut self, refusal: Refusal)
        ensures { self.new ≡ refused_as self.old (number_of refusal) }
    {
        let number = u32::from(refusal) as usize;
        add_one(&mut self.refused);
        add_one(&mut self.by_number[number]);
    }

    // How many requests are live and how many tokens in use.
    pub fn raise(&mut self, live: u64, tokens: u64)
        ensures { self.new ≡ raised self.old live tokens }
    {
        keep_greater(&mut self.most_live, live);
        keep_greater(&mut self.most_tokens, tokens);
    }
}
