// What a dump shows of a job: its variables, and their values.
ghost use Rattle.std.specs.Prelude.{◌≡◌, ◌==◌, get_or};
ghost use Rattle.wave.specs.Views.{value_of, view_of};

use arbiter::Table;
use follow::{State, state_of};

// A variable of a job: its state as a number, the two bits of that, and its sets.
#[derive(Clone, Copy)]
pub enum Variable {
    State,
    Token,
    Waits,
    Declared,
    Held,
    Asked,
}

// The variables in the order in which a dump has them.
pub const VARIABLES: [Variable; 6] = [
    Variable::State,
    Variable::Token,
    Variable::Waits,
    Variable::Declared,
    Variable::Held,
    Variable::Asked,
];

impl Variable {
    // The letter that begins its id. The job follows.
    pub fn letter(self) -> u8 {
        match self {
            Variable::State => b's',
            Variable::Token => b'k',
            Variable::Waits => b'w',
            Variable::Declared => b'd',
            Variable::Held => b'h',
            Variable::Asked => b'a',
        }
    }

    // Its name. The job follows that of a bit, for viewers that know no scopes.
    pub fn name(self) -> &'static [u8] {
        match self {
            Variable::State => b" state",
            Variable::Token => b" token_",
            Variable::Waits => b" waits_",
            Variable::Declared => b" declared",
            Variable::Held => b" held",
            Variable::Asked => b" asked",
        }
    }

    // Whether it is one bit, which a dump writes without a space.
    pub fn is_bit(self) -> bool {
        matches!(self, Variable::Token | Variable::Waits)
    }

    // How many bits it has.
    pub fn width(self, resources: u32) -> u32 {
        match self {
            Variable::State => 2,
            Variable::Token | Variable::Waits => 1,
            Variable::Declared | Variable::Held | Variable::Asked => resources,
        }
    }
}

// What a dump shows of a job.
#[derive(Clone, Copy)]
pub struct View {
    state: State,
    declared: u64,
    held: u64,
    asked: u64,
}

impl View {
    // What it shows of a job of a table. One that no table has has no request.
    pub fn of(table: &Table, job: u32) -> View
        ensures { result ≡ view_of table.now job }
    {
        let state = state_of(table, job);
        match table.rows.get(job as usize) {
            None => View {
                state,
                declared: 0,
                held: 0,
                asked: 0,
            },
            Some(row) => View {
                state,
                declared: row.declared,
                held: row.held,
                asked: row.asked,
            },
        }
    }

    // The value of a variable.
    pub fn value(&self, variable: Variable) -> u64
        ensures { result ≡ value_of variable self.now }
    {
        match variable {
            Variable::State => u64::from(self.state),
            Variable::Token => {
                u64::from(matches!(self.state, State::HasToken | State::WaitsForSet))
            }
            Variable::Waits => {
                u64::from(matches!(self.state, State::WaitsForToken | State::WaitsForSet))
            }
            Variable::Declared => self.declared,
            Variable::Held => self.held,
            Variable::Asked => self.asked,
        }
    }
}

// Whether a job is shown: the mask has a 1 for it.
pub fn shown(mask: &[u8], job: u32) -> bool
    ensures { result ≡ (get_or mask.now job 0 == 49) }
{
    mask.get(job as usize) == Some(&b'1')
}
