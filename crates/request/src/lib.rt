// What is decided of one request, from numbers and its row: what an accepted event makes of the row, whether it wakes and
// whether it is late; and what a call sees of a table.
#![tactic(auto)]

mod change;
mod seen;

pub use change::{
    asked_row, given_up_row, goes_on, in_time_from, is_late, opened_row, released_row, wakes,
};
pub use seen::Seen;
