// A case: its bytes, the call that its number asks for, and what it hands to that call.
#![tactic(auto)]

mod calls;
mod handed;
mod layout;

pub use calls::{Call, call_numbered};
pub use handed::{event_in, lend, start_in};
pub use layout::{CASE, Case, case_of, table_of};
