// Standard input and standard output of the programs. Bytes come in whole pieces; text and numbers go out through the room of
// a printer, so that the system is called once for many of them.
#![tactic(auto)]

mod input;
mod print;

pub use input::{ReadFailed, fill};
pub use print::{Printer, write_out};
