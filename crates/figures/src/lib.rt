// The figures of a recording, as `bin/desk stats` prints them. For programs only.
#![tactic(auto)]

mod counting;
mod printing;
mod sheet;

pub use sheet::Figures;
