// Laws that mention nothing of drives, and the functions on sets that code calls.
#![tactic(auto)]

pub mod sets;
