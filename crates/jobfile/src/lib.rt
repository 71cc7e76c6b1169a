// A job file: a bound on memories, a finish rule and a model sheet.
#![tactic(auto)]

pub mod job;
