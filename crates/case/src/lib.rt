// A case: the search for the controllers of at most N memories that meet a finish rule in an environment, call by call.
#![tactic(auto)]

pub mod case;
