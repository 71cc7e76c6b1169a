// Configurations, each a memory with a state, and sets of them.
#![tactic(auto)]

mod set;

pub use crate::set::{Configurations, InOrder};

// The memories and the states that a configuration may have.
pub const MEMORIES: usize = 4;

pub const STATES: usize = 64;

#[derive(Clone, Copy, Debug, PartialEq, Eq)]
pub struct Configuration {
    pub memory: u8,
    pub state: u8,
}
