use environment::Environment;
use finish::FinishRule;
use picture::Picture;
use tree::bars::Bars;
use tree::walk::Walk;

mod calls;
mod search;
mod views;

// Where a case stands.
#[derive(Clone, Copy, Debug, PartialEq, Eq)]
pub enum Phase {
    // Nothing is judged yet, and actions may be barred.
    New,
    // The walk stands at the next table to judge.
    Searching,
    // The walk stands at a table that meets the rule, the last one judged.
    Found,
    // Every table of the tree was judged, or left: there is no further one.
    Exhausted,
}

// What is asked of a case.
#[derive(Clone, Copy, Debug, PartialEq, Eq)]
pub enum Call {
    Bar { observation: u8, action: u8 },
    Begin { bound: u8 },
    Advance { amount: u32 },
    Next,
}

// What an advance answers: the state that it came to, and the tables judged in that call.
#[derive(Clone, Copy, Debug, PartialEq, Eq)]
pub struct Advance {
    pub phase: Phase,
    pub judged: u32,
}

// A case over an environment and a finish rule. The walk's table and trail are changed in place, and the picture is drawn over the last
// one, so that no call allocates.
#[derive(Drop)]
pub struct Case<E: Environment, R: FinishRule> {
    environment: E,
    rule: R,
    phase: Phase,
    bars: Bars,
    walk: Walk,
    picture: Picture,
}
