ghost use Rattle.std.specs.Prelude.{◌+◌, ◌*◌, ◌<◌, ◌≤◌};

mod calls;

// The counts of an environment. They keep its limits; where there are states, there are observations.
#[derive(Clone, Copy, Debug, PartialEq, Eq)]
pub struct Counts {
    pub actions: u8,
    pub observations: u8,
    pub states: u8,
    ghost few_actions: { actions ≤ 8 },
    ghost few_observations: { observations ≤ 16 },
    ghost few_states: { states ≤ 64 },
    ghost seen: { 0 < states → 0 < observations },
}

// A state of a pair: a state of each part.
#[derive(Clone, Copy, Debug, PartialEq, Eq)]
pub struct Parts {
    pub first: u8,
    pub second: u8,
}

// An action of a pair: an action of one part.
#[derive(Clone, Copy, Debug, PartialEq, Eq)]
pub enum Mover {
    First(u8),
    Second(u8),
}

// The counts of both parts, by which the states, observations and actions of a pair are numbered. They keep the limits, so that all
// of the pair's numbers do; where there are states, there are observations.
#[derive(Clone, Copy, Debug, PartialEq, Eq)]
pub struct Shape {
    pub first: Counts,
    pub second: Counts,
    ghost able: { first.actions + second.actions ≤ 8 },
    ghost narrow: { first.observations * second.observations ≤ 16 },
    ghost few: { first.states * second.states ≤ 64 },
    ghost seen: { 0 < first.states * second.states → 0 < first.observations * second.observations },
}
