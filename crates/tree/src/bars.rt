use environment::{MOST_ACTIONS, MOST_OBSERVATIONS};

mod calls;

const ACTIONS: usize = MOST_ACTIONS as usize;

const OBSERVATIONS: usize = MOST_OBSERVATIONS as usize;

// Which actions are barred at which observation: a row of marks for each observation.
#[derive(Clone, Copy)]
pub struct Bars {
    barred: [[bool; ACTIONS]; OBSERVATIONS],
}
