ghost use Rattle.std.specs.Prelude.{◌≡◌, ◌+◌, ◌*◌, ◌&&◌, nat_le};
ghost use Rattle.pair.specs.Numbering.{sizes_of, parts_of, mover_of, sight_of, Shaped};
ghost use Rattle.pair.specs.Pairs.{product as product_of};

use crate::shape::{Counts, Mover, Parts, Shape};
use environment::{MOST_ACTIONS, MOST_OBSERVATIONS, MOST_STATES};
use sets::StateSet;

// The counts of the empty environment.
const NONE: Counts = Counts {
    actions: 0,
    observations: 0,
    states: 0,
};

// Do the counts of a pair keep the limits?
fn within_limits(first: Counts, second: Counts) -> bool
    ensures { result ≡ (nat_le (first.actions + second.actions) 8 && (nat_le (first.observations * second.observations) 16 && nat_le (first.states * second.states) 64)) }
{
    let observations = u16::from(first.observations) * u16::from(second.observations);
    let states = u16::from(first.states) * u16::from(second.states);
    first.actions + second.actions <= MOST_ACTIONS
        && observations <= u16::from(MOST_OBSERVATIONS)
        && states <= u16::from(MOST_STATES)
}

impl Shape {
    // The shape of a pair of parts with these counts; that of no pair, all zero, if a part is empty or a count passes its limit.
    pub(crate) fn of(first: Counts, second: Counts) -> Shape
        ensures { Shaped (sizes_of first) (sizes_of second) (sizes_of result.first) (sizes_of result.second) }
    {
        if first == NONE || second == NONE || !within_limits(first, second) {
            return Shape {
                first: NONE,
                second: NONE,
            };
        }
        Shape { first, second }
    }

    pub(crate) fn actions(&self) -> u8
        ensures { result ≡ self.now.first.actions + self.now.second.actions }
    {
        self.first.actions + self.second.actions
    }

    pub(crate) fn observations(&self) -> u8
        ensures { result ≡ self.now.first.observations * self.now.second.observations }
    {
        self.first.observations * self.second.observations
    }

    pub(crate) fn states(&self) -> u8
        ensures { result ≡ self.now.first.states * self.now.second.states }
    {
        self.first.states * self.second.states
    }

    // The parts of a state, if it is one of the pair.
    pub(crate) fn parts(&self, state: u8) -> Option<Parts>
        ensures { result ≡ parts_of (sizes_of self.now.first) (sizes_of self.now.second) state }
    {
        if state < self.states() {
            Some(Parts {
                first: state / self.second.states,
                second: state % self.second.states,
            })
        } else {
            None
        }
    }

    // The part that an action moves, if it is one of the pair.
    pub(crate) fn mover(&self, action: u8) -> Option<Mover>
        ensures { result ≡ mover_of (sizes_of self.now.first) (sizes_of self.now.second) action }
    {
        if action < self.first.actions {
            Some(Mover::First(action))
        } else if action < self.actions() {
            Some(Mover::Second(action - self.first.actions))
        } else {
            None
        }
    }

    // The observation of a state whose parts have these; 0 for one that a part does not have.
    pub(crate) fn sight(&self, first: u8, second: u8) -> u8
        ensures { result ≡ sight_of (sizes_of self.now.first) (sizes_of self.now.second) first second }
    {
        if first < self.first.observations && second < self.second.observations {
            first * self.second.observations + second
        } else {
            0
        }
    }

    // The states whose first part is in one set and whose second part is in the other: a copy of the second set for each state of the
    // first.
    pub(crate) fn product(&self, first: StateSet, second: StateSet) -> StateSet
        ensures { result ≡ product_of self.now.first.states self.now.second.states first second }
    {
        let width = self.second.states;
        let rows = first.intersection(StateSet::below(self.first.states));
        let row = second.intersection(StateSet::below(width));
        let mut set = StateSet::EMPTY;
        for part in rows.states() {
            set = set.union(row.moved_up(part * width));
        }
        set
    }
}
