// Pairs: two environments side by side, of which one moves at a time.
#![tactic(auto)]

ghost use Rattle.std.specs.Prelude.{◌≡◌, ◌+◌, ◌*◌};
ghost use Rattle.pair.specs.Numbering.{by_shape, sizes_of, AreCounts};
ghost use Rattle.pair.specs.Pairs.{PairOf};
ghost use Rattle.pair.specs.Paired.{by_shape_sound};
ghost use Rattle.std.proofs.Common.{rules};

mod shape;

use crate::shape::{Counts, Mover, Shape};
use environment::{Alphabet, Environment};
use sets::StateSet;

// Two environments side by side. State s1 * S2 + s2 is the first in state s1 and the second in s2, and observations go likewise; the
// first's actions come first, then those of the second, and each moves its own part alone. The counts of the parts are asked for once,
// when the pair is made.
#[derive(Clone, Copy, Debug, Drop, PartialEq, Eq)]
pub struct Pair<E, F> {
    first: E,
    second: F,
    shape: Shape,
}

// The counts of an environment.
fn counts<E: Environment>(environment: &E) -> Counts
    ensures { AreCounts (E.Environment.meaning environment.now) (sizes_of result) }
{
    Counts {
        actions: environment.actions(),
        observations: environment.observations(),
        states: environment.states(),
    }
}

// The counts by which the pair of two environments is numbered.
fn shape_of<E: Environment, F: Environment>(first: &E, second: &F) -> Shape
    ensures { PairOf (E.Environment.meaning first.now) (F.Environment.meaning second.now) (by_shape result (E.Environment.meaning first.now) (F.Environment.meaning second.now)) }
{
    Shape::of(counts(first), counts(second))
}

impl<E: Environment, F: Environment> Pair<E, F> {
    // The pair of the two environments; the empty environment, if a part is empty or a count passes its limit.
    pub fn new(first: E, second: F) -> Pair<E, F>
        ensures first { result.first ≡ first }
        ensures second { result.second ≡ second }
        ensures pair { PairOf (E.Environment.meaning first) (F.Environment.meaning second) (⟦<Pair<E, F> as Environment>⟧.meaning result) }
    {
        let shape = shape_of(&first, &second);
        Pair {
            first,
            second,
            shape,
        }
    }
}

impl<E: Environment, F: Environment> Alphabet for Pair<E, F> {
    ghost acts = { λ e. e.shape.first.actions + e.shape.second.actions };

    ghost sights = { λ e. e.shape.first.observations * e.shape.second.observations };

    fn actions(&self) -> u8 {
        self.shape.actions()
    }

    fn observations(&self) -> u8 {
        self.shape.observations()
    }
}

impl<E: Environment, F: Environment> Environment for Pair<E, F> {
    ghost meaning = { λ e. by_shape e.shape (E.Environment.meaning e.first) (F.Environment.meaning e.second) };

    ghost sound = { λ e. by_shape_sound e.shape (E.Environment.meaning e.first) (F.Environment.meaning e.second) };

    ghost same_actions = { Prim.search rules };

    ghost same_observations = { Prim.search rules };

    fn states(&self) -> u8 {
        self.shape.states()
    }

    fn initial(&self) -> StateSet {
        self.shape
            .product(self.first.initial(), self.second.initial())
    }

    fn goal(&self) -> StateSet {
        self.shape.product(self.first.goal(), self.second.goal())
    }

    fn observation(&self, state: u8) -> u8 {
        self.shape.parts(state).map_or(0, |at| {
            self.shape.sight(
                self.first.observation(at.first),
                self.second.observation(at.second),
            )
        })
    }

    fn outcomes(&self, state: u8, action: u8) -> StateSet {
        let Some(at) = self.shape.parts(state) else {
            return StateSet::EMPTY;
        };
        match self.shape.mover(action) {
            Some(Mover::First(action)) => self.shape.product(
                self.first.outcomes(at.first, action),
                StateSet::only(at.second),
            ),
            Some(Mover::Second(action)) => self.shape.product(
                StateSet::only(at.first),
                self.second.outcomes(at.second, action),
            ),
            None => StateSet::EMPTY,
        }
    }
}
