// Shuttles: the smallest line on which a controller has to remember. A shuttle runs along a row of places and has to come back from the
// far end; it sees where it is, and never whether it has been there.
#![tactic(auto)]

ghost use Rattle.std.specs.Prelude.{◌≡◌, ℕ, ◌<◌, true, false, if◌then◌else◌, cond, ◌||◌, ◌&&◌, ◌==◌, nat_lt, MatchOption};
ghost use Rattle.sets.specs.Mask.{only as single};
ghost use Rattle.shuttle.specs.Shuttles.{shuttle as system, is_row, is_step, is_state, is_far_end, arrival_at, sight_of, KeepsBit};
ghost use Rattle.shuttle.specs.Spots.{IsSpot};
ghost use Rattle.shuttle.specs.Steps.{shuttle_sound};
ghost use Rattle.std.proofs.Common.{rules};

mod direction;
mod spot;

use crate::direction::Direction;
use crate::spot::Spot;
use environment::{Alphabet, Environment};
use sets::StateSet;
use std::ops::RangeBounds;

const FEWEST_PLACES: u8 = 2;

const MOST_PLACES: u8 = 32;

// A shuttle along a row of places. State 2p + f is place p with a bit f, which is set on arrival at the far end.
#[derive(Clone, Copy, Debug, PartialEq, Eq)]
pub struct Shuttle {
    places: u8,
}

impl Shuttle {
    // A shuttle of so many places, 2 to 32; with any other number it is the empty environment.
    pub fn new(places: u8) -> Shuttle
        ensures { result.places ≡ places }
    {
        Shuttle { places }
    }

    // Is there a shuttle of so many places?
    fn runs(&self) -> bool
        ensures { result ≡ is_row self.now.places }
    {
        (FEWEST_PLACES..=MOST_PLACES).contains(&self.places)
    }

    // Where a state is, if it is one of the shuttle's.
    fn spot(&self, state: u8) -> Option<Spot>
        ensures { MatchOption result (is_state self.now.places state ≡ false) (λ spot. (is_state self.now.places state ≡ true) × IsSpot state spot) }
    {
        (state < self.states()).then_some(Spot::from(state))
    }

    // The set of a state, if it is one of the shuttle's.
    fn only(&self, state: u8) -> StateSet
        ensures { result ≡ (if is_state self.now.places state then single state else 0) }
    {
        if state < self.states() {
            StateSet::only(state)
        } else {
            StateSet::EMPTY
        }
    }

    fn is_far_end(&self, place: u8) -> bool
        ensures { result ≡ is_far_end self.now.places place }
    {
        self.places.checked_sub(1) == Some(place)
    }

    // The place that an action leads to, if it leads to one: none leads off an end.
    fn neighbour(&self, place: u8, action: u8) -> Option<u8>
        requires { place < self.now.places }
        ensures { MatchOption result ((q : ℕ) → q < self.now.places → is_step action place q ≡ false) (λ q. (q < self.now.places) × (is_step action place q ≡ true)) }
    {
        match Direction::of(action)? {
            Direction::Left => place.checked_sub(1),
            Direction::Right if place < self.places - 1 => Some(place + 1),
            Direction::Right => None,
        }
    }

    // The state in which it comes to a place, with the bit that it had before.
    fn arrival(&self, place: u8, bit: bool) -> u8
        requires { place < 128 }
        ensures { result ≡ arrival_at self.now.places place (cond bit 1 0) }
    {
        u8::from(Spot {
            place,
            bit: bit || self.is_far_end(place),
        })
    }

    // The one state that an action leads to from a state, if it leads to any.
    fn destination(&self, state: u8, action: u8) -> Option<u8>
        ensures { MatchOption result ((system self.now.places).outcomes state action ≡ 0) (λ t. (t < 64) × ((system self.now.places).outcomes state action ≡ single t)) }
    {
        let spot = self.spot(state)?;
        let place = self.neighbour(spot.place, action)?;
        Some(self.arrival(place, spot.bit))
    }

    // What it sees at a place.
    fn sight(&self, place: u8) -> u8
        ensures { result ≡ sight_of self.now.places place }
    {
        if place == 0 {
            0
        } else if self.is_far_end(place) {
            2
        } else {
            1
        }
    }
}

impl Alphabet for Shuttle {
    ghost acts = { λ e. (system e.places).actions };

    ghost sights = { λ e. (system e.places).observations };

    fn actions(&self) -> u8 {
        if self.runs() { 2 } else { 0 }
    }

    fn observations(&self) -> u8 {
        if self.runs() { 3 } else { 0 }
    }
}

impl Environment for Shuttle {
    ghost meaning = { λ e. system e.places };

    ghost sound = { λ e. shuttle_sound e.places };

    ghost same_actions = { Prim.search rules };

    ghost same_observations = { Prim.search rules };

    fn states(&self) -> u8 {
        if self.runs() { 2 * self.places } else { 0 }
    }

    fn initial(&self) -> StateSet {
        self.only(0)
    }

    fn goal(&self) -> StateSet {
        self.only(1)
    }

    fn observation(&self, state: u8) -> u8 {
        self.spot(state).map_or(0, |spot| self.sight(spot.place))
    }

    fn outcomes(&self, state: u8, action: u8) -> StateSet {
        self.destination(state, action)
            .map_or(StateSet::EMPTY, StateSet::only)
    }
}

// On every move of every shuttle the bit stays as it is, except on arrival at the far end, where it is set.
pub fn keeps_its_bit()
    ensures { (n s a : ℕ) → KeepsBit n s ((system n).outcomes s a) }
{}
