ghost use Rattle.std.specs.Prelude.{◌≡◌, ℕ, ◌<◌, not, ◌&&◌, ◌||◌, MatchBool, MatchOption, ◌==◌, nat_lt, length, slice_index, slice_set};
ghost use Rattle.std.specs.Iterator.{at_most};
ghost use Rattle.sets.specs.Mask.{has};
ghost use Rattle.configurations.specs.Holds.{holds, same, Nothing, Something, Foremost, Less, Takes, weight};

use crate::set::{Configurations, InOrder};
use crate::{Configuration, MEMORIES};
use sets::StateSet;

impl Configurations {
    // No configuration at all.
    pub fn none() -> Configurations
        ensures { Nothing result.states }
    {
        Configurations {
            states: [0; MEMORIES],
        }
    }

    // How many memories there are, each with its set of states.
    fn memories(&self) -> u8
        ensures sets { result ≡ length self.now.states }
        ensures four { result ≡ 4 }
    {
        self.states.as_slice().len() as u8
    }

    // The states that are in the set with a memory; none past the last memory.
    pub fn at(&self, memory: u8) -> StateSet
        ensures { result ≡ slice_index self.now.states memory }
    {
        StateSet::from(self.states.get(memory as usize).copied().unwrap_or(0))
    }

    // Sets the states that are in the set with a memory; past the last memory nothing changes.
    fn set(&mut self, memory: u8, states: StateSet)
        ensures changed { self.new.states ≡ slice_set self.old.states memory states }
        ensures memories { length self.old.states ≡ 4 }
    {
        let memory = memory as usize;
        if memory < MEMORIES {
            self.states[memory] = u64::from(states);
        }
    }

    pub fn contains(&self, at: Configuration) -> bool
        ensures { result ≡ holds self.now.states at.memory at.state }
    {
        self.at(at.memory).contains(at.state)
    }

    // Puts a set of states with a memory into the set; past the last memory nothing changes.
    pub fn add(&mut self, memory: u8, states: StateSet)
        ensures { (m s : ℕ) → holds self.new.states m s ≡ (holds self.old.states m s || (nat_lt memory 4 && (memory == m && has states s))) }
    {
        self.set(memory, self.at(memory).union(states));
    }

    // Puts a configuration into the set; past the last memory or the last state nothing changes.
    pub fn insert(&mut self, at: Configuration)
        ensures { (m s : ℕ) → holds self.new.states m s ≡ (holds self.old.states m s || ((nat_lt at.memory 4 && nat_lt at.state 64) && same at.memory at.state m s)) }
    {
        self.add(at.memory, StateSet::only(at.state));
    }

    // Takes a configuration out of the set.
    pub fn remove(&mut self, at: Configuration)
        ensures { Less at.memory at.state self.old.states self.new.states }
    {
        self.set(at.memory, self.at(at.memory).except(at.state));
    }

    // The configurations of the set that are not in the other.
    pub fn without(&self, other: &Configurations) -> Configurations
        ensures { (m s : ℕ) → holds result.states m s ≡ (holds self.now.states m s && not (holds other.now.states m s)) }
    {
        let mut left = *self;
        for memory in 0..self.memories() {
            left.set(memory, self.at(memory).without(other.at(memory)));
        }
        left
    }

    // The configuration of smallest number.
    pub fn first(&self) -> Option<Configuration>
        ensures { MatchOption result (Nothing self.now.states) (λ c. Foremost self.now.states c) }
    {
        for memory in 0..self.memories() {
            if let Some(state) = self.at(memory).first() {
                return Some(Configuration { memory, state });
            }
        }
        None
    }

    pub fn is_empty(&self) -> bool
        ensures { MatchBool result (Nothing self.now.states) (Something self.now.states) }
    {
        self.first().is_none()
    }

    // Its configurations, by their numbers.
    pub fn in_order(self) -> InOrder
        ensures { result ≡ self.states }
    {
        InOrder { left: self }
    }
}

impl Iterator for InOrder {
    type Item = Configuration;

    ghost next_gives = { λ s r t. Takes s r t };

    ghost remaining = { λ s. at_most (weight s) };

    fn next(&mut self) -> Option<Configuration> {
        let first = self.left.first()?;
        self.left.remove(first);
        Some(first)
    }
}
