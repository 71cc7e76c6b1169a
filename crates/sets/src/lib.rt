// Sets of states, as 64-bit masks: bit t stands for state t.
#![tactic(auto)]

ghost use Rattle.std.specs.Prelude.{◌≡◌, ℕ, ◌^◌, ◌<◌, min, not, ◌&&◌, ◌||◌, if◌then◌else◌, true, Decides, MatchOption, ◌==◌, ◌-◌, nat_le, nat_lt};
ghost use Rattle.sets.specs.Laws.{SetLaws};
ghost use Rattle.sets.specs.Mask.{has, only as single, Smallest};

use std::marker::Model;

mod states;

pub use crate::states::States;

// A set of states, of which there are at most 64. A clause sees its mask, a number.
#[derive(Clone, Copy, Debug, PartialEq, Eq)]
pub struct StateSet {
    mask: u64,
}

impl Model for StateSet {
    ghost Value = { ℕ };

    ghost view = { λ s. s.mask };

    ghost invariant = { λ s. s.mask < 2 ^ 64 };

    ghost inverse = { λ n. record { mask = n } };
}

impl From<u64> for StateSet {
    ghost from_gives = { λ mask set. set ≡ mask };

    fn from(mask: u64) -> StateSet {
        StateSet { mask }
    }
}

impl From<StateSet> for u64 {
    ghost from_gives = { λ set mask. mask ≡ set };

    fn from(set: StateSet) -> u64 {
        set.mask
    }
}

impl StateSet {
    // No state at all.
    pub const EMPTY: StateSet = StateSet { mask: 0 };

    // The set of one state; there is none for a state past 63.
    pub fn only(state: u8) -> StateSet
        ensures { result ≡ (if nat_lt state 64 then single state else 0) }
    {
        StateSet {
            mask: if state < 64 { 1 << state } else { 0 },
        }
    }

    // The set of all states below the count, of the 64 that a set can hold.
    pub fn below(count: u8) -> StateSet
        ensures { (t : ℕ) → has result t ≡ nat_lt t (min count 64) }
    {
        StateSet {
            mask: if count == 0 {
                0
            } else {
                u64::MAX >> (64 - count.min(64))
            },
        }
    }

    pub fn is_empty(self) -> bool
        ensures { Decides result (self ≡ 0) }
    {
        self.mask == 0
    }

    // Is the state in the set? No set holds a state past 63.
    #[tactic(auto, using(crate::proofs::Bits::bit_test))]
    pub fn contains(self, state: u8) -> bool
        ensures { result ≡ has self state }
    {
        state < 64 && (self.mask >> state) & 1 == 1
    }

    // Does the set hold only states below the count?
    pub fn within(self, count: u8) -> bool
        ensures { Decides result (self < 2 ^ count) }
    {
        count >= 64 || self.mask >> count == 0
    }

    // The smallest state of the set.
    #[tactic(auto, using(crate::proofs::Members::smallest))]
    pub fn first(self) -> Option<u8>
        ensures { MatchOption result (self ≡ 0) (λ s. Smallest self s) }
    {
        if self.mask == 0 {
            None
        } else {
            Some(self.mask.trailing_zeros() as u8)
        }
    }

    // The set with the state in it; a state past 63 leaves the set as it is.
    pub fn with(self, state: u8) -> StateSet
        ensures { (t : ℕ) → has result t ≡ (has self t || (nat_lt state 64 && state == t)) }
    {
        match state {
            0..=63 => self.union(StateSet::only(state)),
            _ => self,
        }
    }

    // The set without the state in it. By the masks, and not by `without`: here it counts that no mask has a state past 63.
    pub fn except(self, state: u8) -> StateSet
        ensures { (t : ℕ) → has result t ≡ (has self t && not (state == t)) }
    {
        StateSet {
            mask: self.mask & !StateSet::only(state).mask,
        }
    }

    // The states of the set that are not in the other.
    #[tactic(auto, using(crate::proofs::Members::has_without))]
    pub fn without(self, other: StateSet) -> StateSet
        ensures { (t : ℕ) → has result t ≡ (has self t && not (has other t)) }
    {
        StateSet {
            mask: self.mask & !other.mask,
        }
    }

    // The states of either set.
    #[tactic(auto, using(crate::proofs::Bits::has_union))]
    pub fn union(self, other: StateSet) -> StateSet
        ensures { (t : ℕ) → has result t ≡ (has self t || has other t) }
    {
        StateSet {
            mask: self.mask | other.mask,
        }
    }

    // The states of both sets.
    #[tactic(auto, using(crate::proofs::Bits::has_intersection))]
    pub fn intersection(self, other: StateSet) -> StateSet
        ensures { (t : ℕ) → has result t ≡ (has self t && has other t) }
    {
        StateSet {
            mask: self.mask & other.mask,
        }
    }

    // The set with each of its states moved up by so many; those that come past 63 are gone.
    #[tactic(auto, using(crate::proofs::Shifts::has_shl))]
    pub fn moved_up(self, by: u8) -> StateSet
        ensures { (t : ℕ) → has result t ≡ (nat_lt t 64 && nat_le by t && has self (t - by)) }
    {
        StateSet {
            mask: self.mask.checked_shl(u32::from(by)).unwrap_or(0),
        }
    }

    // Its states, the smallest first.
    pub fn states(self) -> States
        ensures { result ≡ self }
    {
        States::of(self)
    }
}

// The laws of sets, which every proof about masks rests on.
pub fn laws()
    ensures { SetLaws }
{}
