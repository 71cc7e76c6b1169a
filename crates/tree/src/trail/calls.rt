ghost use Rattle.std.specs.Prelude.{◌≡◌, ◌+◌, ◌≤◌, [], ◌∷◌, ◌++◌, ◌-◌, ◌<◌, length, slice_index_or, MatchBool, MatchOption};
ghost use Rattle.tree.specs.Trails.{places_of, unused, longer, shorter};

use crate::trail::Trail;
use controller::place::Place;
use controller::table::MOST_ENTRIES;

impl Trail {
    pub(crate) fn new() -> Trail
        ensures fresh { places_of result ≡ [] }
        ensures bare { result ≡ unused }
    {
        Trail {
            places: [Place {
                memory: 0,
                observation: 0,
            }; MOST_ENTRIES],
            depth: 0,
        }
    }

    // Puts a place at the end. False, with nothing changed, where the trail is full.
    pub(crate) fn push(&mut self, at: Place) -> bool
        ensures { MatchBool result ((length (places_of self.old) < 64) × (places_of self.new ≡ places_of self.old ++ at ∷ []) × (self.new ≡ longer at self.old) × (self.new.depth ≡ self.old.depth + 1)) ((64 ≤ length (places_of self.old)) × (self.new ≡ self.old)) }
    {
        if self.depth >= MOST_ENTRIES {
            return false;
        }
        self.places[self.depth] = at;
        self.depth += 1;
        true
    }

    // The place at the end.
    pub(crate) fn last(&self) -> Option<Place>
        ensures { MatchOption result ((places_of self.now ≡ []) × (self.now.depth ≡ 0)) (λ p. (0 < length (places_of self.now)) × (p ≡ slice_index_or (places_of self.now) (length (places_of self.now) - 1) (record { memory = 0; observation = 0 }))) }
    {
        if self.depth > 0 {
            Some(self.places[self.depth - 1])
        } else {
            None
        }
    }

    // Takes the place at the end off the trail.
    pub(crate) fn pop(&mut self) -> Option<Place>
        ensures { MatchOption result ((places_of self.old ≡ []) × (self.new ≡ self.old)) (λ p. (places_of self.old ≡ places_of self.new ++ p ∷ []) × (self.new ≡ shorter self.old) × (self.new.depth + 1 ≡ self.old.depth)) }
    {
        let last = self.last()?;
        self.depth -= 1;
        Some(last)
    }
}
