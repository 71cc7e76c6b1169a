ghost use Rattle.std.specs.Prelude.{◌≡◌, ◌<◌, [], length, MatchOption};
ghost use Rattle.controller.specs.Tables.{SameCounts};
ghost use Rattle.tree.specs.Trails.{places_of};
ghost use Rattle.tree.specs.Walks.{Ascended, Back, Descended, Root, last_place};

use crate::bars::Bars;
use crate::choices::following;
use crate::trail::Trail;
use crate::walk::Walk;
use controller::entry::Entry;
use controller::place::Place;
use controller::table::Table;

impl Walk {
    // The root of the tree: every entry blank. The counts are three numbers here as in a table, since callers have them from three places.
    pub fn root(memories: u8, actions: u8, observations: u8) -> Walk
        ensures { Root memories actions observations result }
    {
        Walk {
            table: Table::blank(memories, actions, observations),
            trail: Trail::new(),
        }
    }

    // To the first child, which fills the entry with stop. False, with nothing changed, where the trail is full: an error would only hand
    // back the place that the caller has.
    pub fn descend(&mut self, at: Place) -> bool
        ensures { Descended at self.old self.new result }
    {
        if !self.trail.push(at) {
            return false;
        }
        self.table.set(at, Entry::Stop);
        true
    }

    // The place that was filled last; none at the root.
    fn last(&self) -> Option<Place>
        ensures { MatchOption result ((places_of self.now.trail ≡ []) × (self.now.trail.depth ≡ 0)) (λ p. (0 < length (places_of self.now.trail)) × (p ≡ last_place self.now)) }
    {
        self.trail.last()
    }

    // To the parent: the place that was filled last is blank again.
    fn ascend(&mut self)
        ensures { 0 < length (places_of self.old.trail) → Ascended self.old self.new }
    {
        if let Some(at) = self.trail.pop() {
            self.table.set(at, Entry::Blank);
        }
    }

    // To the next table of the order that does not lie below this one. False, back at the root, where there is none.
    pub fn retreat(&mut self, bars: &Bars) -> bool
        ensures way { Back bars.now self.old self.new result }
        ensures counts { SameCounts self.old.table self.new.table }
    {
        while let Some(at) = self.last() {
            let entry = self.table.entry(at);
            if let Some(next) = following(bars, &self.table, at.observation, entry) {
                self.table.set(at, next);
                return true;
            }
            self.ascend();
        }
        false
    }
}
