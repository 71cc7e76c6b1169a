ghost use Rattle.std.specs.Prelude.{◌≡◌, ◌<◌, min, max, replicate, IfSome, if◌then◌else◌, Some, None};
ghost use Rattle.controller.specs.Tables.{entry_at, inside, place, read_as, Written};
ghost use Rattle.controller.specs.declared.entry.Entry.TheVariants.{Blank as blank};

use crate::entry::Entry;
use crate::place::Place;
use crate::table::{MOST_ENTRIES, MOST_MEMORIES, Table};
use environment::{MOST_ACTIONS, MOST_OBSERVATIONS};

impl Table {
    // The table with every entry blank. A count past its limit is taken as the limit, and no memory as one. Three numbers, since each caller
    // has them from three places.
    pub fn blank(memories: u8, actions: u8, observations: u8) -> Table
        ensures memories { result.memories ≡ max 1 (min memories 4) }
        ensures actions { result.actions ≡ min actions 8 }
        ensures observations { result.observations ≡ min observations 16 }
        ensures entries { result.entries ≡ replicate 64 blank }
    {
        Table {
            memories: memories.min(MOST_MEMORIES).max(1),
            actions: actions.min(MOST_ACTIONS),
            observations: observations.min(MOST_OBSERVATIONS),
            entries: [Entry::Blank; MOST_ENTRIES],
        }
    }

    pub fn memories(&self) -> u8
        ensures { result ≡ self.now.memories }
    {
        self.memories
    }

    pub fn actions(&self) -> u8
        ensures { result ≡ self.now.actions }
    {
        self.actions
    }

    pub fn observations(&self) -> u8
        ensures { result ≡ self.now.observations }
    {
        self.observations
    }

    // An entry as it reads here: one whose action or next memory the table does not have reads as blank.
    fn valid(&self, entry: Entry) -> Entry
        ensures { result ≡ read_as self.now entry }
    {
        match entry {
            Entry::Move { action, next } if action >= self.actions || next >= self.memories => {
                Entry::Blank
            }
            _ => entry,
        }
    }

    // Where the entry of a place stands in `entries`, if the table has it.
    fn index(&self, at: Place) -> Option<usize>
        ensures at { result ≡ (if inside self.now at.memory at.observation then Some (place self.now at.memory at.observation) else None) }
        ensures within { IfSome result (λ k. k < 64) }
    {
        if at.memory < self.memories && at.observation < self.observations {
            Some(at.memory as usize * self.observations as usize + at.observation as usize)
        } else {
            None
        }
    }

    // The entry at a place; blank where the table has none or it is not valid.
    pub fn entry(&self, at: Place) -> Entry
        ensures { result ≡ entry_at self.now at.memory at.observation }
    {
        self.index(at)
            .map_or(Entry::Blank, |index| self.valid(self.entries[index]))
    }

    // Writes an entry; where the table has none at the place, nothing changes.
    pub fn set(&mut self, at: Place, entry: Entry)
        ensures { Written at.memory at.observation entry self.old self.new }
    {
        if let Some(index) = self.index(at) {
            self.entries[index] = entry;
        }
    }
}
