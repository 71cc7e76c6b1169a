ghost use Rattle.std.specs.Prelude.{◌≤◌};

use crate::entry::Entry;
use environment::MOST_OBSERVATIONS;

mod calls;

pub const MOST_MEMORIES: u8 = 4;

pub const MOST_ENTRIES: usize = MOST_MEMORIES as usize * MOST_OBSERVATIONS as usize;

// A controller of `memories` memories over an alphabet of `actions` and `observations`. Entry (m, o) stands at the place
// m * observations + o; places past the last entry are not used. One array and no rows, in the order in which a
// table's entries are listed: of a row no proof would know the length after a write.
#[derive(Clone, Copy)]
pub struct Table {
    memories: u8,
    actions: u8,
    observations: u8,
    entries: [Entry; MOST_ENTRIES],
    ghost some: { 1 ≤ memories },
    ghost few: { memories ≤ 4 },
    ghost able: { actions ≤ 8 },
    ghost narrow: { observations ≤ 16 },
}
