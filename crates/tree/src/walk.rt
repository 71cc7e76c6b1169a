use crate::trail::Trail;
pub use controller::place::Place;
use controller::table::Table;

mod steps;

// A table of the tree, and the places that were filled to come to it, the oldest first. Each place is filled once, so that the trail is
// never longer than a table has entries.
#[derive(Clone, Copy)]
pub struct Walk {
    pub table: Table,
    trail: Trail,
}
