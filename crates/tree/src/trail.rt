ghost use Rattle.std.specs.Prelude.{◌≤◌};

use controller::place::Place;
use controller::table::MOST_ENTRIES;

mod calls;

// Places that were filled, the oldest first; as many at most as a table has entries. A vector of fixed capacity of its own, since the kit's is
// not `Copy`, and a walk is.
#[derive(Clone, Copy)]
pub struct Trail {
    places: [Place; MOST_ENTRIES],
    depth: usize,
    ghost deep: { depth ≤ 64 },
}
