ghost use Rattle.std.specs.Prelude.{◌≡◌, ◌<◌, MatchOption};
ghost use Rattle.shuttle.specs.Spots.{action_of};

// Which way along the row.
#[derive(Clone, Copy, Debug, PartialEq, Eq)]
pub enum Direction {
    Left,
    Right,
}

impl Direction {
    // The way that an action leads: action 0 to the left, action 1 to the right, and no other anywhere.
    pub(crate) fn of(action: u8) -> Option<Direction>
        ensures { MatchOption result (1 < action) (λ way. action_of way ≡ action) }
    {
        match action {
            0 => Some(Direction::Left),
            1 => Some(Direction::Right),
            _ => None,
        }
    }
}
