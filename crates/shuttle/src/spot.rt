ghost use Rattle.std.specs.Prelude.{◌<◌};

// Where a shuttle is, and its bit. State 2p + f is place p with the bit f.
#[derive(Clone, Copy, Debug, PartialEq, Eq)]
pub struct Spot {
    pub place: u8,
    pub bit: bool,
    ghost few: { place < 128 },
}

impl From<u8> for Spot {
    ghost use Rattle.shuttle.specs.Spots.{IsSpot};

    ghost from_gives = { λ state spot. IsSpot state spot };

    fn from(state: u8) -> Spot {
        Spot {
            place: state / 2,
            bit: state % 2 == 1,
        }
    }
}

impl From<Spot> for u8 {
    ghost use Rattle.shuttle.specs.Spots.{IsSpot};

    ghost from_gives = { λ spot state. IsSpot state spot };

    fn from(spot: Spot) -> u8 {
        2 * spot.place + u8::from(spot.bit)
    }
}
