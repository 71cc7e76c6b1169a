// Measures: what the runs of a table cost, and the worst of them.
#![tactic(auto)]

ghost use Rattle.std.specs.Prelude.{◌≡◌, ℕ, Bool, true, nat_le};
ghost use Rattle.measure.specs.Order.{Ranking};
ghost use Rattle.measure.specs.Steps.{plus};
ghost use Rattle.std.proofs.Common.{rules};

pub mod loads;

// What a run costs. Each action has a charge, a load itself; the load of a run is the first action's charge joined with the load
// of the rest, and the load of a run that goes no further is the empty one.
pub trait Measure {
    type Load: Copy;

    ghost none: { Self.Load };

    ghost charged: { Self → ℕ → Self.Load };

    ghost joined: { Self.Load → Self.Load → Self.Load };

    ghost is_at_most: { Self.Load → Self.Load → Bool };

    fn empty(&self) -> Self::Load
        ensures { result ≡ none };

    fn charge(&self, action: u8) -> Self::Load
        ensures { result ≡ charged self.now action };

    // The load of what costs x first and then y.
    fn join(&self, x: Self::Load, y: Self::Load) -> Self::Load
        ensures { result ≡ joined x y };

    fn at_most(&self, x: Self::Load, y: Self::Load) -> bool
        ensures { result ≡ is_at_most x y };

    ghost ranking: { Ranking is_at_most };

    // The same charge in front of two loads keeps their order.
    ghost front: { (m : Self) (a : ℕ) (x y : Self.Load) → is_at_most x y ≡ true → is_at_most (joined (charged m a) x) (joined (charged m a) y) ≡ true };
}

// How many actions a run takes.
#[derive(Clone, Copy, Debug, PartialEq, Eq)]
pub struct Steps;

impl Measure for Steps {
    type Load = u32;

    ghost none = { 0 };

    ghost charged = { λ _ _. 1 };

    ghost joined = { plus };

    ghost is_at_most = { nat_le };

    ghost ranking = { Prim.search rules };

    ghost front = { Prim.search rules };

    fn empty(&self) -> u32 {
        0
    }

    fn charge(&self, _action: u8) -> u32 {
        1
    }

    fn join(&self, x: u32, y: u32) -> u32 {
        x.saturating_add(y)
    }

    fn at_most(&self, x: u32, y: u32) -> bool {
        x <= y
    }
}
