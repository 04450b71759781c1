// How much work a batch did (order 5).
ghost use Rattle.std.specs.Prelude.{◌≡◌};
ghost use Rattle.batch.specs.Counts.{both_fit, together};

use std::ops::AddAssign;

// The multiplications of elements and the inversions that the passes made, an inversion's own products left out.
#[derive(Clone, Copy, Default, Debug, PartialEq, Eq)]
pub struct Counts {
    pub multiplications: u64,
    pub inversions: u64,
}

impl AddAssign for Counts {
    ghost can_add_assign = { both_fit };

    ghost add_assign_gives = { λ a b r. r ≡ together a b };

    fn add_assign(&mut self, rhs: Counts) {
        self.multiplications += rhs.multiplications;
        self.inversions += rhs.inversions;
    }
}
