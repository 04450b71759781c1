// Cosets whose records passed their checks: what the calls compute with. These are no public calls.
ghost use Rattle.domains.specs.Record.{Fits};

use crate::coset::Coset;
use circle::index::{CirclePointIndex, inner as index};
use circle::point::CirclePoint;
use fields::log_size::inner::two_to;
use fields::m31::M31;

// At most 2^31 points; the indices are in range, and each point is that of its index.
#[derive(Clone, Copy, Debug)]
pub struct CheckedCoset {
    pub coset: Coset,
    pub ghost fits: { Fits coset },
}

impl CheckedCoset {
    ghost use Rattle.std.specs.Prelude.{◌≡◌, ◌+◌, ◌≤◌, ◌^◌};
    ghost use Rattle.algebra.specs.Doubling.{iterate};
    ghost use Rattle.circle.specs.Point.{of_point};
    ghost use Rattle.circle.specs.Index.{IsIndex, index_point, subgroup_gen};
    ghost use Rattle.domains.specs.Coset.{coset_of, index_at, doubled, is_doubling_of, shifted, conjugated};

    // That the index is in range is a clause: the calls take any number as an index, and refuse it (circle's index.rt).
    #[tactic(auto, unfolding(crate::specs::Coset::coset_of))]
    pub fn new(initial_index: CirclePointIndex, log_size: u32) -> CheckedCoset
        requires { (IsIndex initial_index) × (log_size ≤ 31) }
        ensures { result.coset ≡ coset_of initial_index.0 log_size }
    {
        let step_size = index::subgroup_gen(log_size);
        let coset = Coset {
            initial_index,
            initial: index::to_point(initial_index),
            step_size,
            step: index::to_point(step_size),
            log_size,
        };
        CheckedCoset { coset }
    }

    pub fn odds(log_size: u32) -> CheckedCoset
        requires { log_size ≤ 30 }
        ensures { result.coset ≡ coset_of (subgroup_gen (log_size + 1)) log_size }
    {
        CheckedCoset::new(index::subgroup_gen(log_size + 1), log_size)
    }

    pub fn half_odds(log_size: u32) -> CheckedCoset
        requires { log_size ≤ 29 }
        ensures { result.coset ≡ coset_of (subgroup_gen (log_size + 2)) log_size }
    {
        CheckedCoset::new(index::subgroup_gen(log_size + 2), log_size)
    }

    pub fn size(self) -> u64
        ensures { result ≡ 2 ^ self.coset.log_size }
    {
        two_to(self.coset.log_size)
    }

    #[tactic(auto, unfolding(crate::specs::Coset::doubled))]
    fn double(self) -> CheckedCoset
        requires { 1 ≤ self.coset.log_size }
        ensures { result.coset ≡ doubled self.coset }
    {
        let c = self.coset;
        let coset = Coset {
            initial_index: index::mul(c.initial_index, 2),
            initial: c.initial.plus(c.initial),
            step_size: index::mul(c.step_size, 2),
            step: c.step.plus(c.step),
            log_size: c.log_size - 1,
        };
        CheckedCoset { coset }
    }

    #[tactic(auto, using(crate::proofs::Cosets::one_more), unfolding(crate::specs::Coset::doubled, algebra::specs::Doubling::iterate))]
    pub fn repeated_double(self, n_doubles: u32) -> CheckedCoset
        requires { n_doubles ≤ self.coset.log_size }
        ensures { result.coset ≡ iterate n_doubles doubled self.coset }
    {
        let mut res = self;
        for _ in 0..n_doubles {
            res = res.double();
        }
        res
    }

    // Whether c is this coset, doubled as often as their log sizes differ.
    pub fn doubles_to(self, c: Coset) -> bool
        ensures { result ≡ is_doubling_of c self.coset }
    {
        let log_size = self.coset.log_size;
        c.log_size <= log_size && c == self.repeated_double(log_size - c.log_size).coset
    }

    #[tactic(auto, unfolding(crate::specs::Coset::index_at))]
    pub fn index_at(self, i: u64) -> CirclePointIndex
        ensures { (result.0 ≡ index_at self.coset i) × IsIndex result }
    {
        index::add(
            self.coset.initial_index,
            index::mul(self.coset.step_size, i),
        )
    }

    pub fn at(self, i: u64) -> CirclePoint<M31>
        ensures { result ≡ of_point (index_point (index_at self.coset i)) }
    {
        index::to_point(self.index_at(i))
    }

    // The step point stays as it is.
    #[tactic(auto, unfolding(crate::specs::Coset::shifted))]
    pub fn shift(self, k: CirclePointIndex) -> CheckedCoset
        ensures { result.coset ≡ shifted self.coset k.0 }
    {
        let initial_index = index::add(self.coset.initial_index, k);
        let coset = Coset {
            initial_index,
            initial: index::to_point(initial_index),
            ..self.coset
        };
        CheckedCoset { coset }
    }

    // Both points are those of the new indices.
    #[tactic(auto, unfolding(crate::specs::Coset::conjugated))]
    pub fn conjugate(self) -> CheckedCoset
        ensures { result.coset ≡ conjugated self.coset }
    {
        let initial_index = index::neg(self.coset.initial_index);
        let step_size = index::neg(self.coset.step_size);
        let coset = Coset {
            initial_index,
            initial: index::to_point(initial_index),
            step_size,
            step: index::to_point(step_size),
            log_size: self.coset.log_size,
        };
        CheckedCoset { coset }
    }
}
