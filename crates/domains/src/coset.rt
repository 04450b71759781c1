// Cosets initial + <step> (stwo's Coset). A record whose points aren't those of its indices is refused by every call that takes one.
ghost use Rattle.std.specs.Prelude.{◌≡◌};
ghost use Rattle.domains.specs.Coset.{new_answer, subgroup_answer, odds_answer, half_odds_answer, iter_indices_answer};
ghost use Rattle.domains.specs.Coset.{double_answer, repeated_double_answer, is_doubling_of_answer, initial_answer};
ghost use Rattle.domains.specs.Coset.{shift_answer, conjugate_answer};

use crate::coset::checked::CheckedCoset;
use crate::iterator::CosetIterator;
use crate::record::CosetRecord;
use circle::index::CirclePointIndex;
use circle::point::{CirclePoint, M31_CIRCLE_LOG_ORDER};
use fields::check::need;
use fields::m31::M31;
use fields::refusal::Refusal;

pub mod checked;

#[derive(Clone, Copy, Debug, PartialEq, Eq)]
pub struct Coset {
    pub initial_index: CirclePointIndex,
    pub initial: CirclePoint<M31>,
    pub step_size: CirclePointIndex,
    pub step: CirclePoint<M31>,
    pub log_size: u32,
}

impl Coset {
    pub fn new(initial_index: CirclePointIndex, log_size: u32) -> Result<Coset, Refusal>
        ensures { result ≡ new_answer initial_index log_size }
    {
        need(log_size <= M31_CIRCLE_LOG_ORDER, Refusal::LogSize)?;
        initial_index.check()?;
        Ok(CheckedCoset::new(initial_index, log_size).coset)
    }

    // <G_n>
    pub fn subgroup(log_size: u32) -> Result<Coset, Refusal>
        ensures { result ≡ subgroup_answer log_size }
    {
        Coset::new(CirclePointIndex::zero(), log_size)
    }

    // G_2n + <G_n>
    pub fn odds(log_size: u32) -> Result<Coset, Refusal>
        ensures { result ≡ odds_answer log_size }
    {
        need(log_size <= 30, Refusal::LogSize)?;
        Ok(CheckedCoset::odds(log_size).coset)
    }

    // G_4n + <G_n>; with its conjugate it is odds(log_size + 1).
    pub fn half_odds(log_size: u32) -> Result<Coset, Refusal>
        ensures { result ≡ half_odds_answer log_size }
    {
        need(log_size <= 29, Refusal::LogSize)?;
        Ok(CheckedCoset::half_odds(log_size).coset)
    }

    pub fn iter_indices(self) -> Result<CosetIterator, Refusal>
        ensures { result ≡ iter_indices_answer self }
    {
        Ok(CosetIterator::from(self.check()?))
    }

    // All points doubled: half as many.
    pub fn double(self) -> Result<Coset, Refusal>
        ensures { result ≡ double_answer self }
    {
        self.repeated_double(1)
    }

    pub fn repeated_double(self, n_doubles: u32) -> Result<Coset, Refusal>
        ensures { result ≡ repeated_double_answer self n_doubles }
    {
        let checked = self.check()?;
        need(n_doubles <= self.log_size, Refusal::Doublings)?;
        Ok(checked.repeated_double(n_doubles).coset)
    }

    pub fn is_doubling_of(self, other: Coset) -> Result<bool, Refusal>
        ensures { result ≡ is_doubling_of_answer self other }
    {
        self.check()?;
        Ok(other.check()?.doubles_to(self))
    }

    pub fn initial(self) -> Result<CirclePoint<M31>, Refusal>
        ensures { result ≡ initial_answer self }
    {
        Ok(self.check()?.coset.initial)
    }

    pub fn shift(self, shift_size: CirclePointIndex) -> Result<Coset, Refusal>
        ensures { result ≡ shift_answer self shift_size }
    {
        let checked = self.check()?;
        shift_size.check()?;
        Ok(checked.shift(shift_size).coset)
    }

    // -initial - <step>
    pub fn conjugate(self) -> Result<Coset, Refusal>
        ensures { result ≡ conjugate_answer self }
    {
        Ok(self.check()?.conjugate().coset)
    }
}
