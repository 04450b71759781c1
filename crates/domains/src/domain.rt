// Circle domains: a coset C + <G_n> and its conjugate, in this order (stwo's CircleDomain).
ghost use Rattle.std.specs.Prelude.{◌≡◌, ◌*◌, ◌%◌, ◌^◌, ◌≤◌, ◌++◌, length, drop};
ghost use Rattle.algebra.specs.Listing.{listing};
ghost use Rattle.circle.specs.Index.{IsIndex};
ghost use Rattle.domains.specs.Domain.{new_answer, iter_indices_answer, size_answer, log_size_answer, domain_index_at};
ghost use Rattle.domains.specs.Domain.{at_answer, index_at_answer, is_canonic, is_canonic_answer, split_answer, split_exit, shift_answer};

use crate::coset::Coset;
use crate::coset::checked::CheckedCoset;
use crate::iterator::{CircleDomainIndexIterator, CosetIterator};
use crate::record::CosetRecord;
use circle::index::{CirclePointIndex, inner as index};
use circle::point::CirclePoint;
use fields::check::need;
use fields::log_size::inner::two_to;
use fields::m31::M31;
use fields::refusal::Refusal;

#[derive(Clone, Copy, Debug, PartialEq, Eq)]
pub struct CircleDomain {
    pub half_coset: Coset,
}

// 2^29, a quarter of the order of G: the first index of the canonic domain of log size 1
const QUARTER: u64 = 536870912;

// From the half coset's size on, the conjugates: the positions are not periodic.
#[tactic(auto, using(crate::specs::Domain::index_first, crate::specs::Domain::index_second))]
fn index_at(half: CheckedCoset, i: u64) -> CirclePointIndex
    ensures { (result.0 ≡ domain_index_at half.coset i) × IsIndex result }
{
    let size = half.size();
    if i < size {
        half.index_at(i)
    } else {
        index::neg(half.index_at(i - size))
    }
}

// Where the step is 0 the index itself is asked: four times 0 and four times 2^30 are 0 modulo 2^31 too.
#[tactic(auto, unfolding(crate::specs::Domain::is_canonic))]
fn is_canonic(initial: CirclePointIndex, step: CirclePointIndex) -> bool
    ensures { result ≡ is_canonic initial.0 step.0 }
{
    if step.0 == 0 {
        initial.0 == QUARTER || initial.0 == 3 * QUARTER
    } else {
        index::mul(initial, 4) == step
    }
}

// step times 0, 1, .. up to so many parts. Each comes from its place and none waits for the one before, so that the loop is
// vector code.
#[tactic(auto, using(crate::proofs::Shifts::shifts))]
fn write_shifts(step: CirclePointIndex, parts: u64, shifts: &mut [u32])
    requires { parts ≤ length shifts.old }
    ensures { shifts.new ≡ listing parts (λ i. (step.0 * i) % 2 ^ 31) ++ drop parts shifts.old }
{
    for (i, shift) in shifts[..parts as usize].iter_mut().enumerate() {
        *shift = index::mul(step, i as u64).0 as u32;
    }
}

impl CircleDomain {
    pub fn new(half_coset: Coset) -> Result<CircleDomain, Refusal>
        ensures { result ≡ new_answer half_coset }
    {
        half_coset.check()?;
        Ok(CircleDomain { half_coset })
    }

    #[tactic(auto, using(crate::proofs::Checks::records), unfolding(crate::specs::Domain::domain_iterator_of))]
    pub fn iter_indices(self) -> Result<CircleDomainIndexIterator, Refusal>
        ensures { result ≡ iter_indices_answer self }
    {
        let half = self.half_coset.check()?;
        let first = CosetIterator::from(half);
        let second = CosetIterator::from(half.conjugate());
        Ok(CircleDomainIndexIterator { first, second })
    }

    pub fn size(self) -> Result<u64, Refusal>
        ensures { result ≡ size_answer self }
    {
        Ok(two_to(self.half_coset.check()?.coset.log_size + 1))
    }

    pub fn log_size(self) -> Result<u32, Refusal>
        ensures { result ≡ log_size_answer self }
    {
        Ok(self.half_coset.check()?.coset.log_size + 1)
    }

    pub fn at(self, i: u64) -> Result<CirclePoint<M31>, Refusal>
        ensures { result ≡ at_answer self i }
    {
        Ok(index::to_point(index_at(self.half_coset.check()?, i)))
    }

    pub fn index_at(self, i: u64) -> Result<CirclePointIndex, Refusal>
        ensures { result ≡ index_at_answer self i }
    {
        Ok(index_at(self.half_coset.check()?, i))
    }

    pub fn is_canonic(self) -> Result<bool, Refusal>
        ensures { result ≡ is_canonic_answer self }
    {
        let half = self.half_coset.check()?.coset;
        Ok(is_canonic(half.initial_index, half.step_size))
    }

    // A domain of fewer points, and the shifts that take it to the parts of this one.
    #[tactic(auto, using(crate::proofs::Checks::records), unfolding(crate::specs::Domain::split_exit))]
    pub fn split(self, log_parts: u32, shifts: &mut [u32]) -> Result<CircleDomain, Refusal>
        ensures { (result ≡ split_answer self log_parts (length shifts.old))
            × (shifts.new ≡ split_exit (split_answer self log_parts (length shifts.old)) self log_parts
            shifts.old) }
    {
        let half = self.half_coset.check()?.coset;
        need(log_parts <= half.log_size, Refusal::Doublings)?;
        let parts = two_to(log_parts);
        need(parts <= shifts.len() as u64, Refusal::Length)?;
        write_shifts(half.step_size, parts, shifts);
        let half_coset = CheckedCoset::new(half.initial_index, half.log_size - log_parts).coset;
        Ok(CircleDomain { half_coset })
    }

    pub fn shift(self, shift: CirclePointIndex) -> Result<CircleDomain, Refusal>
        ensures { result ≡ shift_answer self shift }
    {
        let half = self.half_coset.check()?;
        shift.check()?;
        let half_coset = half.shift(shift).coset;
        Ok(CircleDomain { half_coset })
    }
}
