// Canonic cosets G_2n + <G_n> (stwo's CanonicCoset).
ghost use Rattle.std.specs.Prelude.{◌≡◌};
ghost use Rattle.domains.specs.Canonic.{try_new_answer, coset_answer, half_coset_answer, circle_domain_answer};
ghost use Rattle.domains.specs.Canonic.{initial_index_answer, step_size_answer, step_answer};

use crate::coset::Coset;
use crate::coset::checked::CheckedCoset;
use crate::domain::CircleDomain;
use crate::record::CosetRecord;
use circle::index::CirclePointIndex;
use circle::point::CirclePoint;
use fields::check::need;
use fields::log_size::is_log_size;
use fields::m31::M31;
use fields::refusal::Refusal;

#[derive(Clone, Copy, Debug, PartialEq, Eq)]
pub struct CanonicCoset {
    pub coset: Coset,
}

#[tactic(auto, using(crate::proofs::Checks::records), unfolding(crate::specs::Canonic::canonic_of, crate::specs::Canonic::half_of))]
impl CanonicCoset {
    pub fn try_new(log_size: u32) -> Result<CanonicCoset, Refusal>
        ensures { result ≡ try_new_answer log_size }
    {
        need(is_log_size(log_size), Refusal::LogSize)?;
        let coset = CheckedCoset::odds(log_size).coset;
        Ok(CanonicCoset { coset })
    }

    pub fn new(log_size: u32) -> Result<CanonicCoset, Refusal>
        ensures { result ≡ try_new_answer log_size }
    {
        CanonicCoset::try_new(log_size)
    }

    // The whole coset.
    pub fn coset(self) -> Result<Coset, Refusal>
        ensures { result ≡ coset_answer self }
    {
        Ok(self.check()?.coset)
    }

    // G_2n + <G_(n/2)>: its conjugate completes it to the coset. Only the log size counts.
    pub fn half_coset(self) -> Result<Coset, Refusal>
        ensures { result ≡ half_coset_answer self }
    {
        self.check()?;
        Ok(CheckedCoset::half_odds(self.coset.log_size - 1).coset)
    }

    // The coset's points, in the order of its circle domain.
    pub fn circle_domain(self) -> Result<CircleDomain, Refusal>
        ensures { result ≡ circle_domain_answer self }
    {
        self.check()?;
        let half_coset = CheckedCoset::half_odds(self.coset.log_size - 1).coset;
        Ok(CircleDomain { half_coset })
    }

    pub fn initial_index(self) -> Result<CirclePointIndex, Refusal>
        ensures { result ≡ initial_index_answer self }
    {
        Ok(self.check()?.coset.initial_index)
    }

    pub fn step_size(self) -> Result<CirclePointIndex, Refusal>
        ensures { result ≡ step_size_answer self }
    {
        Ok(self.check()?.coset.step_size)
    }

    pub fn step(self) -> Result<CirclePoint<M31>, Refusal>
        ensures { result ≡ step_answer self }
    {
        Ok(self.check()?.coset.step)
    }
}
