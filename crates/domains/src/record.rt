// What a call checks of a coset record: its log size, its indices and the words of its points, then each point against its index.
ghost use Rattle.std.specs.Prelude.{◌≡◌};
ghost use Rattle.fields.specs.Check.{Checks, outcome};
ghost use Rattle.domains.specs.declared.coset.Coset.{Coset};
ghost use Rattle.domains.specs.Record.{indices_and_points, check, check_canonic};
ghost use Rattle.domains.specs.Checked.{Checked};
ghost use Rattle.domains.specs.Coset.{size_by, log_size_by, index_at_by, at_by};

use crate::canonic::CanonicCoset;
use crate::coset::Coset;
use crate::coset::checked::CheckedCoset;
use circle::index::CirclePointIndex;
use circle::index::inner::to_point;
use circle::point::{CirclePoint, M31_CIRCLE_LOG_ORDER};
use fields::check::need;
use fields::log_size::is_log_size;
use fields::m31::M31;
use fields::refusal::Refusal;

// A point is looked up only where its index is known to be in range.
fn check_indices_and_points(c: Coset) -> Result<(), Refusal>
    ensures { result ≡ outcome (indices_and_points c) }
{
    c.initial_index.check()?;
    c.step_size.check()?;
    c.initial.check()?;
    c.step.check()?;
    need(
        c.initial == to_point(c.initial_index),
        Refusal::Contradiction,
    )?;
    need(c.step == to_point(c.step_size), Refusal::Contradiction)
}

// What a coset and a canonic coset have in common: a coset, and the checks of its record.
pub trait CosetRecord: Copy {
    ghost coset: { Self → Coset };

    // the tests of the whole record, in their order
    ghost checks: { Self → Checks };

    fn check(self) -> Result<CheckedCoset, Refusal>
        ensures { Checked (checks self) (coset self) result };

    final fn size(self) -> Result<u64, Refusal>
        ensures { result ≡ size_by (checks self) (coset self) }
    {
        Ok(self.check()?.size())
    }

    final fn log_size(self) -> Result<u32, Refusal>
        ensures { result ≡ log_size_by (checks self) (coset self) }
    {
        Ok(self.check()?.coset.log_size)
    }

    // Any position: the coset runs round.
    final fn index_at(self, i: u64) -> Result<CirclePointIndex, Refusal>
        ensures { result ≡ index_at_by (checks self) (coset self) i }
    {
        Ok(self.check()?.index_at(i))
    }

    final fn at(self, i: u64) -> Result<CirclePoint<M31>, Refusal>
        ensures { result ≡ at_by (checks self) (coset self) i }
    {
        Ok(self.check()?.at(i))
    }
}

#[tactic(auto, using(crate::proofs::Checks::records), unfolding(crate::specs::Record::check))]
impl CosetRecord for Coset {
    ghost coset = { λ c. c };

    ghost checks = { check };

    fn check(self) -> Result<CheckedCoset, Refusal> {
        need(self.log_size <= M31_CIRCLE_LOG_ORDER, Refusal::LogSize)?;
        check_indices_and_points(self)?;
        Ok(CheckedCoset { coset: self })
    }
}

#[tactic(auto, using(crate::proofs::Checks::records), unfolding(crate::specs::Record::check_canonic))]
impl CosetRecord for CanonicCoset {
    ghost coset = { λ c. c.coset };

    ghost checks = { check_canonic };

    fn check(self) -> Result<CheckedCoset, Refusal> {
        need(is_log_size(self.coset.log_size), Refusal::LogSize)?;
        check_indices_and_points(self.coset)?;
        Ok(CheckedCoset { coset: self.coset })
    }
}
