// Point indices: the index k stands for the point k G (stwo's CirclePointIndex).
ghost use Rattle.std.specs.Prelude.{◌≡◌};
ghost use Rattle.fields.specs.Check.{outcome};
ghost use Rattle.circle.specs.Index.{of_index, in_range, reduce_answer, subgroup_gen_answer, to_point_answer};
ghost use Rattle.circle.specs.Index.{half_answer, add_answer, sub_answer, neg_answer, mul_answer};

use crate::point::{CirclePoint, M31_CIRCLE_LOG_ORDER};
use fields::check::need;
use fields::m31::M31;
use fields::refusal::Refusal;

pub mod inner;

// An index is below 2^31, the order of G: no two indices have the same point. The calls are given other numbers too and refuse
// them, so the type doesn't promise it; a second type that does would serve `sub`, `neg` and a new coset alone.
#[derive(Clone, Copy, Debug, PartialEq, Eq)]
pub struct CirclePointIndex(pub u64);

impl CirclePointIndex {
    pub fn zero() -> CirclePointIndex
        ensures { result ≡ of_index 0 }
    {
        CirclePointIndex(0)
    }

    pub fn generator() -> CirclePointIndex
        ensures { result ≡ of_index 1 }
    {
        CirclePointIndex(1)
    }

    pub fn check(self) -> Result<(), Refusal>
        ensures { result ≡ outcome (in_range self) }
    {
        need(inner::is_index(self), Refusal::Index)
    }

    pub fn reduce(self) -> Result<CirclePointIndex, Refusal>
        ensures { result ≡ reduce_answer self }
    {
        self.check()?;
        Ok(inner::reduce(self))
    }

    // 2^(31 - log_size); 0 for log size 0, since an index is below 2^31.
    pub fn subgroup_gen(log_size: u32) -> Result<CirclePointIndex, Refusal>
        ensures { result ≡ subgroup_gen_answer log_size }
    {
        need(log_size <= M31_CIRCLE_LOG_ORDER, Refusal::LogSize)?;
        Ok(inner::subgroup_gen(log_size))
    }

    pub fn to_point(self) -> Result<CirclePoint<M31>, Refusal>
        ensures { result ≡ to_point_answer self }
    {
        self.check()?;
        Ok(inner::to_point(self))
    }

    pub fn half(self) -> Result<CirclePointIndex, Refusal>
        ensures { result ≡ half_answer self }
    {
        self.check()?;
        need(self.0 % 2 == 0, Refusal::Halving)?;
        Ok(CirclePointIndex(self.0 / 2))
    }

    pub fn add(self, rhs: CirclePointIndex) -> Result<CirclePointIndex, Refusal>
        ensures { result ≡ add_answer self rhs }
    {
        self.check()?;
        rhs.check()?;
        Ok(inner::add(self, rhs))
    }

    pub fn sub(self, rhs: CirclePointIndex) -> Result<CirclePointIndex, Refusal>
        ensures { result ≡ sub_answer self rhs }
    {
        self.check()?;
        rhs.check()?;
        Ok(inner::sub(self, rhs))
    }

    // Any count: the product is taken modulo 2^64 and then reduced.
    pub fn mul(self, rhs: u64) -> Result<CirclePointIndex, Refusal>
        ensures { result ≡ mul_answer self rhs }
    {
        self.check()?;
        Ok(inner::mul(self, rhs))
    }

    pub fn neg(self) -> Result<CirclePointIndex, Refusal>
        ensures { result ≡ neg_answer self }
    {
        self.check()?;
        Ok(inner::neg(self))
    }
}
