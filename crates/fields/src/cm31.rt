// The complex extension of M31: pairs a + bi with i^2 = -1 (stwo's cm31.rs, and the macros of fields/mod.rs).
ghost use Rattle.std.specs.Prelude.{◌≡◌};
ghost use Rattle.fields.specs.CM31.{cm31_field, of_base, from_pair_answer, from_base_answer, narrow_answer};
ghost use Rattle.fields.specs.FieldLaws.{cm31_lawful};

use crate::check::need;
use crate::extension::Extension;
use crate::field::Field;
use crate::m31::{M31, P_SQUARED};
use crate::refusal::Refusal;

pub mod inner;

// the order of the field, P^2
pub const P2: u64 = P_SQUARED;

#[derive(Clone, Copy, Debug, PartialEq, Eq)]
pub struct CM31(pub M31, pub M31);

// Part by part, as QM31 (qm31.rt says why both).
impl Field for CM31 {
    ghost field = { cm31_field };

    ghost lawful = { cm31_lawful };

    fn zero() -> CM31 {
        CM31(M31(0), M31(0))
    }

    fn one() -> CM31 {
        CM31(M31(1), M31(0))
    }

    fn is_reduced(self) -> bool {
        self.0.is_reduced() && self.1.is_reduced()
    }

    fn equals_zero(self) -> bool {
        self.0.equals_zero() && self.1.equals_zero()
    }

    fn plus(self, rhs: CM31) -> CM31 {
        CM31(self.0.plus(rhs.0), self.1.plus(rhs.1))
    }

    fn minus(self, rhs: CM31) -> CM31 {
        CM31(self.0.minus(rhs.0), self.1.minus(rhs.1))
    }

    fn negated(self) -> CM31 {
        CM31(self.0.negated(), self.1.negated())
    }

    fn times(self, rhs: CM31) -> CM31 {
        inner::mul(self, rhs)
    }

    // 1 / (a + bi) = (a - bi) / (a^2 + b^2)
    fn inverted(self) -> CM31 {
        let norm = self.0.times(self.0).plus(self.1.times(self.1));
        let inverse = norm.inverted();
        CM31(self.0.times(inverse), self.1.times(inverse).negated())
    }

    fn conjugated(self) -> CM31 {
        CM31(self.0, self.1.negated())
    }
}

impl Extension for CM31 {
    ghost embed = { of_base };

    fn embedded(m: M31) -> CM31 {
        CM31(m, M31(0))
    }

    fn plus_m31(self, rhs: M31) -> CM31 {
        CM31(self.0.plus(rhs), self.1)
    }

    fn minus_m31(self, rhs: M31) -> CM31 {
        CM31(self.0.minus(rhs), self.1)
    }

    fn times_m31(self, rhs: M31) -> CM31 {
        CM31(self.0.times(rhs), self.1.times(rhs))
    }
}

impl CM31 {
    pub fn from_u32_unchecked(a: u32, b: u32) -> Result<CM31, Refusal>
        ensures { result ≡ from_pair_answer (a, b) }
    {
        CM31::from_m31(M31(a), M31(b))
    }

    pub fn from_m31(a: M31, b: M31) -> Result<CM31, Refusal>
        ensures { result ≡ from_pair_answer (a.0, b.0) }
    {
        let pair = CM31(a, b);
        pair.check()?;
        Ok(pair)
    }
}

impl TryFrom<M31> for CM31 {
    type Error = Refusal;

    ghost try_from_gives = { λ x r. r ≡ from_base_answer x };

    fn try_from(x: M31) -> Result<CM31, Refusal> {
        CM31::from_base(x)
    }
}

impl TryFrom<CM31> for M31 {
    type Error = Refusal;

    ghost try_from_gives = { λ a r. r ≡ narrow_answer a };

    fn try_from(a: CM31) -> Result<M31, Refusal> {
        a.check()?;
        need(a.1.equals_zero(), Refusal::Narrowing)?;
        Ok(a.0)
    }
}
