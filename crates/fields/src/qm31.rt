// The extension of CM31 by u with u^2 = 2 + i: pairs p + qu (stwo's qm31.rs, and the macros of fields/mod.rs).
ghost use Rattle.std.specs.Prelude.{◌≡◌, ℕ, ℤ, ◌%◌};
ghost use Rattle.algebra.specs.M31.{P};
ghost use Rattle.fields.specs.M31.{residue_of};
ghost use Rattle.fields.specs.QM31.{qm31_field, of_pairs, of_base, from_pairs_answer, from_array_answer, to_array_answer};
ghost use Rattle.fields.specs.QM31.{from_base_answer, from_number_answer, mul_complex_answer, narrow_answer, partial_evals_answer};
ghost use Rattle.fields.specs.FieldLaws.{qm31_lawful};

use crate::check::need;
use crate::cm31::{CM31, inner as cm31};
use crate::extension::Extension;
use crate::field::Field;
use crate::m31::M31;
use crate::refusal::Refusal;

pub mod inner;

// the order of the field, P^4
pub const P4: u128 = 21267647892944572736998860269687930881;

// words of an element
pub const SECURE_EXTENSION_DEGREE: usize = 4;

#[derive(Clone, Copy, Debug, PartialEq, Eq)]
pub struct QM31(pub CM31, pub CM31);

pub type SecureField = QM31;

// Part by part, as CM31 over M31: each method but the product is a line, and would be one in each impl of a trait over both too.
impl Field for QM31 {
    ghost field = { qm31_field };

    ghost lawful = { qm31_lawful };

    fn zero() -> QM31 {
        QM31(CM31::zero(), CM31::zero())
    }

    fn one() -> QM31 {
        QM31(CM31::one(), CM31::zero())
    }

    fn is_reduced(self) -> bool {
        self.0.is_reduced() && self.1.is_reduced()
    }

    fn equals_zero(self) -> bool {
        self.0.equals_zero() && self.1.equals_zero()
    }

    fn plus(self, rhs: QM31) -> QM31 {
        QM31(self.0.plus(rhs.0), self.1.plus(rhs.1))
    }

    fn minus(self, rhs: QM31) -> QM31 {
        QM31(self.0.minus(rhs.0), self.1.minus(rhs.1))
    }

    fn negated(self) -> QM31 {
        QM31(self.0.negated(), self.1.negated())
    }

    // (a + bu)(c + du) = (ac + (2 + i)bd) + (ad + bc)u, its sums of products each reduced once.
    fn times(self, rhs: QM31) -> QM31 {
        QM31(inner::mul_first(self, rhs), inner::mul_second(self, rhs))
    }

    // 1 / (a + bu) = (a - bu) / (a^2 - (2 + i)b^2)
    fn inverted(self) -> QM31 {
        let rest = cm31::mul_two_plus_i(self.1.times(self.1));
        let inverse = self.0.times(self.0).minus(rest).inverted();
        QM31(self.0.times(inverse), self.1.times(inverse).negated())
    }

    fn conjugated(self) -> QM31 {
        QM31(self.0, self.1.negated())
    }
}

impl Extension for QM31 {
    ghost embed = { λ m. of_pairs (of_base m) };

    fn embedded(m: M31) -> QM31 {
        QM31(CM31::embedded(m), CM31::zero())
    }

    fn plus_m31(self, rhs: M31) -> QM31 {
        QM31(self.0.plus_m31(rhs), self.1)
    }

    fn minus_m31(self, rhs: M31) -> QM31 {
        QM31(self.0.minus_m31(rhs), self.1)
    }

    fn times_m31(self, rhs: M31) -> QM31 {
        QM31(self.0.times_m31(rhs), self.1.times_m31(rhs))
    }
}

impl QM31 {
    pub fn from_u32_unchecked(a: u32, b: u32, c: u32, d: u32) -> Result<QM31, Refusal>
        ensures { result ≡ from_pairs_answer ((a, b), (c, d)) }
    {
        QM31::from_m31(M31(a), M31(b), M31(c), M31(d))
    }

    pub fn from_m31(a: M31, b: M31, c: M31, d: M31) -> Result<QM31, Refusal>
        ensures { result ≡ from_pairs_answer ((a.0, b.0), (c.0, d.0)) }
    {
        let pairs = QM31(CM31(a, b), CM31(c, d));
        pairs.check()?;
        Ok(pairs)
    }

    pub fn from_m31_array(array: [M31; SECURE_EXTENSION_DEGREE]) -> Result<QM31, Refusal>
        ensures { result ≡ from_array_answer array }
    {
        let [a, b, c, d] = array;
        QM31::from_m31(a, b, c, d)
    }

    pub fn to_m31_array(self) -> Result<[M31; SECURE_EXTENSION_DEGREE], Refusal>
        ensures { result ≡ to_array_answer self }
    {
        self.check()?;
        Ok([self.0.0, self.0.1, self.1.0, self.1.1])
    }

    // The value of a column of QM31 from those of its four columns of M31: a + bi + cu + diu.
    pub fn from_partial_evals(evals: [QM31; SECURE_EXTENSION_DEGREE]) -> Result<QM31, Refusal>
        ensures { result ≡ partial_evals_answer evals }
    {
        let [a, b, c, d] = evals;
        a.check()?;
        b.check()?;
        c.check()?;
        d.check()?;
        Ok(inner::from_partial_evals(a, b, c, d))
    }

    // by an element of CM31
    pub fn mul_cm31(self, rhs: CM31) -> Result<QM31, Refusal>
        ensures { result ≡ mul_complex_answer self rhs }
    {
        self.check()?;
        rhs.check()?;
        Ok(inner::mul_cm31(self, rhs))
    }
}

impl TryFrom<M31> for QM31 {
    type Error = Refusal;

    ghost try_from_gives = { λ x r. r ≡ from_base_answer x };

    fn try_from(x: M31) -> Result<QM31, Refusal> {
        QM31::from_base(x)
    }
}

impl TryFrom<usize> for QM31 {
    type Error = Refusal;

    ghost try_from_gives = { λ (n : ℕ) r. r ≡ from_number_answer n };

    fn try_from(value: usize) -> Result<QM31, Refusal> {
        Ok(QM31::embedded(M31::try_from(value)?))
    }
}

impl From<u32> for QM31 {
    ghost from_gives = { λ (n : ℕ) r. r ≡ of_pairs (of_base (n % P)) };

    fn from(value: u32) -> QM31 {
        QM31::embedded(M31::from(value))
    }
}

impl From<i32> for QM31 {
    ghost from_gives = { λ (x : ℤ) r. r ≡ of_pairs (of_base (residue_of x)) };

    fn from(value: i32) -> QM31 {
        QM31::embedded(M31::from(value))
    }
}

impl TryFrom<QM31> for M31 {
    type Error = Refusal;

    ghost try_from_gives = { λ a r. r ≡ narrow_answer a };

    fn try_from(a: QM31) -> Result<M31, Refusal> {
        a.check()?;
        need(a.1.equals_zero(), Refusal::Narrowing)?;
        need(a.0.1.equals_zero(), Refusal::Narrowing)?;
        Ok(a.0.0)
    }
}
