// The field of integers modulo P = 2^31 - 1 (stwo's m31.rs).
ghost use Rattle.std.specs.Prelude.{◌≡◌, ◌%◌, ℕ, ℤ};
ghost use Rattle.algebra.specs.M31.{P};
ghost use Rattle.fields.specs.M31.{m31_field, of_word, residue_of, partial_reduce_answer, reduce_answer, from_word_answer, sqn_answer};
ghost use Rattle.fields.specs.Squarings.{squarings_of};
ghost use Rattle.fields.specs.FieldLaws.{m31_lawful};

use crate::check::need;
use crate::cm31::{CM31, inner as cm31};
use crate::field::Field;
use crate::refusal::Refusal;

pub mod inner;

pub const MODULUS_BITS: u32 = 31;

pub const P: u32 = 2147483647;

// 2P and P^2, from which partial_reduce and reduce refuse
const TWO_P: u32 = 4294967294;

pub const P_SQUARED: u64 = 4611686014132420609;

#[derive(Clone, Copy, Debug, PartialEq, Eq)]
pub struct M31(pub u32);

pub type BaseField = M31;

impl Field for M31 {
    ghost field = { m31_field };

    ghost lawful = { m31_lawful };

    fn zero() -> M31 {
        M31(0)
    }

    fn one() -> M31 {
        M31(1)
    }

    fn is_reduced(self) -> bool {
        self.0 < P
    }

    fn equals_zero(self) -> bool {
        self.0 == 0
    }

    fn plus(self, rhs: M31) -> M31 {
        M31(inner::add(self.0, rhs.0))
    }

    fn minus(self, rhs: M31) -> M31 {
        M31(inner::sub(self.0, rhs.0))
    }

    fn negated(self) -> M31 {
        M31(inner::neg(self.0))
    }

    fn times(self, rhs: M31) -> M31 {
        M31(inner::mul(self.0, rhs.0))
    }

    // The product in CM31, which reduces each sum of products once.
    fn complex_product(x: M31, y: M31, z: M31, w: M31) -> (M31, M31) {
        let product = cm31::mul(CM31(x, y), CM31(z, w));
        (product.0, product.1)
    }

    fn inverted(self) -> M31 {
        M31(inner::pow2147483645(self.0))
    }

    fn conjugated(self) -> M31 {
        self
    }
}

impl M31 {
    pub fn partial_reduce(val: u32) -> Result<M31, Refusal>
        ensures { result ≡ partial_reduce_answer val }
    {
        need(val < TWO_P, Refusal::Reduction)?;
        Ok(M31(inner::partial_reduce(val)))
    }

    pub fn reduce(val: u64) -> Result<M31, Refusal>
        ensures { result ≡ reduce_answer val }
    {
        need(val < P_SQUARED, Refusal::Reduction)?;
        Ok(M31(inner::reduce(val)))
    }

    pub fn from_u32_unchecked(arg: u32) -> Result<M31, Refusal>
        ensures { result ≡ from_word_answer arg }
    {
        M31(arg).check()?;
        Ok(M31(arg))
    }
}

impl TryFrom<usize> for M31 {
    type Error = Refusal;

    ghost try_from_gives = { λ (n : ℕ) r. r ≡ reduce_answer n };

    fn try_from(value: usize) -> Result<M31, Refusal> {
        M31::reduce(value as u64)
    }
}

impl From<u32> for M31 {
    ghost from_gives = { λ (n : ℕ) r. r ≡ of_word (n % P) };

    fn from(value: u32) -> M31 {
        M31(inner::reduce(value as u64))
    }
}

impl From<i32> for M31 {
    ghost from_gives = { λ (x : ℤ) r. r ≡ of_word (residue_of x) };

    fn from(value: i32) -> M31 {
        let size = M31::from(value.unsigned_abs());
        if value < 0 { size.negated() } else { size }
    }
}

// The fewest squarings that give the same as n of them: squaring has period 30 from the first square on.
fn squarings(n: u64) -> u64
    ensures { result ≡ squarings_of n }
{
    if n <= 30 { n } else { 1 + (n - 1) % 30 }
}

// v squared n times.
pub fn sqn(v: M31, n: u64) -> Result<M31, Refusal>
    ensures { result ≡ sqn_answer v n }
{
    v.check()?;
    Ok(M31(inner::sqn(v.0, squarings(n))))
}
