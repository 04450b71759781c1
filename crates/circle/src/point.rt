// Points over M31 or QM31 (stwo's CirclePoint). Their coordinates needn't lie on the circle.
ghost use Rattle.std.specs.Prelude.{◌≡◌};
ghost use Rattle.fields.specs.Check.{outcome};
ghost use Rattle.circle.specs.CirclePoint.{words, add_answer, sub_answer, double_answer, double_x_answer, mul_answer};
ghost use Rattle.circle.specs.CirclePoint.{mul_signed_answer, repeated_double_answer, conjugate_answer, antipode_answer};
ghost use Rattle.circle.specs.CirclePoint.{complex_conjugate_answer};
ghost use Rattle.circle.specs.Point as M31Point;
ghost use Rattle.circle.specs.SecurePoint.{into_ef_answer};

use crate::secure_point::SecureCirclePoint;
use fields::check::need;
use fields::extension::Extension;
use fields::field::Field;
use fields::m31::M31;
use fields::qm31::QM31;
use fields::refusal::Refusal;

pub mod inner;

#[derive(Clone, Copy, Debug, PartialEq, Eq)]
pub struct CirclePoint<F> {
    pub x: F,
    pub y: F,
}

// G, a generator of the circle group over M31; `CirclePoint::generator` is its promise
pub const M31_CIRCLE_GEN: CirclePoint<M31> = CirclePoint {
    x: M31(2),
    y: M31(1268011823),
};

// The order of G is 2^31.
pub const M31_CIRCLE_LOG_ORDER: u32 = 31;

impl<F: Field> CirclePoint<F> {
    pub fn check(self) -> Result<(), Refusal>
        ensures { result ≡ outcome (words F.field self) }
    {
        need(self.is_reduced(), Refusal::Word(0))
    }

    pub fn double(self) -> Result<CirclePoint<F>, Refusal>
        ensures { result ≡ double_answer F.field self }
    {
        self.check()?;
        Ok(self.plus(self))
    }

    // The x of the doubled point, from x alone.
    pub fn double_x(x: F) -> Result<F, Refusal>
        ensures { result ≡ double_x_answer F.field x }
    {
        x.check()?;
        Ok(inner::doubled_x(x))
    }

    pub fn mul(self, scalar: u128) -> Result<CirclePoint<F>, Refusal>
        ensures { result ≡ mul_answer F.field self scalar }
    {
        self.check()?;
        Ok(self.times(scalar))
    }

    pub fn repeated_double(self, n: u32) -> Result<CirclePoint<F>, Refusal>
        ensures { result ≡ repeated_double_answer F.field self n }
    {
        self.check()?;
        Ok(self.doubled(n))
    }

    pub fn conjugate(self) -> Result<CirclePoint<F>, Refusal>
        ensures { result ≡ conjugate_answer F.field self }
    {
        self.check()?;
        Ok(self.conjugated())
    }

    pub fn antipode(self) -> Result<CirclePoint<F>, Refusal>
        ensures { result ≡ antipode_answer F.field self }
    {
        self.check()?;
        Ok(self.opposite())
    }

    pub fn mul_signed(self, off: i64) -> Result<CirclePoint<F>, Refusal>
        ensures { result ≡ mul_signed_answer F.field self off }
    {
        need(off != i64::MIN, Refusal::Scalar)?;
        self.check()?;
        Ok(self.times_signed(off))
    }

    pub fn add(self, rhs: CirclePoint<F>) -> Result<CirclePoint<F>, Refusal>
        ensures { result ≡ add_answer F.field self rhs }
    {
        self.check()?;
        rhs.check()?;
        Ok(self.plus(rhs))
    }

    pub fn neg(self) -> Result<CirclePoint<F>, Refusal>
        ensures { result ≡ conjugate_answer F.field self }
    {
        self.conjugate()
    }

    pub fn sub(self, rhs: CirclePoint<F>) -> Result<CirclePoint<F>, Refusal>
        ensures { result ≡ sub_answer F.field self rhs }
    {
        self.check()?;
        rhs.check()?;
        Ok(self.plus(rhs.conjugated()))
    }

    pub fn complex_conjugate(self) -> Result<CirclePoint<F>, Refusal>
        ensures { result ≡ complex_conjugate_answer F.field self }
    {
        self.check()?;
        Ok(CirclePoint {
            x: self.x.conjugated(),
            y: self.y.conjugated(),
        })
    }
}

impl CirclePoint<M31> {
    // A constant has no contract; this has.
    pub fn generator() -> CirclePoint<M31>
        ensures { result ≡ M31Point.of_point M31Point.generator }
    {
        M31_CIRCLE_GEN
    }

    // The least count of doublings that reach zero.
    pub fn log_order(self) -> Result<u32, Refusal>
        ensures { result ≡ M31Point.log_order_answer self }
    {
        self.check()?;
        need(self.is_on_circle(), Refusal::Circle)?;
        Ok(self.doublings_to_zero())
    }

    pub fn into_ef(self) -> Result<SecureCirclePoint, Refusal>
        ensures { result ≡ into_ef_answer self }
    {
        self.check()?;
        Ok(CirclePoint {
            x: QM31::embedded(self.x),
            y: QM31::embedded(self.y),
        })
    }
}
