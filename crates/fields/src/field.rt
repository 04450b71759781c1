// What the fields have in common (the traits of stwo's fields/mod.rs): operations on elements whose words are known to be
// below P, which each field gives, and the calls, which check their elements before they compute.
//
// An element known to be reduced is no type of its own. Public elements hold any words, since a call refuses bad ones by number 1,
// so reduced elements would be second types beside them, for the parts too: `CM31(self.0.plus(rhs.0), ..)` is built of parts
// that are known to be reduced, and each such place would have to change between the two.
ghost use Rattle.std.specs.Prelude.{◌≡◌};
ghost use Rattle.algebra.specs.Ring.{sub};
ghost use Rattle.algebra.specs.Power.{pow};
ghost use Rattle.algebra.specs.Circle.{plus};
ghost use Rattle.fields.specs.Check.{outcome};
ghost use Rattle.fields.specs.Field.{FieldOf, values, words, nonzero, is_zero_answer, add_answer, sub_answer, neg_answer, mul_answer};
ghost use Rattle.fields.specs.Field.{square_answer, pow_answer, inverse_answer, div_answer, conjugate_answer};
ghost use Rattle.fields.specs.FieldLaws.{Lawful};

use crate::check::need;
use crate::refusal::Refusal;

pub trait Field: Copy {
    ghost field: { FieldOf Self };

    ghost lawful: { Lawful field };

    fn zero() -> Self
        ensures { result ≡ field.of field.words.zero };

    fn one() -> Self
        ensures { result ≡ field.of field.words.one };

    // Whether all words are below P.
    fn is_reduced(self) -> bool
        ensures { result ≡ field.reduced self };

    // Whether all words are 0.
    fn equals_zero(self) -> bool
        ensures { result ≡ field.is_zero self };

    fn plus(self, rhs: Self) -> Self
        requires { (field.Reduced self) × (field.Reduced rhs) }
        ensures { (field.value result ≡ field.words.add (field.value self) (field.value rhs)) × field.Reduced result };

    fn minus(self, rhs: Self) -> Self
        requires { (field.Reduced self) × (field.Reduced rhs) }
        ensures { (field.value result ≡ sub field.words (field.value self) (field.value rhs)) × field.Reduced result };

    fn negated(self) -> Self
        requires { field.Reduced self }
        ensures { (field.value result ≡ field.words.neg (field.value self)) × field.Reduced result };

    fn times(self, rhs: Self) -> Self
        requires { (field.Reduced self) × (field.Reduced rhs) }
        ensures { (field.value result ≡ field.words.mul (field.value self) (field.value rhs)) × field.Reduced result };

    // (x + yi)(z + wi) for i^2 = -1, as the pair (xz - yw, xw + yz).
    fn complex_product(x: Self, y: Self, z: Self, w: Self) -> (Self, Self)
        requires { (field.Reduced x) × (field.Reduced y) × (field.Reduced z) × (field.Reduced w) }
        ensures value { values field result.0 result.1 ≡ plus field.words (values field x y) (values field z w) }
        ensures reduced { (field.Reduced result.0) × field.Reduced result.1 }
    {
        (x.times(z).minus(y.times(w)), x.times(w).plus(y.times(z)))
    }

    // 0 for 0
    fn inverted(self) -> Self
        requires { field.Reduced self }
        ensures { (field.value result ≡ field.inverse (field.value self)) × field.Reduced result };

    fn conjugated(self) -> Self
        requires { field.Reduced self }
        ensures { (field.value result ≡ field.conjugate (field.value self)) × field.Reduced result };

    // To the power n, by square-and-multiply. `CirclePoint::times` is this loop over sums of points. A trait over both would need
    // an impl for each field and for points, and four laws of what the loop keeps, which is longer than the two loops.
    final fn to_power(self, n: u128) -> Self
        requires { field.Reduced self }
        ensures { (field.value result ≡ pow field.words (field.value self) n) × field.Reduced result }
    {
        let mut res = Self::one();
        let mut base = self;
        let mut left = n;
        while left != 0 {
            if left % 2 == 1 {
                res = res.times(base);
            }
            base = base.times(base);
            left = left / 2;
        }
        res
    }

    final fn check(self) -> Result<(), Refusal>
        ensures { result ≡ outcome (words field self) }
    {
        need(self.is_reduced(), Refusal::Word(0))
    }

    final fn check_nonzero(self) -> Result<(), Refusal>
        ensures { result ≡ outcome (nonzero field self) }
    {
        need(!self.equals_zero(), Refusal::Inverse(0))
    }

    final fn is_zero(self) -> Result<bool, Refusal>
        ensures { result ≡ is_zero_answer field self }
    {
        self.check()?;
        Ok(self.equals_zero())
    }

    final fn add(self, rhs: Self) -> Result<Self, Refusal>
        ensures { result ≡ add_answer field self rhs }
    {
        self.check()?;
        rhs.check()?;
        Ok(self.plus(rhs))
    }

    final fn sub(self, rhs: Self) -> Result<Self, Refusal>
        ensures { result ≡ sub_answer field self rhs }
    {
        self.check()?;
        rhs.check()?;
        Ok(self.minus(rhs))
    }

    final fn neg(self) -> Result<Self, Refusal>
        ensures { result ≡ neg_answer field self }
    {
        self.check()?;
        Ok(self.negated())
    }

    final fn mul(self, rhs: Self) -> Result<Self, Refusal>
        ensures { result ≡ mul_answer field self rhs }
    {
        self.check()?;
        rhs.check()?;
        Ok(self.times(rhs))
    }

    final fn square(self) -> Result<Self, Refusal>
        ensures { result ≡ square_answer field self }
    {
        self.check()?;
        Ok(self.times(self))
    }

    // 0 to the power 0 is 1.
    final fn pow(self, exp: u128) -> Result<Self, Refusal>
        ensures { result ≡ pow_answer field self exp }
    {
        self.check()?;
        Ok(self.to_power(exp))
    }

    final fn inverse(self) -> Result<Self, Refusal>
        ensures { result ≡ inverse_answer field self }
    {
        self.check()?;
        self.check_nonzero()?;
        Ok(self.inverted())
    }

    final fn div(self, rhs: Self) -> Result<Self, Refusal>
        ensures { result ≡ div_answer field self rhs }
    {
        self.check()?;
        rhs.check()?;
        rhs.check_nonzero()?;
        Ok(self.times(rhs.inverted()))
    }

    final fn complex_conjugate(self) -> Result<Self, Refusal>
        ensures { result ≡ conjugate_answer field self }
    {
        self.check()?;
        Ok(self.conjugated())
    }
}

// v to the power P - 2, in any field. In M31 alone that is the inverse of v, and 0 for 0.
pub fn pow2147483645<F: Field>(v: F) -> Result<F, Refusal>
    ensures { result ≡ pow_answer F.field v 2147483645 }
{
    v.pow(2147483645)
}
