// Points whose words are known to be below P: what the calls and the layers above compute with. These are no public calls.
ghost use Rattle.std.specs.Prelude.{◌≡◌, ◌==◌};
ghost use Rattle.algebra.specs.Extension.{conjugate};
ghost use Rattle.algebra.specs.Circle.{plus, zero_point, multiple, squares, double_x, OnCircle};
ghost use Rattle.algebra.specs.Doubling.{iterate, double};
ghost use Rattle.fields.specs.Words.{words31};
ghost use Rattle.circle.specs.Formulas.{antipode, signed_multiple};
ghost use Rattle.circle.specs.CirclePoint.{point_of, of_point, Reduced, reduced};
ghost use Rattle.circle.specs.Point as M31Point;

use crate::point::{CirclePoint, M31_CIRCLE_LOG_ORDER};
use fields::field::Field;
use fields::m31::M31;

impl<F: Field> CirclePoint<F> {
    pub fn zero() -> CirclePoint<F>
        ensures { result ≡ of_point F.field (zero_point F.field.words) }
    {
        CirclePoint {
            x: F::one(),
            y: F::zero(),
        }
    }

    pub fn is_reduced(self) -> bool
        ensures { result ≡ reduced F.field self }
    {
        self.x.is_reduced() && self.y.is_reduced()
    }

    pub fn plus(self, rhs: CirclePoint<F>) -> CirclePoint<F>
        requires { (Reduced F.field self) × (Reduced F.field rhs) }
        ensures { (point_of F.field result ≡ plus F.field.words (point_of F.field self) (point_of F.field rhs)) × Reduced F.field result }
    {
        let (x, y) = F::complex_product(self.x, self.y, rhs.x, rhs.y);
        CirclePoint { x, y }
    }

    // The point added n times to zero, by double-and-add: the loop of `Field::to_power` over sums of points. They are two, as
    // a trait over both would need an impl for each field and for points, and four laws of what the loop keeps.
    pub fn times(self, n: u128) -> CirclePoint<F>
        requires { Reduced F.field self }
        ensures { (point_of F.field result ≡ multiple F.field.words n (point_of F.field self)) × Reduced F.field result }
    {
        let mut res = CirclePoint::zero();
        let mut cur = self;
        let mut left = n;
        while left != 0 {
            if left % 2 == 1 {
                res = res.plus(cur);
            }
            cur = cur.plus(cur);
            left = left / 2;
        }
        res
    }

    pub fn times_signed(self, off: i64) -> CirclePoint<F>
        requires { Reduced F.field self }
        ensures { (point_of F.field result ≡ signed_multiple F.field.words off (point_of F.field self)) × Reduced F.field result }
    {
        let size = off.unsigned_abs() as u128;
        if off < 0 {
            self.conjugated().times(size)
        } else {
            self.times(size)
        }
    }

    // n doublings
    pub fn doubled(self, n: u32) -> CirclePoint<F>
        requires { Reduced F.field self }
        ensures { (point_of F.field result ≡ iterate n (double F.field.words) (point_of F.field self)) × Reduced F.field result }
    {
        let mut res = self;
        for _ in 0..n {
            res = res.plus(res);
        }
        res
    }

    pub fn conjugated(self) -> CirclePoint<F>
        requires { Reduced F.field self }
        ensures { (point_of F.field result ≡ conjugate F.field.words (point_of F.field self)) × Reduced F.field result }
    {
        CirclePoint {
            x: self.x,
            y: self.y.negated(),
        }
    }

    pub fn opposite(self) -> CirclePoint<F>
        requires { Reduced F.field self }
        ensures { (point_of F.field result ≡ antipode F.field.words (point_of F.field self)) × Reduced F.field result }
    {
        CirclePoint {
            x: self.x.negated(),
            y: self.y.negated(),
        }
    }
}

// The x of the doubled point.
pub fn doubled_x<F: Field>(x: F) -> F
    requires { F.field.Reduced x }
    ensures { (F.field.value result ≡ double_x F.field.words (F.field.value x)) × F.field.Reduced result }
{
    let square = x.times(x);
    square.plus(square).minus(F::one())
}

impl CirclePoint<M31> {
    pub fn is_on_circle(self) -> bool
        requires { M31Point.Reduced self }
        ensures { result ≡ (squares words31 (M31Point.point_of self) == 1) }
    {
        self.x.times(self.x).plus(self.y.times(self.y)).0 == 1
    }

    // How many doublings reach zero. x alone tells: on the circle only zero has x = 1.
    pub fn doublings_to_zero(self) -> u32
        requires { (M31Point.Reduced self) × (OnCircle words31 (M31Point.point_of self)) }
        ensures { result ≡ M31Point.log_order (M31Point.point_of self) }
    {
        let mut x = self.x;
        for count in 0..M31_CIRCLE_LOG_ORDER {
            if x.0 == 1 {
                return count;
            }
            x = doubled_x(x);
        }
        M31_CIRCLE_LOG_ORDER
    }
}
