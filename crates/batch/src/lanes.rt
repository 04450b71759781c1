// Four elements side by side, whose products don't wait for one another.
ghost use Rattle.std.specs.Prelude.{◌*◌};
ghost use Rattle.batch.specs.Passes.{IsOne, lane_units};
ghost use Rattle.batch.specs.PassContracts.{LanesInverted};
ghost use Rattle.batch.specs.Elements.{four, lane_constants};

use crate::counts::Counts;
use crate::element::{Column, Element};
use fields::field::Field;

#[derive(Clone, Copy)]
pub struct Lanes<F>(pub F, pub F, pub F, pub F);

impl<F: Column> Element for Lanes<F> {
    ghost units = { lane_units F.units };

    ghost value = { four F.value };

    ghost WIDTH = { 4 * F.WIDTH };

    ghost MULTIPLICATIONS = { 4 };

    ghost constants = { lane_constants F.constants F.laws };

    const WIDTH: usize = 4 * F::WIDTH;

    const MULTIPLICATIONS: u64 = 4;

    fn load(column: &[u32], from: usize) -> Lanes<F> {
        let upper = from + 2 * F::WIDTH;
        Lanes(
            F::load(column, from),
            F::load(column, from + F::WIDTH),
            F::load(column, upper),
            F::load(column, upper + F::WIDTH),
        )
    }

    fn store(self, dst: &mut [u32], to: usize) {
        let upper = to + 2 * F::WIDTH;
        self.0.store(dst, to);
        self.1.store(dst, to + F::WIDTH);
        self.2.store(dst, upper);
        self.3.store(dst, upper + F::WIDTH);
    }

    fn multiply(self, rhs: Lanes<F>) -> Lanes<F> {
        Lanes(
            self.0.multiply(rhs.0),
            self.1.multiply(rhs.1),
            self.2.multiply(rhs.2),
            self.3.multiply(rhs.3),
        )
    }
}

// Four inverses, and what was made for them.
#[derive(Clone, Copy)]
pub struct LanesInverse<F> {
    pub lanes: Lanes<F>,
    pub made: Counts,
}

impl<F: Column> Lanes<F> {
    pub fn ones() -> Lanes<F>
        ensures { IsOne (lane_units F.units) (four F.value result) }
    {
        let one = F::one();
        Lanes(one, one, one, one)
    }

    // The inverses of the four, by one inversion.
    pub fn inverse(self) -> LanesInverse<F>
        requires { (lane_units F.units).Unit (four F.value self) }
        ensures { LanesInverted F.units (four F.value self) (four F.value result.lanes) result.made }
    {
        let mut made = Counts::default();
        let two = self.0.multiply(self.1);
        made.multiplications += 1;
        let three = two.multiply(self.2);
        made.multiplications += 1;
        let whole = three.multiply(self.3);
        made.multiplications += 1;
        let rest = whole.inverted();
        made.inversions += 1;
        let r3 = three.multiply(rest);
        made.multiplications += 1;
        let rest = rest.multiply(self.3);
        made.multiplications += 1;
        let r2 = two.multiply(rest);
        made.multiplications += 1;
        let rest = rest.multiply(self.2);
        made.multiplications += 1;
        let r1 = self.0.multiply(rest);
        made.multiplications += 1;
        let r0 = rest.multiply(self.1);
        made.multiplications += 1;
        LanesInverse {
            lanes: Lanes(r0, r1, r2, r3),
            made,
        }
    }
}
