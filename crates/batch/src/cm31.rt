// Columns of CM31: 2 words an element, a and b of a + bi.
ghost use Rattle.fields.specs.CM31.{pair_of};
ghost use Rattle.batch.specs.Batch.{cm31_column};
ghost use Rattle.batch.specs.Passes.{cm31_units};
ghost use Rattle.batch.specs.Instances.{cm31_constants, cm31_laws};

use crate::element::{Column, Element};
use fields::cm31::CM31;
use fields::field::Field;
use fields::m31::M31;

impl Element for CM31 {
    ghost units = { cm31_units };

    ghost value = { pair_of };

    ghost WIDTH = { 2 };

    ghost MULTIPLICATIONS = { 1 };

    ghost constants = { cm31_constants };

    const WIDTH: usize = 2;

    const MULTIPLICATIONS: u64 = 1;

    fn load(column: &[u32], from: usize) -> CM31 {
        CM31(M31(column[from]), M31(column[from + 1]))
    }

    fn store(self, dst: &mut [u32], to: usize) {
        dst[to] = self.0.0;
        dst[to + 1] = self.1.0;
    }

    fn multiply(self, rhs: CM31) -> CM31 {
        self.times(rhs)
    }
}

impl Column for CM31 {
    ghost column = { cm31_column };

    ghost laws = { cm31_laws };
}
