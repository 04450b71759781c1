// Columns of QM31: 4 words an element, those of p and then of q in p + qu.
ghost use Rattle.fields.specs.QM31.{pairs_of};
ghost use Rattle.batch.specs.Batch.{qm31_column};
ghost use Rattle.batch.specs.Passes.{qm31_units};
ghost use Rattle.batch.specs.Instances.{qm31_constants, qm31_laws};

use crate::element::{Column, Element};
use fields::cm31::CM31;
use fields::field::Field;
use fields::qm31::{QM31, SECURE_EXTENSION_DEGREE};

impl Element for QM31 {
    ghost units = { qm31_units };

    ghost value = { pairs_of };

    ghost WIDTH = { 4 };

    ghost MULTIPLICATIONS = { 1 };

    ghost constants = { qm31_constants };

    const WIDTH: usize = SECURE_EXTENSION_DEGREE;

    const MULTIPLICATIONS: u64 = 1;

    fn load(column: &[u32], from: usize) -> QM31 {
        QM31(
            CM31::load(column, from),
            CM31::load(column, from + CM31::WIDTH),
        )
    }

    fn store(self, dst: &mut [u32], to: usize) {
        self.0.store(dst, to);
        self.1.store(dst, to + CM31::WIDTH);
    }

    fn multiply(self, rhs: QM31) -> QM31 {
        self.times(rhs)
    }
}

impl Column for QM31 {
    ghost column = { qm31_column };

    ghost laws = { qm31_laws };
}
