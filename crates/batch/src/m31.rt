// Columns of M31.
ghost use Rattle.batch.specs.Batch.{m31_column};
ghost use Rattle.batch.specs.Passes.{m31_units};
ghost use Rattle.batch.specs.Instances.{m31_constants, m31_laws};

use crate::element::{Column, Element};
use fields::field::Field;
use fields::m31::M31;

// 2^31
const TWO_POW_31: u32 = 2147483648;

impl Element for M31 {
    ghost units = { m31_units };

    ghost value = { λ a. a.0 };

    ghost WIDTH = { 1 };

    ghost MULTIPLICATIONS = { 1 };

    ghost constants = { m31_constants };

    const WIDTH: usize = 1;

    const MULTIPLICATIONS: u64 = 1;

    fn load(column: &[u32], from: usize) -> M31 {
        M31(column[from])
    }

    fn store(self, dst: &mut [u32], to: usize) {
        dst[to] = self.0;
    }

    fn multiply(self, rhs: M31) -> M31 {
        self.times(rhs)
    }
}

impl Column for M31 {
    ghost column = { m31_column };

    ghost laws = { m31_laws };

    // One function for this and `all_below_p` of fields would take the number made of each word as a closure, and its contract would
    // speak of the closure's answers: longer than the two loops.
    // Just where a word is from 1 to P - 1, the word less 1 and the word plus 1, both modulo 2^32, are below 2^31.
    fn all_invertible(words: &[u32]) -> bool {
        let mut seen: u32 = 0;
        for &word in words {
            seen |= word.wrapping_sub(1) | word.wrapping_add(1);
        }
        seen < TWO_POW_31
    }
}
