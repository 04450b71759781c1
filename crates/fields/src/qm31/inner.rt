// Products of QM31 on words known to be below P. These are no public calls.
ghost use Rattle.std.specs.Prelude.{◌≡◌};
ghost use Rattle.algebra.specs.Extension.{embed};
ghost use Rattle.fields.specs.Words.{complex_words, quartic_words};
ghost use Rattle.fields.specs.CM31.{pair_of};
ghost use Rattle.fields.specs.CM31 as C;
ghost use Rattle.fields.specs.QM31.{AllReduced, pairs_of, partial_evals, Reduced};

use crate::cm31::{CM31, P2, inner as cm31};
use crate::field::Field;
use crate::m31::{M31, inner as m31};
use crate::qm31::QM31;

const P_U64: u64 = 2147483647;

const TWO_P_SQUARED: u64 = 9223372028264841218;

// The first part of the product of a + bu and c + du: ac + (2 + i)bd.
pub fn mul_first(a: QM31, b: QM31) -> CM31
    requires { (Reduced a) × (Reduced b) }
    ensures { (pair_of result ≡ (quartic_words.mul (pairs_of a) (pairs_of b)).0) × C.Reduced result }
{
    let bd = cm31::mul(a.1, b.1);
    let plus = m31::product(a.0.0.0, b.0.0.0);
    let minus = m31::product(a.0.1.0, b.0.1.0);
    let left = m31::product(a.0.0.0, b.0.1.0);
    let right = m31::product(a.0.1.0, b.0.0.0);
    let bd_re = bd.0.0 as u64;
    let bd_im = bd.1.0 as u64;
    let re = m31::reduce_wide(plus + (P2 - minus) + 2 * bd_re + (P_U64 - bd_im));
    let im = m31::reduce_wide(left + right + bd_re + 2 * bd_im);
    CM31(M31(re), M31(im))
}

// The second part of the product of a + bu and c + du: ad + bc.
pub fn mul_second(a: QM31, b: QM31) -> CM31
    requires { (Reduced a) × (Reduced b) }
    ensures { (pair_of result ≡ (quartic_words.mul (pairs_of a) (pairs_of b)).1) × C.Reduced result }
{
    let plus = m31::product(a.0.0.0, b.1.0.0) + m31::product(a.1.0.0, b.0.0.0);
    let minus = m31::product(a.0.1.0, b.1.1.0) + m31::product(a.1.1.0, b.0.1.0);
    let left = m31::product(a.0.0.0, b.1.1.0) + m31::product(a.0.1.0, b.1.0.0);
    let right = m31::product(a.1.0.0, b.0.1.0) + m31::product(a.1.1.0, b.0.0.0);
    let re = m31::reduce_wide(plus + (TWO_P_SQUARED - minus));
    let im = m31::reduce_wide(left + right);
    CM31(M31(re), M31(im))
}

pub fn mul_cm31(a: QM31, b: CM31) -> QM31
    requires { (Reduced a) × (C.Reduced b) }
    ensures { (pairs_of result ≡ quartic_words.mul (pairs_of a) (embed complex_words (pair_of b))) × Reduced result }
{
    QM31(cm31::mul(a.0, b), cm31::mul(a.1, b))
}

// a + bi + cu + diu
pub fn from_partial_evals(a: QM31, b: QM31, c: QM31, d: QM31) -> QM31
    requires { AllReduced a b c d }
    ensures { (pairs_of result ≡ partial_evals (pairs_of a) (pairs_of b) (pairs_of c) (pairs_of d)) × Reduced result }
{
    let zero = CM31(M31(0), M31(0));
    let one = CM31(M31(1), M31(0));
    let i = CM31(M31(0), M31(1));
    let bi = b.times(QM31(i, zero));
    let cu = c.times(QM31(zero, one));
    let diu = d.times(QM31(zero, i));
    a.plus(bi).plus(cu).plus(diu)
}
