// Products of CM31 on words known to be below P: what QM31 and the layers above compute with. These are no public calls.
ghost use Rattle.std.specs.Prelude.{◌≡◌};
ghost use Rattle.algebra.specs.Tower.{two_plus_i};
ghost use Rattle.fields.specs.Words.{words31, complex_words};
ghost use Rattle.fields.specs.CM31.{pair_of, Reduced};

use crate::cm31::{CM31, P2};
use crate::field::Field;
use crate::m31::{M31, inner as m31};

// (a + bi)(c + di) = (ac - bd) + (ad + bc)i
pub fn mul(a: CM31, b: CM31) -> CM31
    requires { (Reduced a) × (Reduced b) }
    ensures { (pair_of result ≡ complex_words.mul (pair_of a) (pair_of b)) × Reduced result }
{
    let ac = m31::product(a.0.0, b.0.0);
    let bd = m31::product(a.1.0, b.1.0);
    let ad = m31::product(a.0.0, b.1.0);
    let bc = m31::product(a.1.0, b.0.0);
    let re = m31::reduce_two(ac + (P2 - bd));
    let im = m31::reduce_two(ad + bc);
    CM31(M31(re), M31(im))
}

// (2 + i)(a + bi) = (2a - b) + (a + 2b)i
pub fn mul_two_plus_i(a: CM31) -> CM31
    requires { Reduced a }
    ensures { (pair_of result ≡ complex_words.mul (two_plus_i words31) (pair_of a)) × Reduced result }
{
    let re = a.0.plus(a.0);
    let im = a.1.plus(a.1);
    CM31(re.minus(a.1), a.0.plus(im))
}
