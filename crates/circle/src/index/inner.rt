// Operations on point indices that have been checked: what the layers above compute with. These are no public calls. Sums, products
// and points need no check: 2^31, the order of G, divides 2^64.
ghost use Rattle.std.specs.Prelude.{◌≡◌, ◌+◌, ◌-◌, ◌*◌, ◌%◌, ◌^◌, ◌≤◌};
ghost use Rattle.circle.specs.Point.{point_of, Reduced};
ghost use Rattle.circle.specs.Index.{IsIndex, is_index, index_point, subgroup_gen, neg_index};

use crate::index::CirclePointIndex;
use crate::point::{CirclePoint, M31_CIRCLE_LOG_ORDER};
use crate::point_table::constant::points;
use crate::point_table::{DIGITS, WINDOWS};
use fields::log_size::inner::two_to;
use fields::m31::M31;

// the order of G, 2^31; an index is below it
const ORDER: u64 = 2147483648;

pub fn is_index(k: CirclePointIndex) -> bool
    ensures { result ≡ is_index k }
{
    k.0 < ORDER
}

// The index of n times G.
fn modulo_order(n: u64) -> CirclePointIndex
    ensures { result.0 ≡ n % 2 ^ 31 }
{
    CirclePointIndex(n % ORDER)
}

pub fn reduce(k: CirclePointIndex) -> CirclePointIndex
    ensures { result.0 ≡ k.0 % 2 ^ 31 }
{
    modulo_order(k.0)
}

pub fn subgroup_gen(log_size: u32) -> CirclePointIndex
    requires { log_size ≤ 31 }
    ensures { result.0 ≡ subgroup_gen log_size }
{
    modulo_order(two_to(M31_CIRCLE_LOG_ORDER - log_size))
}

pub fn add(j: CirclePointIndex, k: CirclePointIndex) -> CirclePointIndex
    ensures { result.0 ≡ (j.0 + k.0) % 2 ^ 31 }
{
    modulo_order(j.0.wrapping_add(k.0))
}

pub fn sub(j: CirclePointIndex, k: CirclePointIndex) -> CirclePointIndex
    requires { (IsIndex j) × (IsIndex k) }
    ensures { result.0 ≡ (j.0 + 2 ^ 31 - k.0) % 2 ^ 31 }
{
    modulo_order(j.0 + ORDER - k.0)
}

pub fn neg(k: CirclePointIndex) -> CirclePointIndex
    requires { IsIndex k }
    ensures { result.0 ≡ neg_index k.0 }
{
    modulo_order(ORDER - k.0)
}

pub fn mul(k: CirclePointIndex, count: u64) -> CirclePointIndex
    ensures { result.0 ≡ (k.0 * count) % 2 ^ 31 }
{
    modulo_order(k.0.wrapping_mul(count))
}

// The sum of the points of its digits.
pub fn to_point(k: CirclePointIndex) -> CirclePoint<M31>
    ensures { (point_of result ≡ index_point k.0) × Reduced result }
{
    let table = points();
    let mut sum = CirclePoint::zero();
    let mut rest = reduce(k).0 as usize;
    for window in 0..WINDOWS {
        sum = sum.plus(table.entry(window, rest % DIGITS));
        rest /= DIGITS;
    }
    sum
}
