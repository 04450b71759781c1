// M31 on words already known to be below P: what the layers above compute with. These are no public calls.
//
// They take words with a bound, and no type whose invariant is the bound: columns and trees lie in slices of u32 that C lends, so
// each word read from one would have to be made a value of that type, and each result a word again. What ends in `_partly` leaves
// the last step of a reduction out; one function for both would have a bound in its contract that depends on the step.
ghost use Rattle.std.specs.Prelude.{◌≡◌, ◌+◌, ◌*◌, ◌/◌, ◌%◌, ◌^◌, ◌<◌, ◌≤◌};
ghost use Rattle.algebra.specs.M31.{P};
ghost use Rattle.fields.specs.Words.{add_p, sub_p, neg_p, mul_p, pow_p};

use crate::m31::{MODULUS_BITS, P};

// 2^31 is 1 modulo P, so the bits from 31 on are added to those below.
const TWO_POW_31: u32 = 1 << MODULUS_BITS;

const TWO_POW_31_U64: u64 = 1 << MODULUS_BITS;

const TWO_POW_32: u64 = 4294967296;

const TWO_P: u64 = 4294967294;

pub fn partial_reduce(val: u32) -> u32
    requires { val < 2 * P }
    ensures { result ≡ val % P }
{
    (val + (val + 1) / TWO_POW_31) % TWO_POW_31
}

// Down to P, which stands for 0.
fn reduce_partly(val: u32) -> u32
    requires { val ≤ 2 * P }
    ensures { (result % P ≡ val % P) × (result ≤ P) }
{
    val % TWO_POW_31 + val / TWO_POW_31
}

pub fn reduce(val: u64) -> u32
    requires { val < P * P }
    ensures { result ≡ val % P }
{
    let low = (val % TWO_POW_31_U64) as u32;
    let high = (val / TWO_POW_31_U64) as u32;
    partial_reduce(low + high)
}

// b may be P, which stands for 0.
pub fn add(a: u32, b: u32) -> u32
    requires { (a < P) × (b ≤ P) }
    ensures { result ≡ add_p a b }
{
    partial_reduce(a + b)
}

// A sum that may be P, which stands for 0; so may a and b.
pub fn add_partly(a: u32, b: u32) -> u32
    requires { (a ≤ P) × (b ≤ P) }
    ensures { (result % P ≡ add_p a b) × (result ≤ P) }
{
    reduce_partly(a + b)
}

// A difference that may be P where a is. Below 0 it wraps to 2^32 more, which is 2 modulo P.
pub fn sub_partly(a: u32, b: u32) -> u32
    requires { (a ≤ P) × (b ≤ P) }
    ensures { (result % P ≡ sub_p a b) × (result ≤ P) × (a < P → result < P) }
{
    let difference = a.wrapping_sub(b);
    (difference - difference / TWO_POW_31) % TWO_POW_31
}

// b may be P, which stands for 0.
pub fn sub(a: u32, b: u32) -> u32
    requires { (a < P) × (b ≤ P) }
    ensures { result ≡ sub_p a b }
{
    sub_partly(a, b)
}

// 0 stays 0: P - 0 is reduced.
pub fn neg(a: u32) -> u32
    requires { a < P }
    ensures { result ≡ neg_p a }
{
    partial_reduce(P - a)
}

pub fn mul(a: u32, b: u32) -> u32
    requires { (a < P) × (b < P) }
    ensures { result ≡ mul_p a b }
{
    reduce(product(a, b))
}

// The product before its reduction, for sums of products that are reduced once.
pub fn product(a: u32, b: u32) -> u64
    requires { (a < P) × (b < P) }
    ensures { (result ≡ a * b) × (result < P * P) }
{
    (a as u64) * (b as u64)
}

// The bits from 31 on of the product with w, added to those below. Where w stays the same through a loop, 2w does too, and the
// product with 2w divides at 32 bits, which takes fewer steps there.
fn halves_by(a: u32, w: u32) -> u32
    requires { (a ≤ P) × (w < P) }
    ensures { (result ≡ (a * w) % 2147483648 + (a * w) / 2147483648) × (result < 2 * P) }
{
    let twice = w.wrapping_add(w);
    let wide = (a as u64) * (twice as u64);
    ((wide % TWO_POW_32) as u32) / 2 + ((wide / TWO_POW_32) as u32)
}

// The product with a factor w that stays the same through a loop.
pub fn mul_by(a: u32, w: u32) -> u32
    requires { (a < P) × (w < P) }
    ensures { result ≡ mul_p a w }
{
    partial_reduce(halves_by(a, w))
}

// The product with a factor w that stays the same through a loop, for a sum and a difference, which reduce it: P may stand
// for 0, as it may in a.
pub fn mul_by_partly(a: u32, w: u32) -> u32
    requires { (a ≤ P) × (w < P) }
    ensures { (result % P ≡ mul_p a w) × (result ≤ P) }
{
    reduce_partly(halves_by(a, w))
}

// The product of two factors that change in a loop, for a sum and a difference, which reduce it: P may stand for 0, as it
// may in a.
pub fn mul_partly(a: u32, b: u32) -> u32
    requires { (a ≤ P) × (b < P) }
    ensures { (result % P ≡ mul_p a b) × (result ≤ P) }
{
    let wide = (a as u64) * (b as u64);
    let low = (wide % TWO_POW_31_U64) as u32;
    let high = (wide / TWO_POW_31_U64) as u32;
    reduce_partly(low + high)
}

// Any number: the bits from 31 on are added to those below, twice.
pub fn reduce_wide(val: u64) -> u32
    ensures { result ≡ val % P }
{
    let once = val % TWO_POW_31_U64 + val / TWO_POW_31_U64;
    let low = (once % TWO_POW_31_U64) as u32;
    let high = (once / TWO_POW_31_U64) as u32;
    partial_reduce(low + high)
}

// A sum of two products: the bits from 31 on, added to those below once, leave less than 3P. Choices do the rest, which
// are shorter than masks where one sum waits for another.
pub fn reduce_two(val: u64) -> u32
    requires { val < 2 * (P * P) }
    ensures { result ≡ val % P }
{
    below_p(below_two_p(val % TWO_POW_31_U64 + val / TWO_POW_31_U64))
}

fn below_two_p(sum: u64) -> u32
    requires { sum < 3 * P }
    ensures { (result % P ≡ sum % P) × (result < 2 * P) }
{
    if sum < TWO_P {
        sum as u32
    } else {
        (sum - TWO_P) as u32
    }
}

fn below_p(sum: u32) -> u32
    requires { sum < 2 * P }
    ensures { result ≡ sum % P }
{
    if sum < P { sum } else { sum - P }
}

// n squarings
pub fn sqn(v: u32, n: u64) -> u32
    requires { v < P }
    ensures { result ≡ pow_p v (2 ^ n) }
{
    let mut square = v;
    for _ in 0..n {
        square = mul(square, square);
    }
    square
}

// v to the power P - 2, with 37 multiplications.
pub fn pow2147483645(v: u32) -> u32
    requires { v < P }
    ensures { result ≡ pow_p v 2147483645 }
{
    let t0 = mul(sqn(v, 2), v);
    let t1 = mul(sqn(t0, 1), t0);
    let t2 = mul(sqn(t1, 3), t0);
    let t3 = mul(sqn(t2, 1), t0);
    let t4 = mul(sqn(t3, 8), t3);
    let t5 = mul(sqn(t4, 8), t3);
    mul(sqn(t5, 7), t2)
}
