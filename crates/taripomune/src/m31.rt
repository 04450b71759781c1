// M31 by its words (fields::m31).
ghost use Rattle.std.specs.Prelude.{◌≡◌, ◌+◌, ◌*◌, ◌%◌, ◌^◌, Ok};
ghost use Rattle.algebra.specs.M31.{P};
ghost use Rattle.fields.specs.M31.{of_word, residue_of, partial_reduce_answer, reduce_answer, from_word_answer, is_zero_answer};
ghost use Rattle.fields.specs.M31.{add_answer, sub_answer, neg_answer, mul_answer, square_answer, pow_answer, sqn_answer};
ghost use Rattle.fields.specs.M31.{inverse_answer, div_answer, conjugate_answer};
ghost use Rattle.taripomune.specs.Reply.{m31_reply, bool_reply};

use crate::records::u128_of;
use crate::reply::{BoolReply, M31Reply};
use fields::field::{Field, pow2147483645};
use fields::m31::{M31, sqn};

pub fn tari_m31_partial_reduce(val: u32) -> M31Reply
    ensures { result ≡ m31_reply (partial_reduce_answer val) }
{
    M31::partial_reduce(val).into()
}

pub fn tari_m31_reduce(val: u64) -> M31Reply
    ensures { result ≡ m31_reply (reduce_answer val) }
{
    M31::reduce(val).into()
}

pub fn tari_m31_from_u32_unchecked(arg: u32) -> M31Reply
    ensures { result ≡ m31_reply (from_word_answer arg) }
{
    M31::from_u32_unchecked(arg).into()
}

pub fn tari_m31_from_usize(value: u64) -> M31Reply
    ensures { result ≡ m31_reply (reduce_answer value) }
{
    M31::try_from(value as usize).into()
}

pub fn tari_m31_from_u32(value: u32) -> M31Reply
    ensures { result ≡ m31_reply (Ok (of_word (value % P))) }
{
    Ok(M31::from(value)).into()
}

pub fn tari_m31_from_i32(value: i32) -> M31Reply
    ensures { result ≡ m31_reply (Ok (of_word (residue_of value))) }
{
    Ok(M31::from(value)).into()
}

pub fn tari_m31_zero() -> M31Reply
    ensures { result ≡ m31_reply (Ok (of_word 0)) }
{
    Ok(M31::zero()).into()
}

pub fn tari_m31_one() -> M31Reply
    ensures { result ≡ m31_reply (Ok (of_word 1)) }
{
    Ok(M31::one()).into()
}

pub fn tari_m31_is_zero(a: u32) -> BoolReply
    ensures { result ≡ bool_reply (is_zero_answer (of_word a)) }
{
    M31(a).is_zero().into()
}

pub fn tari_m31_add(a: u32, b: u32) -> M31Reply
    ensures { result ≡ m31_reply (add_answer (of_word a) (of_word b)) }
{
    M31(a).add(M31(b)).into()
}

pub fn tari_m31_sub(a: u32, b: u32) -> M31Reply
    ensures { result ≡ m31_reply (sub_answer (of_word a) (of_word b)) }
{
    M31(a).sub(M31(b)).into()
}

pub fn tari_m31_neg(a: u32) -> M31Reply
    ensures { result ≡ m31_reply (neg_answer (of_word a)) }
{
    M31(a).neg().into()
}

pub fn tari_m31_mul(a: u32, b: u32) -> M31Reply
    ensures { result ≡ m31_reply (mul_answer (of_word a) (of_word b)) }
{
    M31(a).mul(M31(b)).into()
}

pub fn tari_m31_square(a: u32) -> M31Reply
    ensures { result ≡ m31_reply (square_answer (of_word a)) }
{
    M31(a).square().into()
}

pub fn tari_m31_pow(a: u32, exp_high: u64, exp_low: u64) -> M31Reply
    ensures { result ≡ m31_reply (pow_answer (of_word a) (exp_high * 2 ^ 64 + exp_low)) }
{
    M31(a).pow(u128_of(exp_high, exp_low)).into()
}

pub fn tari_m31_pow2147483645(v: u32) -> M31Reply
    ensures { result ≡ m31_reply (pow_answer (of_word v) 2147483645) }
{
    pow2147483645(M31(v)).into()
}

pub fn tari_m31_sqn(v: u32, n: u64) -> M31Reply
    ensures { result ≡ m31_reply (sqn_answer (of_word v) n) }
{
    sqn(M31(v), n).into()
}

pub fn tari_m31_inverse(a: u32) -> M31Reply
    ensures { result ≡ m31_reply (inverse_answer (of_word a)) }
{
    M31(a).inverse().into()
}

pub fn tari_m31_div(a: u32, b: u32) -> M31Reply
    ensures { result ≡ m31_reply (div_answer (of_word a) (of_word b)) }
{
    M31(a).div(M31(b)).into()
}

pub fn tari_m31_complex_conjugate(a: u32) -> M31Reply
    ensures { result ≡ m31_reply (conjugate_answer (of_word a)) }
{
    M31(a).complex_conjugate().into()
}
