// CM31 by its words, and its calls with M31 (fields::cm31).
ghost use Rattle.std.specs.Prelude.{◌≡◌, ◌+◌, ◌*◌, ◌^◌, Ok};
ghost use Rattle.fields.specs.Words.{complex_words};
ghost use Rattle.fields.specs.M31.{of_word};
ghost use Rattle.fields.specs.CM31.{of_pair, from_pair_answer, from_base_answer, is_zero_answer, add_answer, sub_answer};
ghost use Rattle.fields.specs.CM31.{neg_answer, mul_answer, square_answer, pow_answer, inverse_answer, div_answer};
ghost use Rattle.fields.specs.CM31.{conjugate_answer, narrow_answer, add_base_answer, sub_base_answer, mul_base_answer};
ghost use Rattle.fields.specs.CM31.{div_base_answer, base_sub_answer, base_div_answer};
ghost use Rattle.taripomune.specs.Reply.{m31_reply, bool_reply, cm31_reply};

use crate::records::{cm31, u128_of};
use crate::reply::{BoolReply, CM31Reply, M31Reply};
use fields::cm31::CM31;
use fields::extension::Extension;
use fields::field::{Field, pow2147483645};
use fields::m31::M31;

pub fn tari_cm31_zero() -> CM31Reply
    ensures { result ≡ cm31_reply (Ok (of_pair complex_words.zero)) }
{
    Ok(CM31::zero()).into()
}

pub fn tari_cm31_one() -> CM31Reply
    ensures { result ≡ cm31_reply (Ok (of_pair complex_words.one)) }
{
    Ok(CM31::one()).into()
}

pub fn tari_cm31_is_zero(a0: u32, a1: u32) -> BoolReply
    ensures { result ≡ bool_reply (is_zero_answer (of_pair (a0, a1))) }
{
    cm31(a0, a1).is_zero().into()
}

pub fn tari_cm31_from_u32_unchecked(a: u32, b: u32) -> CM31Reply
    ensures { result ≡ cm31_reply (from_pair_answer (a, b)) }
{
    CM31::from_u32_unchecked(a, b).into()
}

pub fn tari_cm31_from_m31(a: u32, b: u32) -> CM31Reply
    ensures { result ≡ cm31_reply (from_pair_answer (a, b)) }
{
    CM31::from_m31(M31(a), M31(b)).into()
}

pub fn tari_cm31_from_base(x: u32) -> CM31Reply
    ensures { result ≡ cm31_reply (from_base_answer (of_word x)) }
{
    CM31::try_from(M31(x)).into()
}

pub fn tari_cm31_add(a0: u32, a1: u32, b0: u32, b1: u32) -> CM31Reply
    ensures { result ≡ cm31_reply (add_answer (of_pair (a0, a1)) (of_pair (b0, b1))) }
{
    cm31(a0, a1).add(cm31(b0, b1)).into()
}

pub fn tari_cm31_sub(a0: u32, a1: u32, b0: u32, b1: u32) -> CM31Reply
    ensures { result ≡ cm31_reply (sub_answer (of_pair (a0, a1)) (of_pair (b0, b1))) }
{
    cm31(a0, a1).sub(cm31(b0, b1)).into()
}

pub fn tari_cm31_neg(a0: u32, a1: u32) -> CM31Reply
    ensures { result ≡ cm31_reply (neg_answer (of_pair (a0, a1))) }
{
    cm31(a0, a1).neg().into()
}

pub fn tari_cm31_mul(a0: u32, a1: u32, b0: u32, b1: u32) -> CM31Reply
    ensures { result ≡ cm31_reply (mul_answer (of_pair (a0, a1)) (of_pair (b0, b1))) }
{
    cm31(a0, a1).mul(cm31(b0, b1)).into()
}

pub fn tari_cm31_square(a0: u32, a1: u32) -> CM31Reply
    ensures { result ≡ cm31_reply (square_answer (of_pair (a0, a1))) }
{
    cm31(a0, a1).square().into()
}

pub fn tari_cm31_pow(a0: u32, a1: u32, exp_high: u64, exp_low: u64) -> CM31Reply
    ensures { result ≡ cm31_reply (pow_answer (of_pair (a0, a1)) (exp_high * 2 ^ 64 + exp_low)) }
{
    cm31(a0, a1).pow(u128_of(exp_high, exp_low)).into()
}

pub fn tari_cm31_pow2147483645(a0: u32, a1: u32) -> CM31Reply
    ensures { result ≡ cm31_reply (pow_answer (of_pair (a0, a1)) 2147483645) }
{
    pow2147483645(cm31(a0, a1)).into()
}

pub fn tari_cm31_inverse(a0: u32, a1: u32) -> CM31Reply
    ensures { result ≡ cm31_reply (inverse_answer (of_pair (a0, a1))) }
{
    cm31(a0, a1).inverse().into()
}

pub fn tari_cm31_div(a0: u32, a1: u32, b0: u32, b1: u32) -> CM31Reply
    ensures { result ≡ cm31_reply (div_answer (of_pair (a0, a1)) (of_pair (b0, b1))) }
{
    cm31(a0, a1).div(cm31(b0, b1)).into()
}

pub fn tari_cm31_complex_conjugate(a0: u32, a1: u32) -> CM31Reply
    ensures { result ≡ cm31_reply (conjugate_answer (of_pair (a0, a1))) }
{
    cm31(a0, a1).complex_conjugate().into()
}

pub fn tari_cm31_try_into_m31(a0: u32, a1: u32) -> M31Reply
    ensures { result ≡ m31_reply (narrow_answer (of_pair (a0, a1))) }
{
    M31::try_from(cm31(a0, a1)).into()
}

pub fn tari_cm31_add_m31(a0: u32, a1: u32, b: u32) -> CM31Reply
    ensures { result ≡ cm31_reply (add_base_answer (of_pair (a0, a1)) (of_word b)) }
{
    cm31(a0, a1).add_m31(M31(b)).into()
}

pub fn tari_cm31_sub_m31(a0: u32, a1: u32, b: u32) -> CM31Reply
    ensures { result ≡ cm31_reply (sub_base_answer (of_pair (a0, a1)) (of_word b)) }
{
    cm31(a0, a1).sub_m31(M31(b)).into()
}

pub fn tari_cm31_mul_m31(a0: u32, a1: u32, b: u32) -> CM31Reply
    ensures { result ≡ cm31_reply (mul_base_answer (of_pair (a0, a1)) (of_word b)) }
{
    cm31(a0, a1).mul_m31(M31(b)).into()
}

pub fn tari_cm31_div_m31(a0: u32, a1: u32, b: u32) -> CM31Reply
    ensures { result ≡ cm31_reply (div_base_answer (of_pair (a0, a1)) (of_word b)) }
{
    cm31(a0, a1).div_m31(M31(b)).into()
}

pub fn tari_m31_add_cm31(a: u32, b0: u32, b1: u32) -> CM31Reply
    ensures { result ≡ cm31_reply (add_base_answer (of_pair (b0, b1)) (of_word a)) }
{
    M31(a).add_extension(cm31(b0, b1)).into()
}

pub fn tari_m31_sub_cm31(a: u32, b0: u32, b1: u32) -> CM31Reply
    ensures { result ≡ cm31_reply (base_sub_answer (of_word a) (of_pair (b0, b1))) }
{
    M31(a).sub_extension(cm31(b0, b1)).into()
}

pub fn tari_m31_mul_cm31(a: u32, b0: u32, b1: u32) -> CM31Reply
    ensures { result ≡ cm31_reply (mul_base_answer (of_pair (b0, b1)) (of_word a)) }
{
    M31(a).mul_extension(cm31(b0, b1)).into()
}

pub fn tari_m31_div_cm31(a: u32, b0: u32, b1: u32) -> CM31Reply
    ensures { result ≡ cm31_reply (base_div_answer (of_word a) (of_pair (b0, b1))) }
{
    M31(a).div_extension(cm31(b0, b1)).into()
}
