// CM31 by its words, and its calls with M31 (fields::cm31).
ghost use Rattle.std.specs.Prelude.{◌≡◌, ◌+◌, ◌*◌, ◌^◌, Ok};
ghost use Rattle.fields.specs.Words.{complex_words};
ghost use Rattle.fields.specs.M31.{of_word};
ghost use Rattle.fields.specs.CM31.{of_pair, from_pair_answer, from_base_answer, is_zero_answer, add_answer, sub_answer};
ghost use Rattle.fields.specs.CM31.{neg_answer, mul_answer, square_answer, pow_answer, inverse_answer, div_answer};
ghost use Rattle.fields.specs.CM31.{conjugate_answer, narrow_answer, add_base_answer, sub_base_answer, mul_base_answer};
ghost use Rattle.fields.specs.CM31.{div_base_answer, base_sub_answer, base_div_answer};
ghost use Rattle.taripomune.specs.Reply.{m31_reply, bool_reply, cm31_reply};

use taripomune::reply::{BoolReply, CM31Reply, M31Reply};

#[unsafe(no_mangle)]
pub extern "C" fn tari_cm31_zero() -> CM31Reply
    ensures { result ≡ cm31_reply (Ok (of_pair complex_words.zero)) }
{
    taripomune::cm31::tari_cm31_zero()
}

#[unsafe(no_mangle)]
pub extern "C" fn tari_cm31_one() -> CM31Reply
    ensures { result ≡ cm31_reply (Ok (of_pair complex_words.one)) }
{
    taripomune::cm31::tari_cm31_one()
}

#[unsafe(no_mangle)]
pub extern "C" fn tari_cm31_is_zero(a0: u32, a1: u32) -> BoolReply
    ensures { result ≡ bool_reply (is_zero_answer (of_pair (a0, a1))) }
{
    taripomune::cm31::tari_cm31_is_zero(a0, a1)
}

#[unsafe(no_mangle)]
pub extern "C" fn tari_cm31_from_u32_unchecked(a: u32, b: u32) -> CM31Reply
    ensures { result ≡ cm31_reply (from_pair_answer (a, b)) }
{
    taripomune::cm31::tari_cm31_from_u32_unchecked(a, b)
}

#[unsafe(no_mangle)]
pub extern "C" fn tari_cm31_from_m31(a: u32, b: u32) -> CM31Reply
    ensures { result ≡ cm31_reply (from_pair_answer (a, b)) }
{
    taripomune::cm31::tari_cm31_from_m31(a, b)
}

#[unsafe(no_mangle)]
pub extern "C" fn tari_cm31_from_base(x: u32) -> CM31Reply
    ensures { result ≡ cm31_reply (from_base_answer (of_word x)) }
{
    taripomune::cm31::tari_cm31_from_base(x)
}

#[unsafe(no_mangle)]
pub extern "C" fn tari_cm31_add(a0: u32, a1: u32, b0: u32, b1: u32) -> CM31Reply
    ensures { result ≡ cm31_reply (add_answer (of_pair (a0, a1)) (of_pair (b0, b1))) }
{
    taripomune::cm31::tari_cm31_add(a0, a1, b0, b1)
}

#[unsafe(no_mangle)]
pub extern "C" fn tari_cm31_sub(a0: u32, a1: u32, b0: u32, b1: u32) -> CM31Reply
    ensures { result ≡ cm31_reply (sub_answer (of_pair (a0, a1)) (of_pair (b0, b1))) }
{
    taripomune::cm31::tari_cm31_sub(a0, a1, b0, b1)
}

#[unsafe(no_mangle)]
pub extern "C" fn tari_cm31_neg(a0: u32, a1: u32) -> CM31Reply
    ensures { result ≡ cm31_reply (neg_answer (of_pair (a0, a1))) }
{
    taripomune::cm31::tari_cm31_neg(a0, a1)
}

#[unsafe(no_mangle)]
pub extern "C" fn tari_cm31_mul(a0: u32, a1: u32, b0: u32, b1: u32) -> CM31Reply
    ensures { result ≡ cm31_reply (mul_answer (of_pair (a0, a1)) (of_pair (b0, b1))) }
{
    taripomune::cm31::tari_cm31_mul(a0, a1, b0, b1)
}

#[unsafe(no_mangle)]
pub extern "C" fn tari_cm31_square(a0: u32, a1: u32) -> CM31Reply
    ensures { result ≡ cm31_reply (square_answer (of_pair (a0, a1))) }
{
    taripomune::cm31::tari_cm31_square(a0, a1)
}

#[unsafe(no_mangle)]
pub extern "C" fn tari_cm31_pow(a0: u32, a1: u32, exp_high: u64, exp_low: u64) -> CM31Reply
    ensures { result ≡ cm31_reply (pow_answer (of_pair (a0, a1)) (exp_high * 2 ^ 64 + exp_low)) }
{
    taripomune::cm31::tari_cm31_pow(a0, a1, exp_high, exp_low)
}

#[unsafe(no_mangle)]
pub extern "C" fn tari_cm31_pow2147483645(a0: u32, a1: u32) -> CM31Reply
    ensures { result ≡ cm31_reply (pow_answer (of_pair (a0, a1)) 2147483645) }
{
    taripomune::cm31::tari_cm31_pow2147483645(a0, a1)
}

#[unsafe(no_mangle)]
pub extern "C" fn tari_cm31_inverse(a0: u32, a1: u32) -> CM31Reply
    ensures { result ≡ cm31_reply (inverse_answer (of_pair (a0, a1))) }
{
    taripomune::cm31::tari_cm31_inverse(a0, a1)
}

#[unsafe(no_mangle)]
pub extern "C" fn tari_cm31_div(a0: u32, a1: u32, b0: u32, b1: u32) -> CM31Reply
    ensures { result ≡ cm31_reply (div_answer (of_pair (a0, a1)) (of_pair (b0, b1))) }
{
    taripomune::cm31::tari_cm31_div(a0, a1, b0, b1)
}

#[unsafe(no_mangle)]
pub extern "C" fn tari_cm31_complex_conjugate(a0: u32, a1: u32) -> CM31Reply
    ensures { result ≡ cm31_reply (conjugate_answer (of_pair (a0, a1))) }
{
    taripomune::cm31::tari_cm31_complex_conjugate(a0, a1)
}

#[unsafe(no_mangle)]
pub extern "C" fn tari_cm31_try_into_m31(a0: u32, a1: u32) -> M31Reply
    ensures { result ≡ m31_reply (narrow_answer (of_pair (a0, a1))) }
{
    taripomune::cm31::tari_cm31_try_into_m31(a0, a1)
}

#[unsafe(no_mangle)]
pub extern "C" fn tari_cm31_add_m31(a0: u32, a1: u32, b: u32) -> CM31Reply
    ensures { result ≡ cm31_reply (add_base_answer (of_pair (a0, a1)) (of_word b)) }
{
    taripomune::cm31::tari_cm31_add_m31(a0, a1, b)
}

#[unsafe(no_mangle)]
pub extern "C" fn tari_cm31_sub_m31(a0: u32, a1: u32, b: u32) -> CM31Reply
    ensures { result ≡ cm31_reply (sub_base_answer (of_pair (a0, a1)) (of_word b)) }
{
    taripomune::cm31::tari_cm31_sub_m31(a0, a1, b)
}

#[unsafe(no_mangle)]
pub extern "C" fn tari_cm31_mul_m31(a0: u32, a1: u32, b: u32) -> CM31Reply
    ensures { result ≡ cm31_reply (mul_base_answer (of_pair (a0, a1)) (of_word b)) }
{
    taripomune::cm31::tari_cm31_mul_m31(a0, a1, b)
}

#[unsafe(no_mangle)]
pub extern "C" fn tari_cm31_div_m31(a0: u32, a1: u32, b: u32) -> CM31Reply
    ensures { result ≡ cm31_reply (div_base_answer (of_pair (a0, a1)) (of_word b)) }
{
    taripomune::cm31::tari_cm31_div_m31(a0, a1, b)
}

#[unsafe(no_mangle)]
pub extern "C" fn tari_m31_add_cm31(a: u32, b0: u32, b1: u32) -> CM31Reply
    ensures { result ≡ cm31_reply (add_base_answer (of_pair (b0, b1)) (of_word a)) }
{
    taripomune::cm31::tari_m31_add_cm31(a, b0, b1)
}

#[unsafe(no_mangle)]
pub extern "C" fn tari_m31_sub_cm31(a: u32, b0: u32, b1: u32) -> CM31Reply
    ensures { result ≡ cm31_reply (base_sub_answer (of_word a) (of_pair (b0, b1))) }
{
    taripomune::cm31::tari_m31_sub_cm31(a, b0, b1)
}

#[unsafe(no_mangle)]
pub extern "C" fn tari_m31_mul_cm31(a: u32, b0: u32, b1: u32) -> CM31Reply
    ensures { result ≡ cm31_reply (mul_base_answer (of_pair (b0, b1)) (of_word a)) }
{
    taripomune::cm31::tari_m31_mul_cm31(a, b0, b1)
}

#[unsafe(no_mangle)]
pub extern "C" fn tari_m31_div_cm31(a: u32, b0: u32, b1: u32) -> CM31Reply
    ensures { result ≡ cm31_reply (base_div_answer (of_word a) (of_pair (b0, b1))) }
{
    taripomune::cm31::tari_m31_div_cm31(a, b0, b1)
}
