// M31 by its words (fields::m31).
ghost use Rattle.std.specs.Prelude.{◌≡◌, ◌+◌, ◌*◌, ◌%◌, ◌^◌, Ok};
ghost use Rattle.algebra.specs.M31.{P};
ghost use Rattle.fields.specs.M31.{of_word, residue_of, partial_reduce_answer, reduce_answer, from_word_answer, is_zero_answer};
ghost use Rattle.fields.specs.M31.{add_answer, sub_answer, neg_answer, mul_answer, square_answer, pow_answer, sqn_answer};
ghost use Rattle.fields.specs.M31.{inverse_answer, div_answer, conjugate_answer};
ghost use Rattle.taripomune.specs.Reply.{m31_reply, bool_reply};

use taripomune::reply::{BoolReply, M31Reply};

#[unsafe(no_mangle)]
pub extern "C" fn tari_m31_partial_reduce(val: u32) -> M31Reply
    ensures { result ≡ m31_reply (partial_reduce_answer val) }
{
    taripomune::m31::tari_m31_partial_reduce(val)
}

#[unsafe(no_mangle)]
pub extern "C" fn tari_m31_reduce(val: u64) -> M31Reply
    ensures { result ≡ m31_reply (reduce_answer val) }
{
    taripomune::m31::tari_m31_reduce(val)
}

#[unsafe(no_mangle)]
pub extern "C" fn tari_m31_from_u32_unchecked(arg: u32) -> M31Reply
    ensures { result ≡ m31_reply (from_word_answer arg) }
{
    taripomune::m31::tari_m31_from_u32_unchecked(arg)
}

#[unsafe(no_mangle)]
pub extern "C" fn tari_m31_from_usize(value: u64) -> M31Reply
    ensures { result ≡ m31_reply (reduce_answer value) }
{
    taripomune::m31::tari_m31_from_usize(value)
}

#[unsafe(no_mangle)]
pub extern "C" fn tari_m31_from_u32(value: u32) -> M31Reply
    ensures { result ≡ m31_reply (Ok (of_word (value % P))) }
{
    taripomune::m31::tari_m31_from_u32(value)
}

#[unsafe(no_mangle)]
pub extern "C" fn tari_m31_from_i32(value: i32) -> M31Reply
    ensures { result ≡ m31_reply (Ok (of_word (residue_of value))) }
{
    taripomune::m31::tari_m31_from_i32(value)
}

#[unsafe(no_mangle)]
pub extern "C" fn tari_m31_zero() -> M31Reply
    ensures { result ≡ m31_reply (Ok (of_word 0)) }
{
    taripomune::m31::tari_m31_zero()
}

#[unsafe(no_mangle)]
pub extern "C" fn tari_m31_one() -> M31Reply
    ensures { result ≡ m31_reply (Ok (of_word 1)) }
{
    taripomune::m31::tari_m31_one()
}

#[unsafe(no_mangle)]
pub extern "C" fn tari_m31_is_zero(a: u32) -> BoolReply
    ensures { result ≡ bool_reply (is_zero_answer (of_word a)) }
{
    taripomune::m31::tari_m31_is_zero(a)
}

#[unsafe(no_mangle)]
pub extern "C" fn tari_m31_add(a: u32, b: u32) -> M31Reply
    ensures { result ≡ m31_reply (add_answer (of_word a) (of_word b)) }
{
    taripomune::m31::tari_m31_add(a, b)
}

#[unsafe(no_mangle)]
pub extern "C" fn tari_m31_sub(a: u32, b: u32) -> M31Reply
    ensures { result ≡ m31_reply (sub_answer (of_word a) (of_word b)) }
{
    taripomune::m31::tari_m31_sub(a, b)
}

#[unsafe(no_mangle)]
pub extern "C" fn tari_m31_neg(a: u32) -> M31Reply
    ensures { result ≡ m31_reply (neg_answer (of_word a)) }
{
    taripomune::m31::tari_m31_neg(a)
}

#[unsafe(no_mangle)]
pub extern "C" fn tari_m31_mul(a: u32, b: u32) -> M31Reply
    ensures { result ≡ m31_reply (mul_answer (of_word a) (of_word b)) }
{
    taripomune::m31::tari_m31_mul(a, b)
}

#[unsafe(no_mangle)]
pub extern "C" fn tari_m31_square(a: u32) -> M31Reply
    ensures { result ≡ m31_reply (square_answer (of_word a)) }
{
    taripomune::m31::tari_m31_square(a)
}

#[unsafe(no_mangle)]
pub extern "C" fn tari_m31_pow(a: u32, exp_high: u64, exp_low: u64) -> M31Reply
    ensures { result ≡ m31_reply (pow_answer (of_word a) (exp_high * 2 ^ 64 + exp_low)) }
{
    taripomune::m31::tari_m31_pow(a, exp_high, exp_low)
}

#[unsafe(no_mangle)]
pub extern "C" fn tari_m31_pow2147483645(v: u32) -> M31Reply
    ensures { result ≡ m31_reply (pow_answer (of_word v) 2147483645) }
{
    taripomune::m31::tari_m31_pow2147483645(v)
}

#[unsafe(no_mangle)]
pub extern "C" fn tari_m31_sqn(v: u32, n: u64) -> M31Reply
    ensures { result ≡ m31_reply (sqn_answer (of_word v) n) }
{
    taripomune::m31::tari_m31_sqn(v, n)
}

#[unsafe(no_mangle)]
pub extern "C" fn tari_m31_inverse(a: u32) -> M31Reply
    ensures { result ≡ m31_reply (inverse_answer (of_word a)) }
{
    taripomune::m31::tari_m31_inverse(a)
}

#[unsafe(no_mangle)]
pub extern "C" fn tari_m31_div(a: u32, b: u32) -> M31Reply
    ensures { result ≡ m31_reply (div_answer (of_word a) (of_word b)) }
{
    taripomune::m31::tari_m31_div(a, b)
}

#[unsafe(no_mangle)]
pub extern "C" fn tari_m31_complex_conjugate(a: u32) -> M31Reply
    ensures { result ≡ m31_reply (conjugate_answer (of_word a)) }
{
    taripomune::m31::tari_m31_complex_conjugate(a)
}
