// QM31 by its words, and its calls with M31 and CM31 (fields::qm31).
ghost use Rattle.std.specs.Prelude.{◌≡◌, [], ◌∷◌, ◌+◌, ◌*◌, ◌%◌, ◌^◌, Ok};
ghost use Rattle.algebra.specs.M31.{P};
ghost use Rattle.fields.specs.Words.{quartic_words};
ghost use Rattle.fields.specs.M31.{of_word, residue_of};
ghost use Rattle.fields.specs.CM31.{of_pair};
ghost use Rattle.fields.specs.QM31.{of_pairs, of_base, from_pairs_answer, from_array_answer, to_array_answer, from_base_answer};
ghost use Rattle.fields.specs.QM31.{from_number_answer, is_zero_answer, add_answer, sub_answer, neg_answer, mul_answer};
ghost use Rattle.fields.specs.QM31.{mul_complex_answer, square_answer, pow_answer, inverse_answer, div_answer};
ghost use Rattle.fields.specs.QM31.{conjugate_answer, narrow_answer, partial_evals_answer, add_base_answer, sub_base_answer};
ghost use Rattle.fields.specs.QM31.{mul_base_answer, div_base_answer, base_sub_answer, base_div_answer};
ghost use Rattle.taripomune.specs.Reply.{m31_reply, bool_reply, qm31_reply, array_reply};

use taripomune::reply::{BoolReply, M31Reply, QM31Reply};

#[unsafe(no_mangle)]
pub extern "C" fn tari_qm31_zero() -> QM31Reply
    ensures { result ≡ qm31_reply (Ok (of_pairs quartic_words.zero)) }
{
    taripomune::qm31::tari_qm31_zero()
}

#[unsafe(no_mangle)]
pub extern "C" fn tari_qm31_one() -> QM31Reply
    ensures { result ≡ qm31_reply (Ok (of_pairs quartic_words.one)) }
{
    taripomune::qm31::tari_qm31_one()
}

#[unsafe(no_mangle)]
pub extern "C" fn tari_qm31_is_zero(a0: u32, a1: u32, a2: u32, a3: u32) -> BoolReply
    ensures { result ≡ bool_reply (is_zero_answer (of_pairs ((a0, a1), (a2, a3)))) }
{
    taripomune::qm31::tari_qm31_is_zero(a0, a1, a2, a3)
}

#[unsafe(no_mangle)]
pub extern "C" fn tari_qm31_from_u32_unchecked(a: u32, b: u32, c: u32, d: u32) -> QM31Reply
    ensures { result ≡ qm31_reply (from_pairs_answer ((a, b), (c, d))) }
{
    taripomune::qm31::tari_qm31_from_u32_unchecked(a, b, c, d)
}

#[unsafe(no_mangle)]
pub extern "C" fn tari_qm31_from_m31(a: u32, b: u32, c: u32, d: u32) -> QM31Reply
    ensures { result ≡ qm31_reply (from_pairs_answer ((a, b), (c, d))) }
{
    taripomune::qm31::tari_qm31_from_m31(a, b, c, d)
}

#[unsafe(no_mangle)]
pub extern "C" fn tari_qm31_from_m31_array(a: u32, b: u32, c: u32, d: u32) -> QM31Reply
    ensures { result ≡ qm31_reply (from_array_answer (of_word a ∷ of_word b ∷ of_word c ∷ of_word d ∷ [])) }
{
    taripomune::qm31::tari_qm31_from_m31_array(a, b, c, d)
}

#[unsafe(no_mangle)]
pub extern "C" fn tari_qm31_to_m31_array(a0: u32, a1: u32, a2: u32, a3: u32) -> QM31Reply
    ensures { result ≡ array_reply (to_array_answer (of_pairs ((a0, a1), (a2, a3)))) }
{
    taripomune::qm31::tari_qm31_to_m31_array(a0, a1, a2, a3)
}

#[unsafe(no_mangle)]
pub extern "C" fn tari_qm31_from_base(x: u32) -> QM31Reply
    ensures { result ≡ qm31_reply (from_base_answer (of_word x)) }
{
    taripomune::qm31::tari_qm31_from_base(x)
}

#[unsafe(no_mangle)]
pub extern "C" fn tari_qm31_from_usize(value: u64) -> QM31Reply
    ensures { result ≡ qm31_reply (from_number_answer value) }
{
    taripomune::qm31::tari_qm31_from_usize(value)
}

#[unsafe(no_mangle)]
pub extern "C" fn tari_qm31_from_u32(value: u32) -> QM31Reply
    ensures { result ≡ qm31_reply (Ok (of_pairs (of_base (value % P)))) }
{
    taripomune::qm31::tari_qm31_from_u32(value)
}

#[unsafe(no_mangle)]
pub extern "C" fn tari_qm31_from_i32(value: i32) -> QM31Reply
    ensures { result ≡ qm31_reply (Ok (of_pairs (of_base (residue_of value)))) }
{
    taripomune::qm31::tari_qm31_from_i32(value)
}

#[unsafe(no_mangle)]
pub extern "C" fn tari_qm31_from_partial_evals(
    a0: u32,
    a1: u32,
    a2: u32,
    a3: u32,
    b0: u32,
    b1: u32,
    b2: u32,
    b3: u32,
    c0: u32,
    c1: u32,
    c2: u32,
    c3: u32,
    d0: u32,
    d1: u32,
    d2: u32,
    d3: u32,
) -> QM31Reply
    ensures { result ≡ qm31_reply (partial_evals_answer (of_pairs ((a0, a1), (a2, a3)) ∷ of_pairs ((b0, b1), (b2, b3)) ∷ of_pairs
        ((c0, c1), (c2, c3)) ∷ of_pairs ((d0, d1), (d2, d3)) ∷ [])) }
{
    taripomune::qm31::tari_qm31_from_partial_evals(
        a0, a1, a2, a3, b0, b1, b2, b3, c0, c1, c2, c3, d0, d1, d2, d3,
    )
}

#[unsafe(no_mangle)]
pub extern "C" fn tari_qm31_add(
    a0: u32,
    a1: u32,
    a2: u32,
    a3: u32,
    b0: u32,
    b1: u32,
    b2: u32,
    b3: u32,
) -> QM31Reply
    ensures { result ≡ qm31_reply (add_answer (of_pairs ((a0, a1), (a2, a3))) (of_pairs ((b0, b1), (b2, b3)))) }
{
    taripomune::qm31::tari_qm31_add(a0, a1, a2, a3, b0, b1, b2, b3)
}

#[unsafe(no_mangle)]
pub extern "C" fn tari_qm31_sub(
    a0: u32,
    a1: u32,
    a2: u32,
    a3: u32,
    b0: u32,
    b1: u32,
    b2: u32,
    b3: u32,
) -> QM31Reply
    ensures { result ≡ qm31_reply (sub_answer (of_pairs ((a0, a1), (a2, a3))) (of_pairs ((b0, b1), (b2, b3)))) }
{
    taripomune::qm31::tari_qm31_sub(a0, a1, a2, a3, b0, b1, b2, b3)
}

#[unsafe(no_mangle)]
pub extern "C" fn tari_qm31_neg(a0: u32, a1: u32, a2: u32, a3: u32) -> QM31Reply
    ensures { result ≡ qm31_reply (neg_answer (of_pairs ((a0, a1), (a2, a3)))) }
{
    taripomune::qm31::tari_qm31_neg(a0, a1, a2, a3)
}

#[unsafe(no_mangle)]
pub extern "C" fn tari_qm31_mul(
    a0: u32,
    a1: u32,
    a2: u32,
    a3: u32,
    b0: u32,
    b1: u32,
    b2: u32,
    b3: u32,
) -> QM31Reply
    ensures { result ≡ qm31_reply (mul_answer (of_pairs ((a0, a1), (a2, a3))) (of_pairs ((b0, b1), (b2, b3)))) }
{
    taripomune::qm31::tari_qm31_mul(a0, a1, a2, a3, b0, b1, b2, b3)
}

#[unsafe(no_mangle)]
pub extern "C" fn tari_qm31_mul_cm31(
    a0: u32,
    a1: u32,
    a2: u32,
    a3: u32,
    b0: u32,
    b1: u32,
) -> QM31Reply
    ensures { result ≡ qm31_reply (mul_complex_answer (of_pairs ((a0, a1), (a2, a3))) (of_pair (b0, b1))) }
{
    taripomune::qm31::tari_qm31_mul_cm31(a0, a1, a2, a3, b0, b1)
}

#[unsafe(no_mangle)]
pub extern "C" fn tari_qm31_square(a0: u32, a1: u32, a2: u32, a3: u32) -> QM31Reply
    ensures { result ≡ qm31_reply (square_answer (of_pairs ((a0, a1), (a2, a3)))) }
{
    taripomune::qm31::tari_qm31_square(a0, a1, a2, a3)
}

#[unsafe(no_mangle)]
pub extern "C" fn tari_qm31_pow(
    a0: u32,
    a1: u32,
    a2: u32,
    a3: u32,
    exp_high: u64,
    exp_low: u64,
) -> QM31Reply
    ensures { result ≡ qm31_reply (pow_answer (of_pairs ((a0, a1), (a2, a3))) (exp_high * 2 ^ 64 + exp_low)) }
{
    taripomune::qm31::tari_qm31_pow(a0, a1, a2, a3, exp_high, exp_low)
}

#[unsafe(no_mangle)]
pub extern "C" fn tari_qm31_pow2147483645(a0: u32, a1: u32, a2: u32, a3: u32) -> QM31Reply
    ensures { result ≡ qm31_reply (pow_answer (of_pairs ((a0, a1), (a2, a3))) 2147483645) }
{
    taripomune::qm31::tari_qm31_pow2147483645(a0, a1, a2, a3)
}

#[unsafe(no_mangle)]
pub extern "C" fn tari_qm31_inverse(a0: u32, a1: u32, a2: u32, a3: u32) -> QM31Reply
    ensures { result ≡ qm31_reply (inverse_answer (of_pairs ((a0, a1), (a2, a3)))) }
{
    taripomune::qm31::tari_qm31_inverse(a0, a1, a2, a3)
}

#[unsafe(no_mangle)]
pub extern "C" fn tari_qm31_div(
    a0: u32,
    a1: u32,
    a2: u32,
    a3: u32,
    b0: u32,
    b1: u32,
    b2: u32,
    b3: u32,
) -> QM31Reply
    ensures { result ≡ qm31_reply (div_answer (of_pairs ((a0, a1), (a2, a3))) (of_pairs ((b0, b1), (b2, b3)))) }
{
    taripomune::qm31::tari_qm31_div(a0, a1, a2, a3, b0, b1, b2, b3)
}

#[unsafe(no_mangle)]
pub extern "C" fn tari_qm31_complex_conjugate(a0: u32, a1: u32, a2: u32, a3: u32) -> QM31Reply
    ensures { result ≡ qm31_reply (conjugate_answer (of_pairs ((a0, a1), (a2, a3)))) }
{
    taripomune::qm31::tari_qm31_complex_conjugate(a0, a1, a2, a3)
}

#[unsafe(no_mangle)]
pub extern "C" fn tari_qm31_try_into_m31(a0: u32, a1: u32, a2: u32, a3: u32) -> M31Reply
    ensures { result ≡ m31_reply (narrow_answer (of_pairs ((a0, a1), (a2, a3)))) }
{
    taripomune::qm31::tari_qm31_try_into_m31(a0, a1, a2, a3)
}

#[unsafe(no_mangle)]
pub extern "C" fn tari_qm31_add_m31(a0: u32, a1: u32, a2: u32, a3: u32, b: u32) -> QM31Reply
    ensures { result ≡ qm31_reply (add_base_answer (of_pairs ((a0, a1), (a2, a3))) (of_word b)) }
{
    taripomune::qm31::tari_qm31_add_m31(a0, a1, a2, a3, b)
}

#[unsafe(no_mangle)]
pub extern "C" fn tari_qm31_sub_m31(a0: u32, a1: u32, a2: u32, a3: u32, b: u32) -> QM31Reply
    ensures { result ≡ qm31_reply (sub_base_answer (of_pairs ((a0, a1), (a2, a3))) (of_word b)) }
{
    taripomune::qm31::tari_qm31_sub_m31(a0, a1, a2, a3, b)
}

#[unsafe(no_mangle)]
pub extern "C" fn tari_qm31_mul_m31(a0: u32, a1: u32, a2: u32, a3: u32, b: u32) -> QM31Reply
    ensures { result ≡ qm31_reply (mul_base_answer (of_pairs ((a0, a1), (a2, a3))) (of_word b)) }
{
    taripomune::qm31::tari_qm31_mul_m31(a0, a1, a2, a3, b)
}

#[unsafe(no_mangle)]
pub extern "C" fn tari_qm31_div_m31(a0: u32, a1: u32, a2: u32, a3: u32, b: u32) -> QM31Reply
    ensures { result ≡ qm31_reply (div_base_answer (of_pairs ((a0, a1), (a2, a3))) (of_word b)) }
{
    taripomune::qm31::tari_qm31_div_m31(a0, a1, a2, a3, b)
}

#[unsafe(no_mangle)]
pub extern "C" fn tari_m31_add_qm31(a: u32, b0: u32, b1: u32, b2: u32, b3: u32) -> QM31Reply
    ensures { result ≡ qm31_reply (add_base_answer (of_pairs ((b0, b1), (b2, b3))) (of_word a)) }
{
    taripomune::qm31::tari_m31_add_qm31(a, b0, b1, b2, b3)
}

#[unsafe(no_mangle)]
pub extern "C" fn tari_m31_sub_qm31(a: u32, b0: u32, b1: u32, b2: u32, b3: u32) -> QM31Reply
    ensures { result ≡ qm31_reply (base_sub_answer (of_word a) (of_pairs ((b0, b1), (b2, b3)))) }
{
    taripomune::qm31::tari_m31_sub_qm31(a, b0, b1, b2, b3)
}

#[unsafe(no_mangle)]
pub extern "C" fn tari_m31_mul_qm31(a: u32, b0: u32, b1: u32, b2: u32, b3: u32) -> QM31Reply
    ensures { result ≡ qm31_reply (mul_base_answer (of_pairs ((b0, b1), (b2, b3))) (of_word a)) }
{
    taripomune::qm31::tari_m31_mul_qm31(a, b0, b1, b2, b3)
}

#[unsafe(no_mangle)]
pub extern "C" fn tari_m31_div_qm31(a: u32, b0: u32, b1: u32, b2: u32, b3: u32) -> QM31Reply
    ensures { result ≡ qm31_reply (base_div_answer (of_word a) (of_pairs ((b0, b1), (b2, b3)))) }
{
    taripomune::qm31::tari_m31_div_qm31(a, b0, b1, b2, b3)
}
