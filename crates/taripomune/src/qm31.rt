// QM31 by its words, and its calls with M31 and CM31 (fields::qm31).
ghost use Rattle.std.specs.Prelude.{◌≡◌, [], ◌∷◌, ◌+◌, ◌*◌, ◌%◌, ◌^◌, Ok};
ghost use Rattle.algebra.specs.M31.{P};
ghost use Rattle.fields.specs.Words.{quartic_words};
ghost use Rattle.fields.specs.M31.{of_word, residue_of};
ghost use Rattle.fields.specs.CM31.{of_pair};
ghost use Rattle.fields.specs.QM31.{of_pairs, of_base, from_pairs_answer, from_array_answer, to_array_answer, from_base_answer};
ghost use Rattle.fields.specs.QM31.{from_number_answer, is_zero_answer, add_answer, sub_answer, neg_answer, mul_answer};
ghost use Rattle.fields.specs.QM31.{mul_complex_answer, square_answer, pow_answer, inverse_answer, div_answer};
ghost use Rattle.fields.specs.QM31.{conjugate_answer, narrow_answer, partial_evals_answer, add_base_answer, sub_base_answer};
ghost use Rattle.fields.specs.QM31.{mul_base_answer, div_base_answer, base_sub_answer, base_div_answer};
ghost use Rattle.taripomune.specs.Reply.{m31_reply, bool_reply, qm31_reply, array_reply};

use crate::records::{cm31, qm31, u128_of};
use crate::reply::{BoolReply, M31Reply, QM31Reply};
use fields::extension::Extension;
use fields::field::{Field, pow2147483645};
use fields::m31::M31;
use fields::qm31::QM31;

pub fn tari_qm31_zero() -> QM31Reply
    ensures { result ≡ qm31_reply (Ok (of_pairs quartic_words.zero)) }
{
    Ok(QM31::zero()).into()
}

pub fn tari_qm31_one() -> QM31Reply
    ensures { result ≡ qm31_reply (Ok (of_pairs quartic_words.one)) }
{
    Ok(QM31::one()).into()
}

pub fn tari_qm31_is_zero(a0: u32, a1: u32, a2: u32, a3: u32) -> BoolReply
    ensures { result ≡ bool_reply (is_zero_answer (of_pairs ((a0, a1), (a2, a3)))) }
{
    qm31(a0, a1, a2, a3).is_zero().into()
}

pub fn tari_qm31_from_u32_unchecked(a: u32, b: u32, c: u32, d: u32) -> QM31Reply
    ensures { result ≡ qm31_reply (from_pairs_answer ((a, b), (c, d))) }
{
    QM31::from_u32_unchecked(a, b, c, d).into()
}

pub fn tari_qm31_from_m31(a: u32, b: u32, c: u32, d: u32) -> QM31Reply
    ensures { result ≡ qm31_reply (from_pairs_answer ((a, b), (c, d))) }
{
    QM31::from_m31(M31(a), M31(b), M31(c), M31(d)).into()
}

pub fn tari_qm31_from_m31_array(a: u32, b: u32, c: u32, d: u32) -> QM31Reply
    ensures { result ≡ qm31_reply (from_array_answer (of_word a ∷ of_word b ∷ of_word c ∷ of_word d ∷ [])) }
{
    QM31::from_m31_array([M31(a), M31(b), M31(c), M31(d)]).into()
}

pub fn tari_qm31_to_m31_array(a0: u32, a1: u32, a2: u32, a3: u32) -> QM31Reply
    ensures { result ≡ array_reply (to_array_answer (of_pairs ((a0, a1), (a2, a3)))) }
{
    qm31(a0, a1, a2, a3).to_m31_array().into()
}

pub fn tari_qm31_from_base(x: u32) -> QM31Reply
    ensures { result ≡ qm31_reply (from_base_answer (of_word x)) }
{
    QM31::try_from(M31(x)).into()
}

pub fn tari_qm31_from_usize(value: u64) -> QM31Reply
    ensures { result ≡ qm31_reply (from_number_answer value) }
{
    QM31::try_from(value as usize).into()
}

pub fn tari_qm31_from_u32(value: u32) -> QM31Reply
    ensures { result ≡ qm31_reply (Ok (of_pairs (of_base (value % P)))) }
{
    Ok(QM31::from(value)).into()
}

pub fn tari_qm31_from_i32(value: i32) -> QM31Reply
    ensures { result ≡ qm31_reply (Ok (of_pairs (of_base (residue_of value)))) }
{
    Ok(QM31::from(value)).into()
}

pub fn tari_qm31_from_partial_evals(
    a0: u32,
    a1: u32,
    a2: u32,
    a3: u32,
    b0: u32,
    b1: u32,
    b2: u32,
    b3: u32,
    c0: u32,
    c1: u32,
    c2: u32,
    c3: u32,
    d0: u32,
    d1: u32,
    d2: u32,
    d3: u32,
) -> QM31Reply
    ensures { result ≡ qm31_reply (partial_evals_answer (of_pairs ((a0, a1), (a2, a3)) ∷ of_pairs ((b0, b1), (b2, b3)) ∷ of_pairs
        ((c0, c1), (c2, c3)) ∷ of_pairs ((d0, d1), (d2, d3)) ∷ [])) }
{
    QM31::from_partial_evals([
        qm31(a0, a1, a2, a3),
        qm31(b0, b1, b2, b3),
        qm31(c0, c1, c2, c3),
        qm31(d0, d1, d2, d3),
    ])
    .into()
}

pub fn tari_qm31_add(
    a0: u32,
    a1: u32,
    a2: u32,
    a3: u32,
    b0: u32,
    b1: u32,
    b2: u32,
    b3: u32,
) -> QM31Reply
    ensures { result ≡ qm31_reply (add_answer (of_pairs ((a0, a1), (a2, a3))) (of_pairs ((b0, b1), (b2, b3)))) }
{
    qm31(a0, a1, a2, a3).add(qm31(b0, b1, b2, b3)).into()
}

pub fn tari_qm31_sub(
    a0: u32,
    a1: u32,
    a2: u32,
    a3: u32,
    b0: u32,
    b1: u32,
    b2: u32,
    b3: u32,
) -> QM31Reply
    ensures { result ≡ qm31_reply (sub_answer (of_pairs ((a0, a1), (a2, a3))) (of_pairs ((b0, b1), (b2, b3)))) }
{
    qm31(a0, a1, a2, a3).sub(qm31(b0, b1, b2, b3)).into()
}

pub fn tari_qm31_neg(a0: u32, a1: u32, a2: u32, a3: u32) -> QM31Reply
    ensures { result ≡ qm31_reply (neg_answer (of_pairs ((a0, a1), (a2, a3)))) }
{
    qm31(a0, a1, a2, a3).neg().into()
}

pub fn tari_qm31_mul(
    a0: u32,
    a1: u32,
    a2: u32,
    a3: u32,
    b0: u32,
    b1: u32,
    b2: u32,
    b3: u32,
) -> QM31Reply
    ensures { result ≡ qm31_reply (mul_answer (of_pairs ((a0, a1), (a2, a3))) (of_pairs ((b0, b1), (b2, b3)))) }
{
    qm31(a0, a1, a2, a3).mul(qm31(b0, b1, b2, b3)).into()
}

pub fn tari_qm31_mul_cm31(a0: u32, a1: u32, a2: u32, a3: u32, b0: u32, b1: u32) -> QM31Reply
    ensures { result ≡ qm31_reply (mul_complex_answer (of_pairs ((a0, a1), (a2, a3))) (of_pair (b0, b1))) }
{
    qm31(a0, a1, a2, a3).mul_cm31(cm31(b0, b1)).into()
}

pub fn tari_qm31_square(a0: u32, a1: u32, a2: u32, a3: u32) -> QM31Reply
    ensures { result ≡ qm31_reply (square_answer (of_pairs ((a0, a1), (a2, a3)))) }
{
    qm31(a0, a1, a2, a3).square().into()
}

pub fn tari_qm31_pow(a0: u32, a1: u32, a2: u32, a3: u32, exp_high: u64, exp_low: u64) -> QM31Reply
    ensures { result ≡ qm31_reply (pow_answer (of_pairs ((a0, a1), (a2, a3))) (exp_high * 2 ^ 64 + exp_low)) }
{
    qm31(a0, a1, a2, a3).pow(u128_of(exp_high, exp_low)).into()
}

pub fn tari_qm31_pow2147483645(a0: u32, a1: u32, a2: u32, a3: u32) -> QM31Reply
    ensures { result ≡ qm31_reply (pow_answer (of_pairs ((a0, a1), (a2, a3))) 2147483645) }
{
    pow2147483645(qm31(a0, a1, a2, a3)).into()
}

pub fn tari_qm31_inverse(a0: u32, a1: u32, a2: u32, a3: u32) -> QM31Reply
    ensures { result ≡ qm31_reply (inverse_answer (of_pairs ((a0, a1), (a2, a3)))) }
{
    qm31(a0, a1, a2, a3).inverse().into()
}

pub fn tari_qm31_div(
    a0: u32,
    a1: u32,
    a2: u32,
    a3: u32,
    b0: u32,
    b1: u32,
    b2: u32,
    b3: u32,
) -> QM31Reply
    ensures { result ≡ qm31_reply (div_answer (of_pairs ((a0, a1), (a2, a3))) (of_pairs ((b0, b1), (b2, b3)))) }
{
    qm31(a0, a1, a2, a3).div(qm31(b0, b1, b2, b3)).into()
}

pub fn tari_qm31_complex_conjugate(a0: u32, a1: u32, a2: u32, a3: u32) -> QM31Reply
    ensures { result ≡ qm31_reply (conjugate_answer (of_pairs ((a0, a1), (a2, a3)))) }
{
    qm31(a0, a1, a2, a3).complex_conjugate().into()
}

pub fn tari_qm31_try_into_m31(a0: u32, a1: u32, a2: u32, a3: u32) -> M31Reply
    ensures { result ≡ m31_reply (narrow_answer (of_pairs ((a0, a1), (a2, a3)))) }
{
    M31::try_from(qm31(a0, a1, a2, a3)).into()
}

pub fn tari_qm31_add_m31(a0: u32, a1: u32, a2: u32, a3: u32, b: u32) -> QM31Reply
    ensures { result ≡ qm31_reply (add_base_answer (of_pairs ((a0, a1), (a2, a3))) (of_word b)) }
{
    qm31(a0, a1, a2, a3).add_m31(M31(b)).into()
}

pub fn tari_qm31_sub_m31(a0: u32, a1: u32, a2: u32, a3: u32, b: u32) -> QM31Reply
    ensures { result ≡ qm31_reply (sub_base_answer (of_pairs ((a0, a1), (a2, a3))) (of_word b)) }
{
    qm31(a0, a1, a2, a3).sub_m31(M31(b)).into()
}

pub fn tari_qm31_mul_m31(a0: u32, a1: u32, a2: u32, a3: u32, b: u32) -> QM31Reply
    ensures { result ≡ qm31_reply (mul_base_answer (of_pairs ((a0, a1), (a2, a3))) (of_word b)) }
{
    qm31(a0, a1, a2, a3).mul_m31(M31(b)).into()
}

pub fn tari_qm31_div_m31(a0: u32, a1: u32, a2: u32, a3: u32, b: u32) -> QM31Reply
    ensures { result ≡ qm31_reply (div_base_answer (of_pairs ((a0, a1), (a2, a3))) (of_word b)) }
{
    qm31(a0, a1, a2, a3).div_m31(M31(b)).into()
}

pub fn tari_m31_add_qm31(a: u32, b0: u32, b1: u32, b2: u32, b3: u32) -> QM31Reply
    ensures { result ≡ qm31_reply (add_base_answer (of_pairs ((b0, b1), (b2, b3))) (of_word a)) }
{
    M31(a).add_extension(qm31(b0, b1, b2, b3)).into()
}

pub fn tari_m31_sub_qm31(a: u32, b0: u32, b1: u32, b2: u32, b3: u32) -> QM31Reply
    ensures { result ≡ qm31_reply (base_sub_answer (of_word a) (of_pairs ((b0, b1), (b2, b3)))) }
{
    M31(a).sub_extension(qm31(b0, b1, b2, b3)).into()
}

pub fn tari_m31_mul_qm31(a: u32, b0: u32, b1: u32, b2: u32, b3: u32) -> QM31Reply
    ensures { result ≡ qm31_reply (mul_base_answer (of_pairs ((b0, b1), (b2, b3))) (of_word a)) }
{
    M31(a).mul_extension(qm31(b0, b1, b2, b3)).into()
}

pub fn tari_m31_div_qm31(a: u32, b0: u32, b1: u32, b2: u32, b3: u32) -> QM31Reply
    ensures { result ≡ qm31_reply (base_div_answer (of_word a) (of_pairs ((b0, b1), (b2, b3)))) }
{
    M31(a).div_extension(qm31(b0, b1, b2, b3)).into()
}
