// Written by host/replay-calls from include/taripomune.h.
use crate::answer::Answer;
use crate::line::Line;
use taripomune::qm31 as calls;

fn of_none(line: &Line<'_>) -> Option<Answer> {
    let arguments = line.arguments();
    arguments.end()?;
    Some(match line.name {
        "qm31_zero" => calls::tari_qm31_zero().into(),
        "qm31_one" => calls::tari_qm31_one().into(),
        _ => return None,
    })
}

fn of_u32(line: &Line<'_>) -> Option<Answer> {
    let mut arguments = line.arguments();
    let [a0] = arguments.take::<u32, 1>()?;
    arguments.end()?;
    Some(match line.name {
        "qm31_from_base" => calls::tari_qm31_from_base(a0).into(),
        "qm31_from_u32" => calls::tari_qm31_from_u32(a0).into(),
        _ => return None,
    })
}

fn of_u64(line: &Line<'_>) -> Option<Answer> {
    let mut arguments = line.arguments();
    let [a0] = arguments.take::<u64, 1>()?;
    arguments.end()?;
    Some(match line.name {
        "qm31_from_usize" => calls::tari_qm31_from_usize(a0).into(),
        _ => return None,
    })
}

fn of_i32(line: &Line<'_>) -> Option<Answer> {
    let mut arguments = line.arguments();
    let [a0] = arguments.take::<i32, 1>()?;
    arguments.end()?;
    Some(match line.name {
        "qm31_from_i32" => calls::tari_qm31_from_i32(a0).into(),
        _ => return None,
    })
}

fn of_4_u32(line: &Line<'_>) -> Option<Answer> {
    let mut arguments = line.arguments();
    let [a0, a1, a2, a3] = arguments.take::<u32, 4>()?;
    arguments.end()?;
    Some(match line.name {
        "qm31_is_zero" => calls::tari_qm31_is_zero(a0, a1, a2, a3).into(),
        "qm31_from_u32_unchecked" => calls::tari_qm31_from_u32_unchecked(a0, a1, a2, a3).into(),
        "qm31_from_m31" => calls::tari_qm31_from_m31(a0, a1, a2, a3).into(),
        "qm31_from_m31_array" => calls::tari_qm31_from_m31_array(a0, a1, a2, a3).into(),
        "qm31_to_m31_array" => calls::tari_qm31_to_m31_array(a0, a1, a2, a3).into(),
        "qm31_neg" => calls::tari_qm31_neg(a0, a1, a2, a3).into(),
        "qm31_square" => calls::tari_qm31_square(a0, a1, a2, a3).into(),
        "qm31_pow2147483645" => calls::tari_qm31_pow2147483645(a0, a1, a2, a3).into(),
        "qm31_inverse" => calls::tari_qm31_inverse(a0, a1, a2, a3).into(),
        "qm31_complex_conjugate" => calls::tari_qm31_complex_conjugate(a0, a1, a2, a3).into(),
        "qm31_try_into_m31" => calls::tari_qm31_try_into_m31(a0, a1, a2, a3).into(),
        _ => return None,
    })
}

fn of_5_u32(line: &Line<'_>) -> Option<Answer> {
    let mut arguments = line.arguments();
    let [a0, a1, a2, a3, a4] = arguments.take::<u32, 5>()?;
    arguments.end()?;
    Some(match line.name {
        "qm31_add_m31" => calls::tari_qm31_add_m31(a0, a1, a2, a3, a4).into(),
        "qm31_sub_m31" => calls::tari_qm31_sub_m31(a0, a1, a2, a3, a4).into(),
        "qm31_mul_m31" => calls::tari_qm31_mul_m31(a0, a1, a2, a3, a4).into(),
        "qm31_div_m31" => calls::tari_qm31_div_m31(a0, a1, a2, a3, a4).into(),
        "m31_add_qm31" => calls::tari_m31_add_qm31(a0, a1, a2, a3, a4).into(),
        "m31_sub_qm31" => calls::tari_m31_sub_qm31(a0, a1, a2, a3, a4).into(),
        "m31_mul_qm31" => calls::tari_m31_mul_qm31(a0, a1, a2, a3, a4).into(),
        "m31_div_qm31" => calls::tari_m31_div_qm31(a0, a1, a2, a3, a4).into(),
        _ => return None,
    })
}

fn of_6_u32(line: &Line<'_>) -> Option<Answer> {
    let mut arguments = line.arguments();
    let [a0, a1, a2, a3, a4, a5] = arguments.take::<u32, 6>()?;
    arguments.end()?;
    Some(match line.name {
        "qm31_mul_cm31" => calls::tari_qm31_mul_cm31(a0, a1, a2, a3, a4, a5).into(),
        _ => return None,
    })
}

fn of_4_u32_2_u64(line: &Line<'_>) -> Option<Answer> {
    let mut arguments = line.arguments();
    let [a0, a1, a2, a3] = arguments.take::<u32, 4>()?;
    let [a4, a5] = arguments.take::<u64, 2>()?;
    arguments.end()?;
    Some(match line.name {
        "qm31_pow" => calls::tari_qm31_pow(a0, a1, a2, a3, a4, a5).into(),
        _ => return None,
    })
}

fn of_8_u32(line: &Line<'_>) -> Option<Answer> {
    let mut arguments = line.arguments();
    let [a0, a1, a2, a3, a4, a5, a6, a7] = arguments.take::<u32, 8>()?;
    arguments.end()?;
    Some(match line.name {
        "qm31_add" => calls::tari_qm31_add(a0, a1, a2, a3, a4, a5, a6, a7).into(),
        "qm31_sub" => calls::tari_qm31_sub(a0, a1, a2, a3, a4, a5, a6, a7).into(),
        "qm31_mul" => calls::tari_qm31_mul(a0, a1, a2, a3, a4, a5, a6, a7).into(),
        "qm31_div" => calls::tari_qm31_div(a0, a1, a2, a3, a4, a5, a6, a7).into(),
        _ => return None,
    })
}

fn of_8_u32_8_u32(line: &Line<'_>) -> Option<Answer> {
    let mut arguments = line.arguments();
    let [a0, a1, a2, a3, a4, a5, a6, a7] = arguments.take::<u32, 8>()?;
    let [a8, a9, a10, a11, a12, a13, a14, a15] = arguments.take::<u32, 8>()?;
    arguments.end()?;
    Some(match line.name {
        "qm31_from_partial_evals" => calls::tari_qm31_from_partial_evals(
            a0, a1, a2, a3, a4, a5, a6, a7, a8, a9, a10, a11, a12, a13, a14, a15,
        )
        .into(),
        _ => return None,
    })
}

pub fn answer_of(line: &Line<'_>) -> Option<Answer> {
    of_none(line)
        .or_else(|| of_u32(line))
        .or_else(|| of_u64(line))
        .or_else(|| of_i32(line))
        .or_else(|| of_4_u32(line))
        .or_else(|| of_5_u32(line))
        .or_else(|| of_6_u32(line))
        .or_else(|| of_4_u32_2_u64(line))
        .or_else(|| of_8_u32(line))
        .or_else(|| of_8_u32_8_u32(line))
}
