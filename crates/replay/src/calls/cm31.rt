// Written by host/replay-calls from include/taripomune.h.
use crate::answer::Answer;
use crate::line::Line;
use taripomune::cm31 as calls;

fn of_none(line: &Line<'_>) -> Option<Answer> {
    let arguments = line.arguments();
    arguments.end()?;
    Some(match line.name {
        "cm31_zero" => calls::tari_cm31_zero().into(),
        "cm31_one" => calls::tari_cm31_one().into(),
        _ => return None,
    })
}

fn of_u32(line: &Line<'_>) -> Option<Answer> {
    let mut arguments = line.arguments();
    let [a0] = arguments.take::<u32, 1>()?;
    arguments.end()?;
    Some(match line.name {
        "cm31_from_base" => calls::tari_cm31_from_base(a0).into(),
        _ => return None,
    })
}

fn of_2_u32(line: &Line<'_>) -> Option<Answer> {
    let mut arguments = line.arguments();
    let [a0, a1] = arguments.take::<u32, 2>()?;
    arguments.end()?;
    Some(match line.name {
        "cm31_is_zero" => calls::tari_cm31_is_zero(a0, a1).into(),
        "cm31_from_u32_unchecked" => calls::tari_cm31_from_u32_unchecked(a0, a1).into(),
        "cm31_from_m31" => calls::tari_cm31_from_m31(a0, a1).into(),
        "cm31_neg" => calls::tari_cm31_neg(a0, a1).into(),
        "cm31_square" => calls::tari_cm31_square(a0, a1).into(),
        "cm31_pow2147483645" => calls::tari_cm31_pow2147483645(a0, a1).into(),
        "cm31_inverse" => calls::tari_cm31_inverse(a0, a1).into(),
        "cm31_complex_conjugate" => calls::tari_cm31_complex_conjugate(a0, a1).into(),
        "cm31_try_into_m31" => calls::tari_cm31_try_into_m31(a0, a1).into(),
        _ => return None,
    })
}

fn of_3_u32(line: &Line<'_>) -> Option<Answer> {
    let mut arguments = line.arguments();
    let [a0, a1, a2] = arguments.take::<u32, 3>()?;
    arguments.end()?;
    Some(match line.name {
        "cm31_add_m31" => calls::tari_cm31_add_m31(a0, a1, a2).into(),
        "cm31_sub_m31" => calls::tari_cm31_sub_m31(a0, a1, a2).into(),
        "cm31_mul_m31" => calls::tari_cm31_mul_m31(a0, a1, a2).into(),
        "cm31_div_m31" => calls::tari_cm31_div_m31(a0, a1, a2).into(),
        "m31_add_cm31" => calls::tari_m31_add_cm31(a0, a1, a2).into(),
        "m31_sub_cm31" => calls::tari_m31_sub_cm31(a0, a1, a2).into(),
        "m31_mul_cm31" => calls::tari_m31_mul_cm31(a0, a1, a2).into(),
        "m31_div_cm31" => calls::tari_m31_div_cm31(a0, a1, a2).into(),
        _ => return None,
    })
}

fn of_4_u32(line: &Line<'_>) -> Option<Answer> {
    let mut arguments = line.arguments();
    let [a0, a1, a2, a3] = arguments.take::<u32, 4>()?;
    arguments.end()?;
    Some(match line.name {
        "cm31_add" => calls::tari_cm31_add(a0, a1, a2, a3).into(),
        "cm31_sub" => calls::tari_cm31_sub(a0, a1, a2, a3).into(),
        "cm31_mul" => calls::tari_cm31_mul(a0, a1, a2, a3).into(),
        "cm31_div" => calls::tari_cm31_div(a0, a1, a2, a3).into(),
        _ => return None,
    })
}

fn of_2_u32_2_u64(line: &Line<'_>) -> Option<Answer> {
    let mut arguments = line.arguments();
    let [a0, a1] = arguments.take::<u32, 2>()?;
    let [a2, a3] = arguments.take::<u64, 2>()?;
    arguments.end()?;
    Some(match line.name {
        "cm31_pow" => calls::tari_cm31_pow(a0, a1, a2, a3).into(),
        _ => return None,
    })
}

pub fn answer_of(line: &Line<'_>) -> Option<Answer> {
    of_none(line)
        .or_else(|| of_u32(line))
        .or_else(|| of_2_u32(line))
        .or_else(|| of_3_u32(line))
        .or_else(|| of_4_u32(line))
        .or_else(|| of_2_u32_2_u64(line))
}
