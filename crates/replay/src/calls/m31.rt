// Written by host/replay-calls from include/taripomune.h.
use crate::answer::Answer;
use crate::line::Line;
use taripomune::m31 as calls;

fn of_none(line: &Line<'_>) -> Option<Answer> {
    let arguments = line.arguments();
    arguments.end()?;
    Some(match line.name {
        "m31_zero" => calls::tari_m31_zero().into(),
        "m31_one" => calls::tari_m31_one().into(),
        _ => return None,
    })
}

fn of_u32(line: &Line<'_>) -> Option<Answer> {
    let mut arguments = line.arguments();
    let [a0] = arguments.take::<u32, 1>()?;
    arguments.end()?;
    Some(match line.name {
        "m31_partial_reduce" => calls::tari_m31_partial_reduce(a0).into(),
        "m31_from_u32_unchecked" => calls::tari_m31_from_u32_unchecked(a0).into(),
        "m31_from_u32" => calls::tari_m31_from_u32(a0).into(),
        "m31_is_zero" => calls::tari_m31_is_zero(a0).into(),
        "m31_neg" => calls::tari_m31_neg(a0).into(),
        "m31_square" => calls::tari_m31_square(a0).into(),
        "m31_pow2147483645" => calls::tari_m31_pow2147483645(a0).into(),
        "m31_inverse" => calls::tari_m31_inverse(a0).into(),
        "m31_complex_conjugate" => calls::tari_m31_complex_conjugate(a0).into(),
        _ => return None,
    })
}

fn of_u64(line: &Line<'_>) -> Option<Answer> {
    let mut arguments = line.arguments();
    let [a0] = arguments.take::<u64, 1>()?;
    arguments.end()?;
    Some(match line.name {
        "m31_reduce" => calls::tari_m31_reduce(a0).into(),
        "m31_from_usize" => calls::tari_m31_from_usize(a0).into(),
        _ => return None,
    })
}

fn of_i32(line: &Line<'_>) -> Option<Answer> {
    let mut arguments = line.arguments();
    let [a0] = arguments.take::<i32, 1>()?;
    arguments.end()?;
    Some(match line.name {
        "m31_from_i32" => calls::tari_m31_from_i32(a0).into(),
        _ => return None,
    })
}

fn of_2_u32(line: &Line<'_>) -> Option<Answer> {
    let mut arguments = line.arguments();
    let [a0, a1] = arguments.take::<u32, 2>()?;
    arguments.end()?;
    Some(match line.name {
        "m31_add" => calls::tari_m31_add(a0, a1).into(),
        "m31_sub" => calls::tari_m31_sub(a0, a1).into(),
        "m31_mul" => calls::tari_m31_mul(a0, a1).into(),
        "m31_div" => calls::tari_m31_div(a0, a1).into(),
        _ => return None,
    })
}

fn of_u32_u64(line: &Line<'_>) -> Option<Answer> {
    let mut arguments = line.arguments();
    let [a0] = arguments.take::<u32, 1>()?;
    let [a1] = arguments.take::<u64, 1>()?;
    arguments.end()?;
    Some(match line.name {
        "m31_sqn" => calls::tari_m31_sqn(a0, a1).into(),
        _ => return None,
    })
}

fn of_u32_2_u64(line: &Line<'_>) -> Option<Answer> {
    let mut arguments = line.arguments();
    let [a0] = arguments.take::<u32, 1>()?;
    let [a1, a2] = arguments.take::<u64, 2>()?;
    arguments.end()?;
    Some(match line.name {
        "m31_pow" => calls::tari_m31_pow(a0, a1, a2).into(),
        _ => return None,
    })
}

pub fn answer_of(line: &Line<'_>) -> Option<Answer> {
    of_none(line)
        .or_else(|| of_u32(line))
        .or_else(|| of_u64(line))
        .or_else(|| of_i32(line))
        .or_else(|| of_2_u32(line))
        .or_else(|| of_u32_u64(line))
        .or_else(|| of_u32_2_u64(line))
}
