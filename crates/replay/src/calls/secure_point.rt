// Written by host/replay-calls from include/taripomune.h.
use crate::answer::Answer;
use crate::line::Line;
use taripomune::secure_point as calls;

fn of_none(line: &Line<'_>) -> Option<Answer> {
    let arguments = line.arguments();
    arguments.end()?;
    Some(match line.name {
        "secure_point_zero" => calls::tari_secure_point_zero().into(),
        _ => return None,
    })
}

fn of_2_u64(line: &Line<'_>) -> Option<Answer> {
    let mut arguments = line.arguments();
    let [a0, a1] = arguments.take::<u64, 2>()?;
    arguments.end()?;
    Some(match line.name {
        "secure_point_get_point" => calls::tari_secure_point_get_point(a0, a1).into(),
        _ => return None,
    })
}

fn of_4_u32(line: &Line<'_>) -> Option<Answer> {
    let mut arguments = line.arguments();
    let [a0, a1, a2, a3] = arguments.take::<u32, 4>()?;
    arguments.end()?;
    Some(match line.name {
        "secure_point_double_x" => calls::tari_secure_point_double_x(a0, a1, a2, a3).into(),
        _ => return None,
    })
}

fn of_8_u32(line: &Line<'_>) -> Option<Answer> {
    let mut arguments = line.arguments();
    let [a0, a1, a2, a3, a4, a5, a6, a7] = arguments.take::<u32, 8>()?;
    arguments.end()?;
    Some(match line.name {
        "secure_point_neg" => calls::tari_secure_point_neg(a0, a1, a2, a3, a4, a5, a6, a7).into(),
        "secure_point_double" => {
            calls::tari_secure_point_double(a0, a1, a2, a3, a4, a5, a6, a7).into()
        }
        "secure_point_conjugate" => {
            calls::tari_secure_point_conjugate(a0, a1, a2, a3, a4, a5, a6, a7).into()
        }
        "secure_point_antipode" => {
            calls::tari_secure_point_antipode(a0, a1, a2, a3, a4, a5, a6, a7).into()
        }
        "secure_point_complex_conjugate" => {
            calls::tari_secure_point_complex_conjugate(a0, a1, a2, a3, a4, a5, a6, a7).into()
        }
        _ => return None,
    })
}

fn of_8_u32_u32(line: &Line<'_>) -> Option<Answer> {
    let mut arguments = line.arguments();
    let [a0, a1, a2, a3, a4, a5, a6, a7] = arguments.take::<u32, 8>()?;
    let [a8] = arguments.take::<u32, 1>()?;
    arguments.end()?;
    Some(match line.name {
        "secure_point_repeated_double" => {
            calls::tari_secure_point_repeated_double(a0, a1, a2, a3, a4, a5, a6, a7, a8).into()
        }
        _ => return None,
    })
}

fn of_8_u32_i64(line: &Line<'_>) -> Option<Answer> {
    let mut arguments = line.arguments();
    let [a0, a1, a2, a3, a4, a5, a6, a7] = arguments.take::<u32, 8>()?;
    let [a8] = arguments.take::<i64, 1>()?;
    arguments.end()?;
    Some(match line.name {
        "secure_point_mul_signed" => {
            calls::tari_secure_point_mul_signed(a0, a1, a2, a3, a4, a5, a6, a7, a8).into()
        }
        _ => return None,
    })
}

fn of_8_u32_2_u64(line: &Line<'_>) -> Option<Answer> {
    let mut arguments = line.arguments();
    let [a0, a1, a2, a3, a4, a5, a6, a7] = arguments.take::<u32, 8>()?;
    let [a8, a9] = arguments.take::<u64, 2>()?;
    arguments.end()?;
    Some(match line.name {
        "secure_point_mul" => {
            calls::tari_secure_point_mul(a0, a1, a2, a3, a4, a5, a6, a7, a8, a9).into()
        }
        _ => return None,
    })
}

fn of_8_u32_8_u32(line: &Line<'_>) -> Option<Answer> {
    let mut arguments = line.arguments();
    let [a0, a1, a2, a3, a4, a5, a6, a7] = arguments.take::<u32, 8>()?;
    let [a8, a9, a10, a11, a12, a13, a14, a15] = arguments.take::<u32, 8>()?;
    arguments.end()?;
    Some(match line.name {
        "secure_point_add" => calls::tari_secure_point_add(
            a0, a1, a2, a3, a4, a5, a6, a7, a8, a9, a10, a11, a12, a13, a14, a15,
        )
        .into(),
        "secure_point_sub" => calls::tari_secure_point_sub(
            a0, a1, a2, a3, a4, a5, a6, a7, a8, a9, a10, a11, a12, a13, a14, a15,
        )
        .into(),
        _ => return None,
    })
}

pub fn answer_of(line: &Line<'_>) -> Option<Answer> {
    of_none(line)
        .or_else(|| of_2_u64(line))
        .or_else(|| of_4_u32(line))
        .or_else(|| of_8_u32(line))
        .or_else(|| of_8_u32_u32(line))
        .or_else(|| of_8_u32_i64(line))
        .or_else(|| of_8_u32_2_u64(line))
        .or_else(|| of_8_u32_8_u32(line))
}
