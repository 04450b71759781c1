// Written by host/replay-calls from include/taripomune.h.
use crate::answer::Answer;
use crate::line::Line;
use taripomune::point as calls;

fn of_none(line: &Line<'_>) -> Option<Answer> {
    let arguments = line.arguments();
    arguments.end()?;
    Some(match line.name {
        "point_zero" => calls::tari_point_zero().into(),
        _ => return None,
    })
}

fn of_u32(line: &Line<'_>) -> Option<Answer> {
    let mut arguments = line.arguments();
    let [a0] = arguments.take::<u32, 1>()?;
    arguments.end()?;
    Some(match line.name {
        "point_double_x" => calls::tari_point_double_x(a0).into(),
        _ => return None,
    })
}

fn of_2_u32(line: &Line<'_>) -> Option<Answer> {
    let mut arguments = line.arguments();
    let [a0, a1] = arguments.take::<u32, 2>()?;
    arguments.end()?;
    Some(match line.name {
        "point_neg" => calls::tari_point_neg(a0, a1).into(),
        "point_double" => calls::tari_point_double(a0, a1).into(),
        "point_conjugate" => calls::tari_point_conjugate(a0, a1).into(),
        "point_antipode" => calls::tari_point_antipode(a0, a1).into(),
        "point_complex_conjugate" => calls::tari_point_complex_conjugate(a0, a1).into(),
        "point_into_ef" => calls::tari_point_into_ef(a0, a1).into(),
        "point_log_order" => calls::tari_point_log_order(a0, a1).into(),
        _ => return None,
    })
}

fn of_3_u32(line: &Line<'_>) -> Option<Answer> {
    let mut arguments = line.arguments();
    let [a0, a1, a2] = arguments.take::<u32, 3>()?;
    arguments.end()?;
    Some(match line.name {
        "point_repeated_double" => calls::tari_point_repeated_double(a0, a1, a2).into(),
        _ => return None,
    })
}

fn of_2_u32_i64(line: &Line<'_>) -> Option<Answer> {
    let mut arguments = line.arguments();
    let [a0, a1] = arguments.take::<u32, 2>()?;
    let [a2] = arguments.take::<i64, 1>()?;
    arguments.end()?;
    Some(match line.name {
        "point_mul_signed" => calls::tari_point_mul_signed(a0, a1, a2).into(),
        _ => return None,
    })
}

fn of_4_u32(line: &Line<'_>) -> Option<Answer> {
    let mut arguments = line.arguments();
    let [a0, a1, a2, a3] = arguments.take::<u32, 4>()?;
    arguments.end()?;
    Some(match line.name {
        "point_add" => calls::tari_point_add(a0, a1, a2, a3).into(),
        "point_sub" => calls::tari_point_sub(a0, a1, a2, a3).into(),
        _ => return None,
    })
}

fn of_2_u32_2_u64(line: &Line<'_>) -> Option<Answer> {
    let mut arguments = line.arguments();
    let [a0, a1] = arguments.take::<u32, 2>()?;
    let [a2, a3] = arguments.take::<u64, 2>()?;
    arguments.end()?;
    Some(match line.name {
        "point_mul" => calls::tari_point_mul(a0, a1, a2, a3).into(),
        _ => return None,
    })
}

pub fn answer_of(line: &Line<'_>) -> Option<Answer> {
    of_none(line)
        .or_else(|| of_u32(line))
        .or_else(|| of_2_u32(line))
        .or_else(|| of_3_u32(line))
        .or_else(|| of_2_u32_i64(line))
        .or_else(|| of_4_u32(line))
        .or_else(|| of_2_u32_2_u64(line))
}
