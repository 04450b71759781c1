// Written by host/replay-calls from include/taripomune.h.
use crate::answer::Answer;
use crate::line::Line;
use taripomune::index as calls;

fn of_none(line: &Line<'_>) -> Option<Answer> {
    let arguments = line.arguments();
    arguments.end()?;
    Some(match line.name {
        "index_zero" => calls::tari_index_zero().into(),
        "index_generator" => calls::tari_index_generator().into(),
        _ => return None,
    })
}

fn of_u32(line: &Line<'_>) -> Option<Answer> {
    let mut arguments = line.arguments();
    let [a0] = arguments.take::<u32, 1>()?;
    arguments.end()?;
    Some(match line.name {
        "index_subgroup_gen" => calls::tari_index_subgroup_gen(a0).into(),
        _ => return None,
    })
}

fn of_u64(line: &Line<'_>) -> Option<Answer> {
    let mut arguments = line.arguments();
    let [a0] = arguments.take::<u64, 1>()?;
    arguments.end()?;
    Some(match line.name {
        "index_reduce" => calls::tari_index_reduce(a0).into(),
        "index_to_point" => calls::tari_index_to_point(a0).into(),
        "index_half" => calls::tari_index_half(a0).into(),
        "index_neg" => calls::tari_index_neg(a0).into(),
        _ => return None,
    })
}

fn of_2_u64(line: &Line<'_>) -> Option<Answer> {
    let mut arguments = line.arguments();
    let [a0, a1] = arguments.take::<u64, 2>()?;
    arguments.end()?;
    Some(match line.name {
        "index_add" => calls::tari_index_add(a0, a1).into(),
        "index_sub" => calls::tari_index_sub(a0, a1).into(),
        "index_mul" => calls::tari_index_mul(a0, a1).into(),
        _ => return None,
    })
}

pub fn answer_of(line: &Line<'_>) -> Option<Answer> {
    of_none(line)
        .or_else(|| of_u32(line))
        .or_else(|| of_u64(line))
        .or_else(|| of_2_u64(line))
}
