// Written by host/replay-calls from include/taripomune.h.
use crate::answer::Answer;
use crate::line::Line;
use taripomune::coset as calls;

fn of_u32(line: &Line<'_>) -> Option<Answer> {
    let mut arguments = line.arguments();
    let [a0] = arguments.take::<u32, 1>()?;
    arguments.end()?;
    Some(match line.name {
        "coset_subgroup" => calls::tari_coset_subgroup(a0).into(),
        "coset_odds" => calls::tari_coset_odds(a0).into(),
        "coset_half_odds" => calls::tari_coset_half_odds(a0).into(),
        _ => return None,
    })
}

fn of_u64_u32(line: &Line<'_>) -> Option<Answer> {
    let mut arguments = line.arguments();
    let [a0] = arguments.take::<u64, 1>()?;
    let [a1] = arguments.take::<u32, 1>()?;
    arguments.end()?;
    Some(match line.name {
        "coset_new" => calls::tari_coset_new(a0, a1).into(),
        _ => return None,
    })
}

fn of_3_u64(line: &Line<'_>) -> Option<Answer> {
    let mut arguments = line.arguments();
    let [a0, a1, a2] = arguments.take::<u64, 3>()?;
    arguments.end()?;
    Some(match line.name {
        "coset_iterator_next" => calls::tari_coset_iterator_next(a0, a1, a2).into(),
        _ => return None,
    })
}

fn of_coset(line: &Line<'_>) -> Option<Answer> {
    let mut arguments = line.arguments();
    let (a0, a1, a2, a3, a4, a5, a6) = arguments.take_coset()?;
    arguments.end()?;
    Some(match line.name {
        "coset_size" => calls::tari_coset_size(a0, a1, a2, a3, a4, a5, a6).into(),
        "coset_log_size" => calls::tari_coset_log_size(a0, a1, a2, a3, a4, a5, a6).into(),
        "coset_iter_indices" => calls::tari_coset_iter_indices(a0, a1, a2, a3, a4, a5, a6).into(),
        "coset_double" => calls::tari_coset_double(a0, a1, a2, a3, a4, a5, a6).into(),
        "coset_initial" => calls::tari_coset_initial(a0, a1, a2, a3, a4, a5, a6).into(),
        "coset_conjugate" => calls::tari_coset_conjugate(a0, a1, a2, a3, a4, a5, a6).into(),
        _ => return None,
    })
}

fn of_coset_u32(line: &Line<'_>) -> Option<Answer> {
    let mut arguments = line.arguments();
    let (a0, a1, a2, a3, a4, a5, a6) = arguments.take_coset()?;
    let [a7] = arguments.take::<u32, 1>()?;
    arguments.end()?;
    Some(match line.name {
        "coset_repeated_double" => {
            calls::tari_coset_repeated_double(a0, a1, a2, a3, a4, a5, a6, a7).into()
        }
        _ => return None,
    })
}

fn of_coset_u64(line: &Line<'_>) -> Option<Answer> {
    let mut arguments = line.arguments();
    let (a0, a1, a2, a3, a4, a5, a6) = arguments.take_coset()?;
    let [a7] = arguments.take::<u64, 1>()?;
    arguments.end()?;
    Some(match line.name {
        "coset_index_at" => calls::tari_coset_index_at(a0, a1, a2, a3, a4, a5, a6, a7).into(),
        "coset_at" => calls::tari_coset_at(a0, a1, a2, a3, a4, a5, a6, a7).into(),
        "coset_shift" => calls::tari_coset_shift(a0, a1, a2, a3, a4, a5, a6, a7).into(),
        _ => return None,
    })
}

fn of_coset_coset(line: &Line<'_>) -> Option<Answer> {
    let mut arguments = line.arguments();
    let (a0, a1, a2, a3, a4, a5, a6) = arguments.take_coset()?;
    let (a7, a8, a9, a10, a11, a12, a13) = arguments.take_coset()?;
    arguments.end()?;
    Some(match line.name {
        "coset_is_doubling_of" => calls::tari_coset_is_doubling_of(
            a0, a1, a2, a3, a4, a5, a6, a7, a8, a9, a10, a11, a12, a13,
        ).into(),
        _ => return None,
    })
}

pub fn answer_of(line: &Line<'_>) -> Option<Answer> {
    of_u32(line)
        .or_else(|| of_u64_u32(line))
        .or_else(|| of_3_u64(line))
        .or_else(|| of_coset(line))
        .or_else(|| of_coset_u32(line))
        .or_else(|| of_coset_u64(line))
        .or_else(|| of_coset_coset(line))
}
