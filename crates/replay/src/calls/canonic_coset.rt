// Written by host/replay-calls from include/taripomune.h.
use crate::answer::Answer;
use crate::line::Line;
use taripomune::canonic_coset as calls;

fn of_u32(line: &Line<'_>) -> Option<Answer> {
    let mut arguments = line.arguments();
    let [a0] = arguments.take::<u32, 1>()?;
    arguments.end()?;
    Some(match line.name {
        "canonic_coset_try_new" => calls::tari_canonic_coset_try_new(a0).into(),
        "canonic_coset_new" => calls::tari_canonic_coset_new(a0).into(),
        _ => return None,
    })
}

fn of_coset(line: &Line<'_>) -> Option<Answer> {
    let mut arguments = line.arguments();
    let (a0, a1, a2, a3, a4, a5, a6) = arguments.take_coset()?;
    arguments.end()?;
    Some(match line.name {
        "canonic_coset_coset" => calls::tari_canonic_coset_coset(a0, a1, a2, a3, a4, a5, a6).into(),
        "canonic_coset_half_coset" => {
            calls::tari_canonic_coset_half_coset(a0, a1, a2, a3, a4, a5, a6).into()
        }
        "canonic_coset_circle_domain" => {
            calls::tari_canonic_coset_circle_domain(a0, a1, a2, a3, a4, a5, a6).into()
        }
        "canonic_coset_log_size" => {
            calls::tari_canonic_coset_log_size(a0, a1, a2, a3, a4, a5, a6).into()
        }
        "canonic_coset_size" => calls::tari_canonic_coset_size(a0, a1, a2, a3, a4, a5, a6).into(),
        "canonic_coset_initial_index" => {
            calls::tari_canonic_coset_initial_index(a0, a1, a2, a3, a4, a5, a6).into()
        }
        "canonic_coset_step_size" => {
            calls::tari_canonic_coset_step_size(a0, a1, a2, a3, a4, a5, a6).into()
        }
        "canonic_coset_step" => calls::tari_canonic_coset_step(a0, a1, a2, a3, a4, a5, a6).into(),
        _ => return None,
    })
}

fn of_coset_u64(line: &Line<'_>) -> Option<Answer> {
    let mut arguments = line.arguments();
    let (a0, a1, a2, a3, a4, a5, a6) = arguments.take_coset()?;
    let [a7] = arguments.take::<u64, 1>()?;
    arguments.end()?;
    Some(match line.name {
        "canonic_coset_index_at" => {
            calls::tari_canonic_coset_index_at(a0, a1, a2, a3, a4, a5, a6, a7).into()
        }
        "canonic_coset_at" => calls::tari_canonic_coset_at(a0, a1, a2, a3, a4, a5, a6, a7).into(),
        _ => return None,
    })
}

pub fn answer_of(line: &Line<'_>) -> Option<Answer> {
    of_u32(line)
        .or_else(|| of_coset(line))
        .or_else(|| of_coset_u64(line))
}
