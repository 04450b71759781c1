// Written by host/replay-calls from include/taripomune.h.
use crate::answer::Answer;
use crate::line::Line;
use taripomune::circle_domain as calls;

fn of_6_u64(line: &Line<'_>) -> Option<Answer> {
    let mut arguments = line.arguments();
    let [a0, a1, a2, a3, a4, a5] = arguments.take::<u64, 6>()?;
    arguments.end()?;
    Some(match line.name {
        "circle_domain_index_iterator_next" => {
            calls::tari_circle_domain_index_iterator_next(a0, a1, a2, a3, a4, a5).into()
        }
        _ => return None,
    })
}

fn of_coset(line: &Line<'_>) -> Option<Answer> {
    let mut arguments = line.arguments();
    let (a0, a1, a2, a3, a4, a5, a6) = arguments.take_coset()?;
    arguments.end()?;
    Some(match line.name {
        "circle_domain_new" => calls::tari_circle_domain_new(a0, a1, a2, a3, a4, a5, a6).into(),
        "circle_domain_iter_indices" => {
            calls::tari_circle_domain_iter_indices(a0, a1, a2, a3, a4, a5, a6).into()
        }
        "circle_domain_size" => calls::tari_circle_domain_size(a0, a1, a2, a3, a4, a5, a6).into(),
        "circle_domain_log_size" => {
            calls::tari_circle_domain_log_size(a0, a1, a2, a3, a4, a5, a6).into()
        }
        "circle_domain_is_canonic" => {
            calls::tari_circle_domain_is_canonic(a0, a1, a2, a3, a4, a5, a6).into()
        }
        _ => return None,
    })
}

fn of_coset_u64(line: &Line<'_>) -> Option<Answer> {
    let mut arguments = line.arguments();
    let (a0, a1, a2, a3, a4, a5, a6) = arguments.take_coset()?;
    let [a7] = arguments.take::<u64, 1>()?;
    arguments.end()?;
    Some(match line.name {
        "circle_domain_at" => calls::tari_circle_domain_at(a0, a1, a2, a3, a4, a5, a6, a7).into(),
        "circle_domain_index_at" => {
            calls::tari_circle_domain_index_at(a0, a1, a2, a3, a4, a5, a6, a7).into()
        }
        "circle_domain_shift" => {
            calls::tari_circle_domain_shift(a0, a1, a2, a3, a4, a5, a6, a7).into()
        }
        _ => return None,
    })
}

pub fn answer_of(line: &Line<'_>) -> Option<Answer> {
    of_6_u64(line)
        .or_else(|| of_coset(line))
        .or_else(|| of_coset_u64(line))
}
