// Written by host/replay-calls from include/taripomune.h.
use crate::answer::Answer;
use crate::line::Line;
use taripomune::column_orders as calls;

fn of_u64_u32(line: &Line<'_>) -> Option<Answer> {
    let mut arguments = line.arguments();
    let [a0] = arguments.take::<u64, 1>()?;
    let [a1] = arguments.take::<u32, 1>()?;
    arguments.end()?;
    Some(match line.name {
        "bit_reverse_index" => calls::tari_bit_reverse_index(a0, a1).into(),
        "coset_index_to_circle_domain_index" => {
            calls::tari_coset_index_to_circle_domain_index(a0, a1).into()
        }
        _ => return None,
    })
}

fn of_u64_2_u32(line: &Line<'_>) -> Option<Answer> {
    let mut arguments = line.arguments();
    let [a0] = arguments.take::<u64, 1>()?;
    let [a1, a2] = arguments.take::<u32, 2>()?;
    arguments.end()?;
    Some(match line.name {
        "previous_bit_reversed_circle_domain_index" => {
            calls::tari_previous_bit_reversed_circle_domain_index(a0, a1, a2).into()
        }
        _ => return None,
    })
}

fn of_u64_2_u32_i64(line: &Line<'_>) -> Option<Answer> {
    let mut arguments = line.arguments();
    let [a0] = arguments.take::<u64, 1>()?;
    let [a1, a2] = arguments.take::<u32, 2>()?;
    let [a3] = arguments.take::<i64, 1>()?;
    arguments.end()?;
    Some(match line.name {
        "offset_bit_reversed_circle_domain_index" => {
            calls::tari_offset_bit_reversed_circle_domain_index(a0, a1, a2, a3).into()
        }
        _ => return None,
    })
}

pub fn answer_of(line: &Line<'_>) -> Option<Answer> {
    of_u64_u32(line)
        .or_else(|| of_u64_2_u32(line))
        .or_else(|| of_u64_2_u32_i64(line))
}
