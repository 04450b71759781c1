// Written by host/replay-calls from include/taripomune.h.
use crate::answer::Answer;
use crate::arguments::Arguments;
use crate::slices::{Access, Parameters};
use taripomune::{batch_inverse, circle_domain, circle_transform, column_orders};

pub fn parameters_of(name: &str) -> Option<Parameters> {
    Some(match name {
        "m31_batch_inverse_in_place"
        | "cm31_batch_inverse_in_place"
        | "qm31_batch_inverse_in_place"
        | "coset_order_to_circle_domain_order"
        | "circle_domain_order_to_coset_order" => Parameters {
            before: 0,
            first: Access::Reads,
            second: Some(Access::Writes),
            after: 0,
        },
        "m31_batch_inverse_chunked" | "cm31_batch_inverse_chunked" | "qm31_batch_inverse_chunked" =>
            Parameters {
                before: 0,
                first: Access::Reads,
                second: Some(Access::Writes),
                after: 1,
            },
        "bit_reverse" | "bit_reverse_coset_to_circle_domain_order" => Parameters {
            before: 0,
            first: Access::Writes,
            second: None,
            after: 0,
        },
        "circle_domain_split" => Parameters {
            before: 8,
            first: Access::Writes,
            second: None,
            after: 0,
        },
        "evaluate" | "interpolate" => Parameters {
            before: 1,
            first: Access::Writes,
            second: Some(Access::Scratch),
            after: 0,
        },
        _ => return None,
    })
}

fn of_slices(name: &str, first: &mut [u32], second: &mut [u32]) -> Option<Answer> {
    Some(match name {
        "m31_batch_inverse_in_place" => {
            batch_inverse::tari_m31_batch_inverse_in_place(first, second).into()
        }
        "cm31_batch_inverse_in_place" => {
            batch_inverse::tari_cm31_batch_inverse_in_place(first, second).into()
        }
        "qm31_batch_inverse_in_place" => {
            batch_inverse::tari_qm31_batch_inverse_in_place(first, second).into()
        }
        "bit_reverse" => column_orders::tari_bit_reverse(first).into(),
        "bit_reverse_coset_to_circle_domain_order" => {
            column_orders::tari_bit_reverse_coset_to_circle_domain_order(first).into()
        }
        "coset_order_to_circle_domain_order" => {
            column_orders::tari_coset_order_to_circle_domain_order(first, second).into()
        }
        "circle_domain_order_to_coset_order" => {
            column_orders::tari_circle_domain_order_to_coset_order(first, second).into()
        }
        _ => return None,
    })
}

fn of_slices_u64(
    name: &str,
    first: &mut [u32],
    second: &mut [u32],
    after: &[i128],
) -> Option<Answer> {
    let mut after = Arguments::new(after);
    let [a0] = after.take::<u64, 1>()?;
    after.end()?;
    Some(match name {
        "m31_batch_inverse_chunked" => {
            batch_inverse::tari_m31_batch_inverse_chunked(first, second, a0).into()
        }
        "cm31_batch_inverse_chunked" => {
            batch_inverse::tari_cm31_batch_inverse_chunked(first, second, a0).into()
        }
        "qm31_batch_inverse_chunked" => {
            batch_inverse::tari_qm31_batch_inverse_chunked(first, second, a0).into()
        }
        _ => return None,
    })
}

fn of_coset_u32_slices(name: &str, before: &[i128], first: &mut [u32]) -> Option<Answer> {
    let mut before = Arguments::new(before);
    let (a0, a1, a2, a3, a4, a5, a6) = before.take_coset()?;
    let [a7] = before.take::<u32, 1>()?;
    before.end()?;
    Some(match name {
        "circle_domain_split" => {
            circle_domain::tari_circle_domain_split(a0, a1, a2, a3, a4, a5, a6, a7, first).into()
        }
        _ => return None,
    })
}

fn of_u32_slices(
    name: &str,
    before: &[i128],
    first: &mut [u32],
    second: &mut [u32],
) -> Option<Answer> {
    let mut before = Arguments::new(before);
    let [a0] = before.take::<u32, 1>()?;
    before.end()?;
    Some(match name {
        "evaluate" => circle_transform::tari_evaluate(a0, first, second).into(),
        "interpolate" => circle_transform::tari_interpolate(a0, first, second).into(),
        _ => return None,
    })
}

pub fn answer_of(
    name: &str,
    before: &[i128],
    first: &mut [u32],
    second: &mut [u32],
    after: &[i128],
) -> Option<Answer> {
    if let Some(answer) = of_slices(name, first, second) {
        return Some(answer);
    }
    if let Some(answer) = of_slices_u64(name, first, second, after) {
        return Some(answer);
    }
    if let Some(answer) = of_coset_u32_slices(name, before, first) {
        return Some(answer);
    }
    of_u32_slices(name, before, first, second)
}
