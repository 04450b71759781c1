// Written by host/replay-calls from include/taripomune.h.
mod canonic_coset;
mod circle_domain;
mod cm31;
mod column_orders;
mod coset;
mod index;
mod m31;
pub mod on_slices;
mod point;
mod qm31;
mod replies;
mod secure_point;
mod version;

use crate::answer::Answer;
use crate::line::Line;

/// The answer to a call that takes numbers alone, where there is one of this name and the arguments are its. Each call is
/// an arm of a `match` on names: a table would need a wrapper for each, since they take numbers of different types.
pub fn answer_of(line: &Line<'_>) -> Option<Answer> {
    canonic_coset::answer_of(line)
        .or_else(|| circle_domain::answer_of(line))
        .or_else(|| cm31::answer_of(line))
        .or_else(|| column_orders::answer_of(line))
        .or_else(|| coset::answer_of(line))
        .or_else(|| index::answer_of(line))
        .or_else(|| m31::answer_of(line))
        .or_else(|| point::answer_of(line))
        .or_else(|| qm31::answer_of(line))
        .or_else(|| secure_point::answer_of(line))
        .or_else(|| version::answer_of(line))
}
