// Cosets and the iterator over their indices (domains::coset, domains::iterator).
ghost use Rattle.std.specs.Prelude.{◌≡◌};
ghost use Rattle.circle.specs.Index.{of_index};
ghost use Rattle.domains.specs.Coset.{new_answer, subgroup_answer, odds_answer, half_odds_answer, size_answer, log_size_answer};
ghost use Rattle.domains.specs.Coset.{iter_indices_answer, double_answer, repeated_double_answer, is_doubling_of_answer};
ghost use Rattle.domains.specs.Coset.{initial_answer, index_at_answer, at_answer, shift_answer, conjugate_answer};
ghost use Rattle.domains.specs.Iterator.{next_answer};
ghost use Rattle.taripomune.specs.Reply.{bool_reply, u32_reply, u64_reply, point_reply, index_reply};
ghost use Rattle.taripomune.specs.CosetReply.{of_numbers, iterator_of_numbers, coset_reply, coset_iterator_reply, coset_step_reply};

use crate::coset_reply::{CosetIteratorReply, CosetReply, CosetStepReply};
use crate::records::{coset, coset_iterator};
use crate::reply::{BoolReply, IndexReply, PointReply, U32Reply, U64Reply};
use circle::index::CirclePointIndex;
use domains::coset::Coset;
use domains::record::CosetRecord;

pub fn tari_coset_new(initial_index: u64, log_size: u32) -> CosetReply
    ensures { result ≡ coset_reply (new_answer (of_index initial_index) log_size) }
{
    Coset::new(CirclePointIndex(initial_index), log_size).into()
}

pub fn tari_coset_subgroup(log_size: u32) -> CosetReply
    ensures { result ≡ coset_reply (subgroup_answer log_size) }
{
    Coset::subgroup(log_size).into()
}

pub fn tari_coset_odds(log_size: u32) -> CosetReply
    ensures { result ≡ coset_reply (odds_answer log_size) }
{
    Coset::odds(log_size).into()
}

pub fn tari_coset_half_odds(log_size: u32) -> CosetReply
    ensures { result ≡ coset_reply (half_odds_answer log_size) }
{
    Coset::half_odds(log_size).into()
}

pub fn tari_coset_size(
    initial_index: u64,
    initial_x: u32,
    initial_y: u32,
    step_index: u64,
    step_x: u32,
    step_y: u32,
    log_size: u32,
) -> U64Reply
    ensures { result ≡ u64_reply
        (size_answer (of_numbers initial_index initial_x initial_y step_index step_x step_y log_size)) }
{
    let c = coset(
        initial_index,
        initial_x,
        initial_y,
        step_index,
        step_x,
        step_y,
        log_size,
    );
    c.size().into()
}

pub fn tari_coset_log_size(
    initial_index: u64,
    initial_x: u32,
    initial_y: u32,
    step_index: u64,
    step_x: u32,
    step_y: u32,
    log_size: u32,
) -> U32Reply
    ensures { result ≡ u32_reply
        (log_size_answer (of_numbers initial_index initial_x initial_y step_index step_x step_y log_size)) }
{
    let c = coset(
        initial_index,
        initial_x,
        initial_y,
        step_index,
        step_x,
        step_y,
        log_size,
    );
    c.log_size().into()
}

pub fn tari_coset_iter_indices(
    initial_index: u64,
    initial_x: u32,
    initial_y: u32,
    step_index: u64,
    step_x: u32,
    step_y: u32,
    log_size: u32,
) -> CosetIteratorReply
    ensures { result ≡ coset_iterator_reply
        (iter_indices_answer (of_numbers initial_index initial_x initial_y step_index step_x step_y log_size)) }
{
    let c = coset(
        initial_index,
        initial_x,
        initial_y,
        step_index,
        step_x,
        step_y,
        log_size,
    );
    c.iter_indices().into()
}

pub fn tari_coset_double(
    initial_index: u64,
    initial_x: u32,
    initial_y: u32,
    step_index: u64,
    step_x: u32,
    step_y: u32,
    log_size: u32,
) -> CosetReply
    ensures { result ≡ coset_reply
        (double_answer (of_numbers initial_index initial_x initial_y step_index step_x step_y log_size)) }
{
    let c = coset(
        initial_index,
        initial_x,
        initial_y,
        step_index,
        step_x,
        step_y,
        log_size,
    );
    c.double().into()
}

pub fn tari_coset_repeated_double(
    initial_index: u64,
    initial_x: u32,
    initial_y: u32,
    step_index: u64,
    step_x: u32,
    step_y: u32,
    log_size: u32,
    n_doubles: u32,
) -> CosetReply
    ensures { result ≡ coset_reply (repeated_double_answer
        (of_numbers initial_index initial_x initial_y step_index step_x step_y log_size) n_doubles) }
{
    let c = coset(
        initial_index,
        initial_x,
        initial_y,
        step_index,
        step_x,
        step_y,
        log_size,
    );
    c.repeated_double(n_doubles).into()
}

pub fn tari_coset_is_doubling_of(
    initial_index: u64,
    initial_x: u32,
    initial_y: u32,
    step_index: u64,
    step_x: u32,
    step_y: u32,
    log_size: u32,
    other_initial_index: u64,
    other_initial_x: u32,
    other_initial_y: u32,
    other_step_index: u64,
    other_step_x: u32,
    other_step_y: u32,
    other_log_size: u32,
) -> BoolReply
    ensures { result ≡ bool_reply (is_doubling_of_answer
        (of_numbers initial_index initial_x initial_y step_index step_x step_y log_size) (of_numbers
        other_initial_index other_initial_x other_initial_y other_step_index other_step_x other_step_y
        other_log_size)) }
{
    let c = coset(
        initial_index,
        initial_x,
        initial_y,
        step_index,
        step_x,
        step_y,
        log_size,
    );
    let other = coset(
        other_initial_index,
        other_initial_x,
        other_initial_y,
        other_step_index,
        other_step_x,
        other_step_y,
        other_log_size,
    );
    c.is_doubling_of(other).into()
}

pub fn tari_coset_initial(
    initial_index: u64,
    initial_x: u32,
    initial_y: u32,
    step_index: u64,
    step_x: u32,
    step_y: u32,
    log_size: u32,
) -> PointReply
    ensures { result ≡ point_reply
        (initial_answer (of_numbers initial_index initial_x initial_y step_index step_x step_y log_size)) }
{
    let c = coset(
        initial_index,
        initial_x,
        initial_y,
        step_index,
        step_x,
        step_y,
        log_size,
    );
    c.initial().into()
}

pub fn tari_coset_index_at(
    initial_index: u64,
    initial_x: u32,
    initial_y: u32,
    step_index: u64,
    step_x: u32,
    step_y: u32,
    log_size: u32,
    i: u64,
) -> IndexReply
    ensures { result ≡ index_reply
        (index_at_answer (of_numbers initial_index initial_x initial_y step_index step_x step_y log_size) i) }
{
    let c = coset(
        initial_index,
        initial_x,
        initial_y,
        step_index,
        step_x,
        step_y,
        log_size,
    );
    c.index_at(i).into()
}

pub fn tari_coset_at(
    initial_index: u64,
    initial_x: u32,
    initial_y: u32,
    step_index: u64,
    step_x: u32,
    step_y: u32,
    log_size: u32,
    i: u64,
) -> PointReply
    ensures { result ≡ point_reply
        (at_answer (of_numbers initial_index initial_x initial_y step_index step_x step_y log_size) i) }
{
    let c = coset(
        initial_index,
        initial_x,
        initial_y,
        step_index,
        step_x,
        step_y,
        log_size,
    );
    c.at(i).into()
}

pub fn tari_coset_shift(
    initial_index: u64,
    initial_x: u32,
    initial_y: u32,
    step_index: u64,
    step_x: u32,
    step_y: u32,
    log_size: u32,
    shift_size: u64,
) -> CosetReply
    ensures { result ≡ coset_reply (shift_answer
        (of_numbers initial_index initial_x initial_y step_index step_x step_y log_size)
        (of_index shift_size)) }
{
    let c = coset(
        initial_index,
        initial_x,
        initial_y,
        step_index,
        step_x,
        step_y,
        log_size,
    );
    c.shift(CirclePointIndex(shift_size)).into()
}

pub fn tari_coset_conjugate(
    initial_index: u64,
    initial_x: u32,
    initial_y: u32,
    step_index: u64,
    step_x: u32,
    step_y: u32,
    log_size: u32,
) -> CosetReply
    ensures { result ≡ coset_reply
        (conjugate_answer (of_numbers initial_index initial_x initial_y step_index step_x step_y log_size)) }
{
    let c = coset(
        initial_index,
        initial_x,
        initial_y,
        step_index,
        step_x,
        step_y,
        log_size,
    );
    c.conjugate().into()
}

pub fn tari_coset_iterator_next(cur: u64, step: u64, remaining: u64) -> CosetStepReply
    ensures { result ≡ coset_step_reply (next_answer (iterator_of_numbers cur step remaining)) }
{
    coset_iterator(cur, step, remaining).next().into()
}
