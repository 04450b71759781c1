// Circle domains, each as its half coset, and the iterator over their indices (domains::domain, domains::iterator).
ghost use Rattle.std.specs.Prelude.{◌≡◌, length};
ghost use Rattle.circle.specs.Index.{of_index};
ghost use Rattle.domains.specs.Domain.{new_answer, iter_indices_answer, size_answer, log_size_answer, at_answer};
ghost use Rattle.domains.specs.Domain.{index_at_answer, is_canonic_answer, split_answer, split_exit, shift_answer};
ghost use Rattle.domains.specs.Iterator.{domain_next_answer};
ghost use Rattle.taripomune.specs.Reply.{bool_reply, u32_reply, u64_reply, point_reply, index_reply};
ghost use Rattle.taripomune.specs.CosetReply.{of_numbers, domain_of_numbers, index_iterator_of_numbers};
ghost use Rattle.taripomune.specs.CosetReply.{circle_domain_reply, index_iterator_reply, circle_domain_step_reply};

use crate::coset_reply::{CircleDomainIndexIteratorReply, CircleDomainStepReply, CosetReply};
use crate::records::{circle_domain, coset, index_iterator};
use crate::reply::{BoolReply, IndexReply, PointReply, U32Reply, U64Reply};
use circle::index::CirclePointIndex;
use domains::domain::CircleDomain;

pub fn tari_circle_domain_new(
    initial_index: u64,
    initial_x: u32,
    initial_y: u32,
    step_index: u64,
    step_x: u32,
    step_y: u32,
    log_size: u32,
) -> CosetReply
    ensures { result ≡ circle_domain_reply
        (new_answer (of_numbers initial_index initial_x initial_y step_index step_x step_y log_size)) }
{
    let half_coset = coset(
        initial_index,
        initial_x,
        initial_y,
        step_index,
        step_x,
        step_y,
        log_size,
    );
    CircleDomain::new(half_coset).into()
}

pub fn tari_circle_domain_iter_indices(
    initial_index: u64,
    initial_x: u32,
    initial_y: u32,
    step_index: u64,
    step_x: u32,
    step_y: u32,
    log_size: u32,
) -> CircleDomainIndexIteratorReply
    ensures { result ≡ index_iterator_reply (iter_indices_answer
        (domain_of_numbers initial_index initial_x initial_y step_index step_x step_y log_size)) }
{
    let d = circle_domain(
        initial_index,
        initial_x,
        initial_y,
        step_index,
        step_x,
        step_y,
        log_size,
    );
    d.iter_indices().into()
}

pub fn tari_circle_domain_size(
    initial_index: u64,
    initial_x: u32,
    initial_y: u32,
    step_index: u64,
    step_x: u32,
    step_y: u32,
    log_size: u32,
) -> U64Reply
    ensures { result ≡ u64_reply
        (size_answer (domain_of_numbers initial_index initial_x initial_y step_index step_x step_y log_size)) }
{
    let d = circle_domain(
        initial_index,
        initial_x,
        initial_y,
        step_index,
        step_x,
        step_y,
        log_size,
    );
    d.size().into()
}

pub fn tari_circle_domain_log_size(
    initial_index: u64,
    initial_x: u32,
    initial_y: u32,
    step_index: u64,
    step_x: u32,
    step_y: u32,
    log_size: u32,
) -> U32Reply
    ensures { result ≡ u32_reply (log_size_answer
        (domain_of_numbers initial_index initial_x initial_y step_index step_x step_y log_size)) }
{
    let d = circle_domain(
        initial_index,
        initial_x,
        initial_y,
        step_index,
        step_x,
        step_y,
        log_size,
    );
    d.log_size().into()
}

pub fn tari_circle_domain_at(
    initial_index: u64,
    initial_x: u32,
    initial_y: u32,
    step_index: u64,
    step_x: u32,
    step_y: u32,
    log_size: u32,
    i: u64,
) -> PointReply
    ensures { result ≡ point_reply
        (at_answer (domain_of_numbers initial_index initial_x initial_y step_index step_x step_y log_size) i) }
{
    let d = circle_domain(
        initial_index,
        initial_x,
        initial_y,
        step_index,
        step_x,
        step_y,
        log_size,
    );
    d.at(i).into()
}

pub fn tari_circle_domain_index_at(
    initial_index: u64,
    initial_x: u32,
    initial_y: u32,
    step_index: u64,
    step_x: u32,
    step_y: u32,
    log_size: u32,
    i: u64,
) -> IndexReply
    ensures { result ≡ index_reply (index_at_answer
        (domain_of_numbers initial_index initial_x initial_y step_index step_x step_y log_size) i) }
{
    let d = circle_domain(
        initial_index,
        initial_x,
        initial_y,
        step_index,
        step_x,
        step_y,
        log_size,
    );
    d.index_at(i).into()
}

pub fn tari_circle_domain_is_canonic(
    initial_index: u64,
    initial_x: u32,
    initial_y: u32,
    step_index: u64,
    step_x: u32,
    step_y: u32,
    log_size: u32,
) -> BoolReply
    ensures { result ≡ bool_reply (is_canonic_answer
        (domain_of_numbers initial_index initial_x initial_y step_index step_x step_y log_size)) }
{
    let d = circle_domain(
        initial_index,
        initial_x,
        initial_y,
        step_index,
        step_x,
        step_y,
        log_size,
    );
    d.is_canonic().into()
}

pub fn tari_circle_domain_split(
    initial_index: u64,
    initial_x: u32,
    initial_y: u32,
    step_index: u64,
    step_x: u32,
    step_y: u32,
    log_size: u32,
    log_parts: u32,
    shifts: &mut [u32],
) -> CosetReply
    ensures { (result ≡ circle_domain_reply (split_answer
        (domain_of_numbers initial_index initial_x initial_y step_index step_x step_y log_size) log_parts
        (length shifts.old)))
        × (shifts.new ≡ split_exit (split_answer
        (domain_of_numbers initial_index initial_x initial_y step_index step_x step_y log_size) log_parts
        (length shifts.old))
        (domain_of_numbers initial_index initial_x initial_y step_index step_x step_y log_size) log_parts
        shifts.old) }
{
    let d = circle_domain(
        initial_index,
        initial_x,
        initial_y,
        step_index,
        step_x,
        step_y,
        log_size,
    );
    d.split(log_parts, shifts).into()
}

pub fn tari_circle_domain_shift(
    initial_index: u64,
    initial_x: u32,
    initial_y: u32,
    step_index: u64,
    step_x: u32,
    step_y: u32,
    log_size: u32,
    shift: u64,
) -> CosetReply
    ensures { result ≡ circle_domain_reply (shift_answer
        (domain_of_numbers initial_index initial_x initial_y step_index step_x step_y log_size)
        (of_index shift)) }
{
    let d = circle_domain(
        initial_index,
        initial_x,
        initial_y,
        step_index,
        step_x,
        step_y,
        log_size,
    );
    d.shift(CirclePointIndex(shift)).into()
}

pub fn tari_circle_domain_index_iterator_next(
    first_cur: u64,
    first_step: u64,
    first_remaining: u64,
    second_cur: u64,
    second_step: u64,
    second_remaining: u64,
) -> CircleDomainStepReply
    ensures { result ≡ circle_domain_step_reply (domain_next_answer
        (index_iterator_of_numbers first_cur first_step first_remaining second_cur second_step second_remaining)) }
{
    let it = index_iterator(
        first_cur,
        first_step,
        first_remaining,
        second_cur,
        second_step,
        second_remaining,
    );
    it.next().into()
}
