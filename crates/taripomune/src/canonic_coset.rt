// Canonic cosets (domains::canonic).
ghost use Rattle.std.specs.Prelude.{◌≡◌};
ghost use Rattle.domains.specs.Canonic.{try_new_answer, coset_answer, half_coset_answer, circle_domain_answer, log_size_answer};
ghost use Rattle.domains.specs.Canonic.{size_answer, initial_index_answer, step_size_answer, step_answer, index_at_answer};
ghost use Rattle.domains.specs.Canonic.{at_answer};
ghost use Rattle.taripomune.specs.Reply.{u32_reply, u64_reply, point_reply, index_reply};
ghost use Rattle.taripomune.specs.CosetReply.{canonic_of_numbers, coset_reply, canonic_coset_reply, circle_domain_reply};

use crate::coset_reply::CosetReply;
use crate::records::canonic_coset;
use crate::reply::{IndexReply, PointReply, U32Reply, U64Reply};
use domains::canonic::CanonicCoset;
use domains::record::CosetRecord;

pub fn tari_canonic_coset_try_new(log_size: u32) -> CosetReply
    ensures { result ≡ canonic_coset_reply (try_new_answer log_size) }
{
    CanonicCoset::try_new(log_size).into()
}

pub fn tari_canonic_coset_new(log_size: u32) -> CosetReply
    ensures { result ≡ canonic_coset_reply (try_new_answer log_size) }
{
    CanonicCoset::new(log_size).into()
}

pub fn tari_canonic_coset_coset(
    initial_index: u64,
    initial_x: u32,
    initial_y: u32,
    step_index: u64,
    step_x: u32,
    step_y: u32,
    log_size: u32,
) -> CosetReply
    ensures { result ≡ coset_reply
        (coset_answer (canonic_of_numbers initial_index initial_x initial_y step_index step_x step_y log_size)) }
{
    let c = canonic_coset(
        initial_index,
        initial_x,
        initial_y,
        step_index,
        step_x,
        step_y,
        log_size,
    );
    c.coset().into()
}

pub fn tari_canonic_coset_half_coset(
    initial_index: u64,
    initial_x: u32,
    initial_y: u32,
    step_index: u64,
    step_x: u32,
    step_y: u32,
    log_size: u32,
) -> CosetReply
    ensures { result ≡ coset_reply (half_coset_answer
        (canonic_of_numbers initial_index initial_x initial_y step_index step_x step_y log_size)) }
{
    let c = canonic_coset(
        initial_index,
        initial_x,
        initial_y,
        step_index,
        step_x,
        step_y,
        log_size,
    );
    c.half_coset().into()
}

pub fn tari_canonic_coset_circle_domain(
    initial_index: u64,
    initial_x: u32,
    initial_y: u32,
    step_index: u64,
    step_x: u32,
    step_y: u32,
    log_size: u32,
) -> CosetReply
    ensures { result ≡ circle_domain_reply (circle_domain_answer
        (canonic_of_numbers initial_index initial_x initial_y step_index step_x step_y log_size)) }
{
    let c = canonic_coset(
        initial_index,
        initial_x,
        initial_y,
        step_index,
        step_x,
        step_y,
        log_size,
    );
    c.circle_domain().into()
}

pub fn tari_canonic_coset_log_size(
    initial_index: u64,
    initial_x: u32,
    initial_y: u32,
    step_index: u64,
    step_x: u32,
    step_y: u32,
    log_size: u32,
) -> U32Reply
    ensures { result ≡ u32_reply (log_size_answer
        (canonic_of_numbers initial_index initial_x initial_y step_index step_x step_y log_size)) }
{
    let c = canonic_coset(
        initial_index,
        initial_x,
        initial_y,
        step_index,
        step_x,
        step_y,
        log_size,
    );
    c.log_size().into()
}

pub fn tari_canonic_coset_size(
    initial_index: u64,
    initial_x: u32,
    initial_y: u32,
    step_index: u64,
    step_x: u32,
    step_y: u32,
    log_size: u32,
) -> U64Reply
    ensures { result ≡ u64_reply
        (size_answer (canonic_of_numbers initial_index initial_x initial_y step_index step_x step_y log_size)) }
{
    let c = canonic_coset(
        initial_index,
        initial_x,
        initial_y,
        step_index,
        step_x,
        step_y,
        log_size,
    );
    c.size().into()
}

pub fn tari_canonic_coset_initial_index(
    initial_index: u64,
    initial_x: u32,
    initial_y: u32,
    step_index: u64,
    step_x: u32,
    step_y: u32,
    log_size: u32,
) -> IndexReply
    ensures { result ≡ index_reply (initial_index_answer
        (canonic_of_numbers initial_index initial_x initial_y step_index step_x step_y log_size)) }
{
    let c = canonic_coset(
        initial_index,
        initial_x,
        initial_y,
        step_index,
        step_x,
        step_y,
        log_size,
    );
    c.initial_index().into()
}

pub fn tari_canonic_coset_step_size(
    initial_index: u64,
    initial_x: u32,
    initial_y: u32,
    step_index: u64,
    step_x: u32,
    step_y: u32,
    log_size: u32,
) -> IndexReply
    ensures { result ≡ index_reply (step_size_answer
        (canonic_of_numbers initial_index initial_x initial_y step_index step_x step_y log_size)) }
{
    let c = canonic_coset(
        initial_index,
        initial_x,
        initial_y,
        step_index,
        step_x,
        step_y,
        log_size,
    );
    c.step_size().into()
}

pub fn tari_canonic_coset_step(
    initial_index: u64,
    initial_x: u32,
    initial_y: u32,
    step_index: u64,
    step_x: u32,
    step_y: u32,
    log_size: u32,
) -> PointReply
    ensures { result ≡ point_reply
        (step_answer (canonic_of_numbers initial_index initial_x initial_y step_index step_x step_y log_size)) }
{
    let c = canonic_coset(
        initial_index,
        initial_x,
        initial_y,
        step_index,
        step_x,
        step_y,
        log_size,
    );
    c.step().into()
}

pub fn tari_canonic_coset_index_at(
    initial_index: u64,
    initial_x: u32,
    initial_y: u32,
    step_index: u64,
    step_x: u32,
    step_y: u32,
    log_size: u32,
    i: u64,
) -> IndexReply
    ensures { result ≡ index_reply (index_at_answer
        (canonic_of_numbers initial_index initial_x initial_y step_index step_x step_y log_size) i) }
{
    let c = canonic_coset(
        initial_index,
        initial_x,
        initial_y,
        step_index,
        step_x,
        step_y,
        log_size,
    );
    c.index_at(i).into()
}

pub fn tari_canonic_coset_at(
    initial_index: u64,
    initial_x: u32,
    initial_y: u32,
    step_index: u64,
    step_x: u32,
    step_y: u32,
    log_size: u32,
    i: u64,
) -> PointReply
    ensures { result ≡ point_reply
        (at_answer (canonic_of_numbers initial_index initial_x initial_y step_index step_x step_y log_size) i) }
{
    let c = canonic_coset(
        initial_index,
        initial_x,
        initial_y,
        step_index,
        step_x,
        step_y,
        log_size,
    );
    c.at(i).into()
}
