// Replies of cosets, domains and their iterators: number and position as in reply.rt, then the values (0 on a refusal).
ghost use Rattle.std.specs.Prelude.{◌≡◌};
ghost use Rattle.taripomune.specs.CosetReply.{coset_reply, canonic_coset_reply, circle_domain_reply};
ghost use Rattle.taripomune.specs.CosetReply.{coset_iterator_reply, coset_step_reply, index_iterator_reply};
ghost use Rattle.taripomune.specs.CosetReply.{circle_domain_step_reply};

use circle::index::CirclePointIndex;
use domains::canonic::CanonicCoset;
use domains::coset::Coset;
use domains::domain::CircleDomain;
use domains::iterator::{CircleDomainIndexIterator, CosetIterator};
use fields::refusal::Refusal;

// a coset, also that of a canonic coset and the half coset of a circle domain
#[repr(C)]
#[derive(Clone, Copy, Default)]
pub struct CosetReply {
    pub number: u32,
    pub position: u64,
    pub initial_index: u64,
    pub initial_x: u32,
    pub initial_y: u32,
    pub step_index: u64,
    pub step_x: u32,
    pub step_y: u32,
    pub log_size: u32,
}

impl From<Result<Coset, Refusal>> for CosetReply {
    ghost from_gives = { λ answer reply. reply ≡ coset_reply answer };

    fn from(answer: Result<Coset, Refusal>) -> Self {
        match answer {
            Ok(c) => Self {
                initial_index: c.initial_index.0,
                initial_x: c.initial.x.0,
                initial_y: c.initial.y.0,
                step_index: c.step_size.0,
                step_x: c.step.x.0,
                step_y: c.step.y.0,
                log_size: c.log_size,
                ..Self::default()
            },
            Err(why) => refused!(why),
        }
    }
}

// A canonic coset crosses as its coset.
impl From<Result<CanonicCoset, Refusal>> for CosetReply {
    ghost from_gives = { λ answer reply. reply ≡ canonic_coset_reply answer };

    fn from(answer: Result<CanonicCoset, Refusal>) -> Self {
        answer.map(|canonic| canonic.coset).into()
    }
}

// A circle domain crosses as its half coset.
impl From<Result<CircleDomain, Refusal>> for CosetReply {
    ghost from_gives = { λ answer reply. reply ≡ circle_domain_reply answer };

    fn from(answer: Result<CircleDomain, Refusal>) -> Self {
        answer.map(|domain| domain.half_coset).into()
    }
}

#[repr(C)]
#[derive(Clone, Copy, Default)]
pub struct CosetIteratorReply {
    pub number: u32,
    pub position: u64,
    pub cur: u64,
    pub step: u64,
    pub remaining: u64,
}

impl From<Result<CosetIterator, Refusal>> for CosetIteratorReply {
    ghost from_gives = { λ answer reply. reply ≡ coset_iterator_reply answer };

    fn from(answer: Result<CosetIterator, Refusal>) -> Self {
        match answer {
            Ok(it) => Self {
                cur: it.cur.0,
                step: it.step.0,
                remaining: it.remaining,
                ..Self::default()
            },
            Err(why) => refused!(why),
        }
    }
}

// done is 0 where an index is handed back, with the iterator after it; else 1, with index 0 and the iterator as it was
#[repr(C)]
#[derive(Clone, Copy, Default)]
pub struct CosetStepReply {
    pub number: u32,
    pub position: u64,
    pub done: u32,
    pub index: u64,
    pub cur: u64,
    pub step: u64,
    pub remaining: u64,
}

impl From<Result<(Option<CirclePointIndex>, CosetIterator), Refusal>> for CosetStepReply {
    ghost from_gives = { λ answer reply. reply ≡ coset_step_reply answer };

    fn from(answer: Result<(Option<CirclePointIndex>, CosetIterator), Refusal>) -> Self {
        match answer {
            Ok((index, it)) => Self {
                done: index.is_none() as u32,
                index: index.map_or(0, |index| index.0),
                cur: it.cur.0,
                step: it.step.0,
                remaining: it.remaining,
                ..Self::default()
            },
            Err(why) => refused!(why),
        }
    }
}

// the half coset's iterator, then its conjugate's
#[repr(C)]
#[derive(Clone, Copy, Default)]
pub struct CircleDomainIndexIteratorReply {
    pub number: u32,
    pub position: u64,
    pub first_cur: u64,
    pub first_step: u64,
    pub first_remaining: u64,
    pub second_cur: u64,
    pub second_step: u64,
    pub second_remaining: u64,
}

impl From<Result<CircleDomainIndexIterator, Refusal>> for CircleDomainIndexIteratorReply {
    ghost from_gives = { λ answer reply. reply ≡ index_iterator_reply answer };

    fn from(answer: Result<CircleDomainIndexIterator, Refusal>) -> Self {
        match answer {
            Ok(it) => Self {
                first_cur: it.first.cur.0,
                first_step: it.first.step.0,
                first_remaining: it.first.remaining,
                second_cur: it.second.cur.0,
                second_step: it.second.step.0,
                second_remaining: it.second.remaining,
                ..Self::default()
            },
            Err(why) => refused!(why),
        }
    }
}

// as CosetStepReply
#[repr(C)]
#[derive(Clone, Copy, Default)]
pub struct CircleDomainStepReply {
    pub number: u32,
    pub position: u64,
    pub done: u32,
    pub index: u64,
    pub first_cur: u64,
    pub first_step: u64,
    pub first_remaining: u64,
    pub second_cur: u64,
    pub second_step: u64,
    pub second_remaining: u64,
}

impl From<Result<(Option<CirclePointIndex>, CircleDomainIndexIterator), Refusal>>
    for CircleDomainStepReply {
    ghost from_gives = { λ answer reply. reply ≡ circle_domain_step_reply answer };

    fn from(
        answer: Result<(Option<CirclePointIndex>, CircleDomainIndexIterator), Refusal>,
    ) -> CircleDomainStepReply {
        match answer {
            Ok((index, it)) => CircleDomainStepReply {
                done: index.is_none() as u32,
                index: index.map_or(0, |index| index.0),
                first_cur: it.first.cur.0,
                first_step: it.first.step.0,
                first_remaining: it.first.remaining,
                second_cur: it.second.cur.0,
                second_step: it.second.step.0,
                second_remaining: it.second.remaining,
                ..CircleDomainStepReply::default()
            },
            Err(why) => refused!(why),
        }
    }
}
