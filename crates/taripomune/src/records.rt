// What the numbers that a call takes stand for. The C interface gives them apart: a number of 128 bits as two, an element as
// its words, a point as the words of its coordinates, a coset as seven, an iterator as three or six.
ghost use Rattle.std.specs.Prelude.{◌≡◌, ◌+◌, ◌*◌, ◌^◌};
ghost use Rattle.fields.specs.CM31.{of_pair};
ghost use Rattle.fields.specs.QM31.{of_pairs};
ghost use Rattle.circle.specs.Point.{of_point};
ghost use Rattle.circle.specs.SecurePoint as S;
ghost use Rattle.taripomune.specs.CosetReply.{of_numbers, canonic_of_numbers, domain_of_numbers, iterator_of_numbers};
ghost use Rattle.taripomune.specs.CosetReply.{index_iterator_of_numbers};

use circle::index::CirclePointIndex;
use circle::point::CirclePoint;
use circle::secure_point::SecureCirclePoint;
use domains::canonic::CanonicCoset;
use domains::coset::Coset;
use domains::domain::CircleDomain;
use domains::iterator::{CircleDomainIndexIterator, CosetIterator};
use fields::cm31::CM31;
use fields::m31::M31;
use fields::qm31::QM31;

pub(crate) fn u128_of(high: u64, low: u64) -> u128
    ensures { result ≡ high * 2 ^ 64 + low }
{
    (high as u128) << 64 | low as u128
}

pub(crate) fn cm31(a: u32, b: u32) -> CM31
    ensures { result ≡ of_pair (a, b) }
{
    CM31(M31(a), M31(b))
}

pub(crate) fn qm31(a: u32, b: u32, c: u32, d: u32) -> QM31
    ensures { result ≡ of_pairs ((a, b), (c, d)) }
{
    QM31(cm31(a, b), cm31(c, d))
}

pub(crate) fn point(x: u32, y: u32) -> CirclePoint<M31>
    ensures { result ≡ of_point (x, y) }
{
    CirclePoint {
        x: M31(x),
        y: M31(y),
    }
}

pub(crate) fn secure_point(
    x0: u32,
    x1: u32,
    x2: u32,
    x3: u32,
    y0: u32,
    y1: u32,
    y2: u32,
    y3: u32,
) -> SecureCirclePoint
    ensures { result ≡ S.of_point (((x0, x1), (x2, x3)), ((y0, y1), (y2, y3))) }
{
    CirclePoint {
        x: qm31(x0, x1, x2, x3),
        y: qm31(y0, y1, y2, y3),
    }
}

pub fn coset(
    initial_index: u64,
    initial_x: u32,
    initial_y: u32,
    step_index: u64,
    step_x: u32,
    step_y: u32,
    log_size: u32,
) -> Coset
    ensures { result ≡ of_numbers initial_index initial_x initial_y step_index step_x step_y log_size }
{
    Coset {
        initial_index: CirclePointIndex(initial_index),
        initial: point(initial_x, initial_y),
        step_size: CirclePointIndex(step_index),
        step: point(step_x, step_y),
        log_size,
    }
}

pub fn canonic_coset(
    initial_index: u64,
    initial_x: u32,
    initial_y: u32,
    step_index: u64,
    step_x: u32,
    step_y: u32,
    log_size: u32,
) -> CanonicCoset
    ensures { result ≡ canonic_of_numbers initial_index initial_x initial_y step_index step_x step_y log_size }
{
    let coset = coset(
        initial_index,
        initial_x,
        initial_y,
        step_index,
        step_x,
        step_y,
        log_size,
    );
    CanonicCoset { coset }
}

pub fn circle_domain(
    initial_index: u64,
    initial_x: u32,
    initial_y: u32,
    step_index: u64,
    step_x: u32,
    step_y: u32,
    log_size: u32,
) -> CircleDomain
    ensures { result ≡ domain_of_numbers initial_index initial_x initial_y step_index step_x step_y log_size }
{
    let half_coset = coset(
        initial_index,
        initial_x,
        initial_y,
        step_index,
        step_x,
        step_y,
        log_size,
    );
    CircleDomain { half_coset }
}

pub fn coset_iterator(cur: u64, step: u64, remaining: u64) -> CosetIterator
    ensures { result ≡ iterator_of_numbers cur step remaining }
{
    CosetIterator {
        cur: CirclePointIndex(cur),
        step: CirclePointIndex(step),
        remaining,
    }
}

pub fn index_iterator(
    first_cur: u64,
    first_step: u64,
    first_remaining: u64,
    second_cur: u64,
    second_step: u64,
    second_remaining: u64,
) -> CircleDomainIndexIterator
    ensures { result ≡ index_iterator_of_numbers first_cur first_step first_remaining second_cur second_step second_remaining }
{
    let first = coset_iterator(first_cur, first_step, first_remaining);
    let second = coset_iterator(second_cur, second_step, second_remaining);
    CircleDomainIndexIterator { first, second }
}
