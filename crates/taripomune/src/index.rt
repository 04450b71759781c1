// Point indices (circle::index).
ghost use Rattle.std.specs.Prelude.{◌≡◌, Ok};
ghost use Rattle.circle.specs.Index.{of_index, reduce_answer, subgroup_gen_answer, to_point_answer, half_answer, add_answer};
ghost use Rattle.circle.specs.Index.{sub_answer, neg_answer, mul_answer};
ghost use Rattle.taripomune.specs.Reply.{point_reply, index_reply};

use crate::reply::{IndexReply, PointReply};
use circle::index::CirclePointIndex;

pub fn tari_index_zero() -> IndexReply
    ensures { result ≡ index_reply (Ok (of_index 0)) }
{
    Ok(CirclePointIndex::zero()).into()
}

pub fn tari_index_generator() -> IndexReply
    ensures { result ≡ index_reply (Ok (of_index 1)) }
{
    Ok(CirclePointIndex::generator()).into()
}

pub fn tari_index_reduce(index: u64) -> IndexReply
    ensures { result ≡ index_reply (reduce_answer (of_index index)) }
{
    CirclePointIndex(index).reduce().into()
}

pub fn tari_index_subgroup_gen(log_size: u32) -> IndexReply
    ensures { result ≡ index_reply (subgroup_gen_answer log_size) }
{
    CirclePointIndex::subgroup_gen(log_size).into()
}

pub fn tari_index_to_point(index: u64) -> PointReply
    ensures { result ≡ point_reply (to_point_answer (of_index index)) }
{
    CirclePointIndex(index).to_point().into()
}

pub fn tari_index_half(index: u64) -> IndexReply
    ensures { result ≡ index_reply (half_answer (of_index index)) }
{
    CirclePointIndex(index).half().into()
}

pub fn tari_index_add(a: u64, b: u64) -> IndexReply
    ensures { result ≡ index_reply (add_answer (of_index a) (of_index b)) }
{
    CirclePointIndex(a).add(CirclePointIndex(b)).into()
}

pub fn tari_index_sub(a: u64, b: u64) -> IndexReply
    ensures { result ≡ index_reply (sub_answer (of_index a) (of_index b)) }
{
    CirclePointIndex(a).sub(CirclePointIndex(b)).into()
}

pub fn tari_index_neg(index: u64) -> IndexReply
    ensures { result ≡ index_reply (neg_answer (of_index index)) }
{
    CirclePointIndex(index).neg().into()
}

pub fn tari_index_mul(index: u64, count: u64) -> IndexReply
    ensures { result ≡ index_reply (mul_answer (of_index index) count) }
{
    CirclePointIndex(index).mul(count).into()
}
