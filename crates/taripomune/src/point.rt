// Points over M31, x and y (circle::point).
ghost use Rattle.std.specs.Prelude.{◌≡◌, ◌+◌, ◌*◌, ◌^◌, Ok};
ghost use Rattle.algebra.specs.Circle.{zero_point};
ghost use Rattle.fields.specs.Words.{words31};
ghost use Rattle.fields.specs.M31.{of_word};
ghost use Rattle.circle.specs.Point.{of_point, add_answer, sub_answer, double_answer, double_x_answer, mul_answer};
ghost use Rattle.circle.specs.Point.{mul_signed_answer, repeated_double_answer, conjugate_answer, antipode_answer};
ghost use Rattle.circle.specs.Point.{complex_conjugate_answer, log_order_answer};
ghost use Rattle.circle.specs.SecurePoint.{into_ef_answer};
ghost use Rattle.taripomune.specs.Reply.{m31_reply, u32_reply, point_reply, secure_point_reply};

use crate::records::{point, u128_of};
use crate::reply::{M31Reply, PointReply, SecurePointReply, U32Reply};
use circle::point::CirclePoint;
use fields::m31::M31;

pub fn tari_point_zero() -> PointReply
    ensures { result ≡ point_reply (Ok (of_point (zero_point words31))) }
{
    Ok(CirclePoint::zero()).into()
}

pub fn tari_point_add(ax: u32, ay: u32, bx: u32, by: u32) -> PointReply
    ensures { result ≡ point_reply (add_answer (of_point (ax, ay)) (of_point (bx, by))) }
{
    point(ax, ay).add(point(bx, by)).into()
}

pub fn tari_point_sub(ax: u32, ay: u32, bx: u32, by: u32) -> PointReply
    ensures { result ≡ point_reply (sub_answer (of_point (ax, ay)) (of_point (bx, by))) }
{
    point(ax, ay).sub(point(bx, by)).into()
}

pub fn tari_point_neg(x: u32, y: u32) -> PointReply
    ensures { result ≡ point_reply (conjugate_answer (of_point (x, y))) }
{
    point(x, y).neg().into()
}

pub fn tari_point_double(x: u32, y: u32) -> PointReply
    ensures { result ≡ point_reply (double_answer (of_point (x, y))) }
{
    point(x, y).double().into()
}

pub fn tari_point_double_x(x: u32) -> M31Reply
    ensures { result ≡ m31_reply (double_x_answer (of_word x)) }
{
    CirclePoint::double_x(M31(x)).into()
}

pub fn tari_point_mul(x: u32, y: u32, scalar_high: u64, scalar_low: u64) -> PointReply
    ensures { result ≡ point_reply (mul_answer (of_point (x, y)) (scalar_high * 2 ^ 64 + scalar_low)) }
{
    point(x, y).mul(u128_of(scalar_high, scalar_low)).into()
}

pub fn tari_point_mul_signed(x: u32, y: u32, off: i64) -> PointReply
    ensures { result ≡ point_reply (mul_signed_answer (of_point (x, y)) off) }
{
    point(x, y).mul_signed(off).into()
}

pub fn tari_point_repeated_double(x: u32, y: u32, n: u32) -> PointReply
    ensures { result ≡ point_reply (repeated_double_answer (of_point (x, y)) n) }
{
    point(x, y).repeated_double(n).into()
}

pub fn tari_point_conjugate(x: u32, y: u32) -> PointReply
    ensures { result ≡ point_reply (conjugate_answer (of_point (x, y))) }
{
    point(x, y).conjugate().into()
}

pub fn tari_point_antipode(x: u32, y: u32) -> PointReply
    ensures { result ≡ point_reply (antipode_answer (of_point (x, y))) }
{
    point(x, y).antipode().into()
}

pub fn tari_point_complex_conjugate(x: u32, y: u32) -> PointReply
    ensures { result ≡ point_reply (complex_conjugate_answer (of_point (x, y))) }
{
    point(x, y).complex_conjugate().into()
}

pub fn tari_point_into_ef(x: u32, y: u32) -> SecurePointReply
    ensures { result ≡ secure_point_reply (into_ef_answer (of_point (x, y))) }
{
    point(x, y).into_ef().into()
}

pub fn tari_point_log_order(x: u32, y: u32) -> U32Reply
    ensures { result ≡ u32_reply (log_order_answer (of_point (x, y))) }
{
    point(x, y).log_order().into()
}
