// Points over QM31, the words of x and then of y (circle::secure_point).
ghost use Rattle.std.specs.Prelude.{◌≡◌, ◌+◌, ◌*◌, ◌^◌, Ok};
ghost use Rattle.algebra.specs.Circle.{zero_point};
ghost use Rattle.fields.specs.Words.{quartic_words};
ghost use Rattle.fields.specs.QM31.{of_pairs};
ghost use Rattle.circle.specs.SecurePoint.{of_point, add_answer, sub_answer, double_answer, double_x_answer, mul_answer};
ghost use Rattle.circle.specs.SecurePoint.{mul_signed_answer, repeated_double_answer, conjugate_answer, antipode_answer};
ghost use Rattle.circle.specs.SecurePoint.{complex_conjugate_answer, get_point_answer};
ghost use Rattle.taripomune.specs.Reply.{qm31_reply, secure_point_reply};

use taripomune::reply::{QM31Reply, SecurePointReply};

#[unsafe(no_mangle)]
pub extern "C" fn tari_secure_point_zero() -> SecurePointReply
    ensures { result ≡ secure_point_reply (Ok (of_point (zero_point quartic_words))) }
{
    taripomune::secure_point::tari_secure_point_zero()
}

#[unsafe(no_mangle)]
pub extern "C" fn tari_secure_point_add(
    ax0: u32,
    ax1: u32,
    ax2: u32,
    ax3: u32,
    ay0: u32,
    ay1: u32,
    ay2: u32,
    ay3: u32,
    bx0: u32,
    bx1: u32,
    bx2: u32,
    bx3: u32,
    by0: u32,
    by1: u32,
    by2: u32,
    by3: u32,
) -> SecurePointReply
    ensures { result ≡ secure_point_reply (add_answer (of_point (((ax0, ax1), (ax2, ax3)), ((ay0, ay1), (ay2, ay3))))
        (of_point (((bx0, bx1), (bx2, bx3)), ((by0, by1), (by2, by3))))) }
{
    taripomune::secure_point::tari_secure_point_add(
        ax0, ax1, ax2, ax3, ay0, ay1, ay2, ay3, bx0, bx1, bx2, bx3, by0, by1, by2, by3,
    )
}

#[unsafe(no_mangle)]
pub extern "C" fn tari_secure_point_sub(
    ax0: u32,
    ax1: u32,
    ax2: u32,
    ax3: u32,
    ay0: u32,
    ay1: u32,
    ay2: u32,
    ay3: u32,
    bx0: u32,
    bx1: u32,
    bx2: u32,
    bx3: u32,
    by0: u32,
    by1: u32,
    by2: u32,
    by3: u32,
) -> SecurePointReply
    ensures { result ≡ secure_point_reply (sub_answer (of_point (((ax0, ax1), (ax2, ax3)), ((ay0, ay1), (ay2, ay3))))
        (of_point (((bx0, bx1), (bx2, bx3)), ((by0, by1), (by2, by3))))) }
{
    taripomune::secure_point::tari_secure_point_sub(
        ax0, ax1, ax2, ax3, ay0, ay1, ay2, ay3, bx0, bx1, bx2, bx3, by0, by1, by2, by3,
    )
}

#[unsafe(no_mangle)]
pub extern "C" fn tari_secure_point_neg(
    x0: u32,
    x1: u32,
    x2: u32,
    x3: u32,
    y0: u32,
    y1: u32,
    y2: u32,
    y3: u32,
) -> SecurePointReply
    ensures { result ≡ secure_point_reply (conjugate_answer (of_point (((x0, x1), (x2, x3)), ((y0, y1), (y2, y3))))) }
{
    taripomune::secure_point::tari_secure_point_neg(x0, x1, x2, x3, y0, y1, y2, y3)
}

#[unsafe(no_mangle)]
pub extern "C" fn tari_secure_point_double(
    x0: u32,
    x1: u32,
    x2: u32,
    x3: u32,
    y0: u32,
    y1: u32,
    y2: u32,
    y3: u32,
) -> SecurePointReply
    ensures { result ≡ secure_point_reply (double_answer (of_point (((x0, x1), (x2, x3)), ((y0, y1), (y2, y3))))) }
{
    taripomune::secure_point::tari_secure_point_double(x0, x1, x2, x3, y0, y1, y2, y3)
}

#[unsafe(no_mangle)]
pub extern "C" fn tari_secure_point_double_x(x0: u32, x1: u32, x2: u32, x3: u32) -> QM31Reply
    ensures { result ≡ qm31_reply (double_x_answer (of_pairs ((x0, x1), (x2, x3)))) }
{
    taripomune::secure_point::tari_secure_point_double_x(x0, x1, x2, x3)
}

#[unsafe(no_mangle)]
pub extern "C" fn tari_secure_point_mul(
    x0: u32,
    x1: u32,
    x2: u32,
    x3: u32,
    y0: u32,
    y1: u32,
    y2: u32,
    y3: u32,
    scalar_high: u64,
    scalar_low: u64,
) -> SecurePointReply
    ensures { result ≡ secure_point_reply (mul_answer (of_point (((x0, x1), (x2, x3)), ((y0, y1), (y2, y3))))
        (scalar_high * 2 ^ 64 + scalar_low)) }
{
    taripomune::secure_point::tari_secure_point_mul(
        x0,
        x1,
        x2,
        x3,
        y0,
        y1,
        y2,
        y3,
        scalar_high,
        scalar_low,
    )
}

#[unsafe(no_mangle)]
pub extern "C" fn tari_secure_point_mul_signed(
    x0: u32,
    x1: u32,
    x2: u32,
    x3: u32,
    y0: u32,
    y1: u32,
    y2: u32,
    y3: u32,
    off: i64,
) -> SecurePointReply
    ensures { result ≡ secure_point_reply (mul_signed_answer (of_point (((x0, x1), (x2, x3)), ((y0, y1), (y2, y3)))) off) }
{
    taripomune::secure_point::tari_secure_point_mul_signed(x0, x1, x2, x3, y0, y1, y2, y3, off)
}

#[unsafe(no_mangle)]
pub extern "C" fn tari_secure_point_repeated_double(
    x0: u32,
    x1: u32,
    x2: u32,
    x3: u32,
    y0: u32,
    y1: u32,
    y2: u32,
    y3: u32,
    n: u32,
) -> SecurePointReply
    ensures { result ≡ secure_point_reply (repeated_double_answer (of_point (((x0, x1), (x2, x3)), ((y0, y1), (y2, y3)))) n) }
{
    taripomune::secure_point::tari_secure_point_repeated_double(x0, x1, x2, x3, y0, y1, y2, y3, n)
}

#[unsafe(no_mangle)]
pub extern "C" fn tari_secure_point_conjugate(
    x0: u32,
    x1: u32,
    x2: u32,
    x3: u32,
    y0: u32,
    y1: u32,
    y2: u32,
    y3: u32,
) -> SecurePointReply
    ensures { result ≡ secure_point_reply (conjugate_answer (of_point (((x0, x1), (x2, x3)), ((y0, y1), (y2, y3))))) }
{
    taripomune::secure_point::tari_secure_point_conjugate(x0, x1, x2, x3, y0, y1, y2, y3)
}

#[unsafe(no_mangle)]
pub extern "C" fn tari_secure_point_antipode(
    x0: u32,
    x1: u32,
    x2: u32,
    x3: u32,
    y0: u32,
    y1: u32,
    y2: u32,
    y3: u32,
) -> SecurePointReply
    ensures { result ≡ secure_point_reply (antipode_answer (of_point (((x0, x1), (x2, x3)), ((y0, y1), (y2, y3))))) }
{
    taripomune::secure_point::tari_secure_point_antipode(x0, x1, x2, x3, y0, y1, y2, y3)
}

#[unsafe(no_mangle)]
pub extern "C" fn tari_secure_point_complex_conjugate(
    x0: u32,
    x1: u32,
    x2: u32,
    x3: u32,
    y0: u32,
    y1: u32,
    y2: u32,
    y3: u32,
) -> SecurePointReply
    ensures { result ≡ secure_point_reply (complex_conjugate_answer (of_point (((x0, x1), (x2, x3)), ((y0, y1), (y2, y3))))) }
{
    taripomune::secure_point::tari_secure_point_complex_conjugate(x0, x1, x2, x3, y0, y1, y2, y3)
}

#[unsafe(no_mangle)]
pub extern "C" fn tari_secure_point_get_point(index_high: u64, index_low: u64) -> SecurePointReply
    ensures { result ≡ secure_point_reply (get_point_answer (index_high * 2 ^ 64 + index_low)) }
{
    taripomune::secure_point::tari_secure_point_get_point(index_high, index_low)
}
