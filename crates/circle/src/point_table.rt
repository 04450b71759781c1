// The table of points, computed from G alone: window w, digit d has the point (d DIGITS^w) G. `constant` has the same table
// as numbers.
ghost use Rattle.std.specs.Prelude.{◌≡◌, length};
ghost use Rattle.circle.specs.Table.{digits_of, table_words, table_length, FillingWindow, FilledWindow};

use crate::point::CirclePoint;
use fields::m31::M31;

pub mod constant;
pub mod inner;

pub const WINDOWS: usize = 8;

// how many bits a digit has
pub const DIGIT_BITS: u32 = 4;

// the digits of a window but the last, which ends where indices do, at 2^31
pub const DIGITS: usize = 1 << DIGIT_BITS;

const LAST_DIGITS: usize = 8;

// the words of the table: an x and a y for each digit of each window
pub const WORDS: usize = 2 * (DIGITS * (WINDOWS - 1) + LAST_DIGITS);

// How many digits a window has; none where there is no such window.
pub fn digits_of(window: usize) -> usize
    ensures { result ≡ digits_of window }
{
    if window < WINDOWS - 1 {
        return DIGITS;
    }
    if window < WINDOWS {
        return LAST_DIGITS;
    }
    0
}

// Fills the words of a window with the points of its digits: zero, base, twice base and so on. The point after the last,
// which is returned, is the base of the next window. By index: after a loop over `chunks_exact_mut` the proof doesn't close,
// since nothing is known of the words that it wrote.
fn fill_window(words: &mut [u32], digits: usize, base: CirclePoint<M31>) -> CirclePoint<M31>
    requires { FillingWindow digits words.old base }
    ensures { FilledWindow digits base words.new result }
{
    let mut p = CirclePoint::<M31>::zero();
    for digit in 0..digits {
        words[2 * digit] = p.x.0;
        words[2 * digit + 1] = p.y.0;
        p = base.plus(p);
    }
    p
}

// Fills the windows one after another, the first over G. With `split_at_mut` on what is left of the table in place of `start`
// the proof doesn't close either: after the loop nothing is known of the words that were split off.
#[tactic(auto, using(crate::proofs::Windows::tables))]
fn fill_windows(table: &mut [u32])
    requires { length table.old ≡ table_length }
    ensures { table.new ≡ table_words }
{
    let mut base = CirclePoint::generator();
    let mut start: usize = 0;
    for window in 0..WINDOWS {
        let digits = digits_of(window);
        let end = start + 2 * digits;
        base = fill_window(&mut table[start..end], digits, base);
        start = end;
    }
}

// The x and y of every digit of window 0, then of window 1, and so on.
pub fn compute() -> [u32; WORDS]
    ensures { result ≡ table_words }
{
    let mut table = [0u32; WORDS];
    fill_windows(&mut table);
    table
}
