// A table of points, the constant or the computed one, and what is read from it. These are no public calls.
ghost use Rattle.std.specs.Prelude.{◌≡◌, ◌^◌, ◌≤◌};
ghost use Rattle.circle.specs.Point.{point_of, Reduced};
ghost use Rattle.circle.specs.Index.{index_point};
ghost use Rattle.circle.specs.Table.{InTable, entry, table_words};

use crate::point::CirclePoint;
use crate::point_table::{DIGIT_BITS, DIGITS, WORDS};
use fields::log_size::inner::two_to;
use fields::m31::M31;

// x and y of each point in turn, as `table_words` lists them, which may not change.
#[derive(Clone, Copy)]
pub struct PointTable<'a> {
    pub words: &'a [u32; WORDS],
    pub ghost is_table: { words.now ≡ table_words },
}

impl PointTable<'_> {
    // The point of a digit of a window.
    pub fn entry(self, window: usize, digit: usize) -> CirclePoint<M31>
        requires { InTable window digit }
        ensures { (point_of result ≡ entry window digit) × Reduced result }
    {
        let word = 2 * (DIGITS * window + digit);
        CirclePoint {
            x: M31(self.words[word]),
            y: M31(self.words[word + 1]),
        }
    }

    // The point of the index 2^log: the entry of a digit that is a power of two.
    #[tactic(auto, using(crate::proofs::Digits::power_in_table, crate::proofs::Digits::power_entry))]
    pub fn power_point(self, log: u32) -> CirclePoint<M31>
        requires { «log» ≤ 30 }
        ensures { (point_of result ≡ index_point (2 ^ «log»)) × Reduced result }
    {
        let window = log / DIGIT_BITS;
        let digit = two_to(log % DIGIT_BITS);
        self.entry(window as usize, digit as usize)
    }
}
