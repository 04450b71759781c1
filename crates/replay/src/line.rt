// Lines of a list of answers: NAME ARG .. ARG = NUMBER POSITION VALUE .. VALUE, single spaces between.
ghost use Rattle.std.specs.Prelude.{◌≤◌};
ghost use Rattle.arrayvec.specs.ArrayVec.{array_vec_len};

use crate::arguments::Arguments;
use arrayvec::ArrayVec;

/// The most numbers of a line.
pub const MOST: usize = 64;

/// Numbers in a row. They go from -2^64 + 1 to 2^64 - 1, so that every argument and every answer is one.
pub type Numbers = ArrayVec<i128, MOST>;

/// A call's name, and its arguments and what it should answer as the numbers before and after the sign =. They lie in one
/// row, since a line has room for so many in all.
#[derive(Drop)]
pub struct Line<'a> {
    pub name: &'a str,
    numbers: Numbers,
    sign: usize,
    ghost sign_among: { sign ≤ array_vec_len numbers },
}

impl<'a> Line<'a> {
    /// The line of a text, where it reads so.
    pub fn read(text: &'a [u8]) -> Option<Line<'a>> {
        let mut words = str::from_utf8(text).ok()?.split(' ');
        let name = words.next()?;
        let mut numbers = Numbers::new();
        let mut sign = None;
        for word in words {
            if word != "=" {
                numbers.try_push(number_of(word)?).ok()?;
            } else if sign.is_none() {
                sign = Some(numbers.len());
            } else {
                return None;
            }
        }
        let sign = sign?;
        Some(Line {
            name,
            numbers,
            sign,
        })
    }

    pub fn arguments(&self) -> Arguments<'_> {
        Arguments::new(&self.numbers.as_slice()[..self.sign])
    }

    pub fn answer(&self) -> &[i128] {
        &self.numbers.as_slice()[self.sign..]
    }
}

pub fn is_comment(line: &[u8]) -> bool {
    line.starts_with(b"#")
}

// The number of one or more digits, where it is below 2^64. `parse` would take a sign + too.
fn natural_of(digits: &str) -> Option<u64> {
    if digits.starts_with('+') {
        return None;
    }
    digits.parse::<u64>().ok()
}

// The number of a word in decimal, with the sign - below zero.
fn number_of(word: &str) -> Option<i128> {
    match word.strip_prefix('-') {
        None => natural_of(word).map(i128::from),
        Some(digits) => match natural_of(digits)? {
            0 => None,
            size => Some(-i128::from(size)),
        },
    }
}
