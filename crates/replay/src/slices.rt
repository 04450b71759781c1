// The calls on slices, and what they leave in them.
ghost use Rattle.std.specs.Prelude.{◌≤◌};

use crate::answer::Answer;
use crate::arguments::Arguments;
use crate::calls::on_slices;
use crate::line::Line;

/// What a call does with a slice.
#[derive(Clone, Copy, PartialEq, Eq)]
pub enum Access {
    Reads,
    Writes,
    /// An accepted call leaves the first words of scratch, as many as the column has, as anything.
    Scratch,
}

/// What a call on slices takes: so many numbers, one slice or two, and so many numbers.
#[derive(Clone, Copy)]
pub struct Parameters {
    pub before: usize,
    pub first: Access,
    pub second: Option<Access>,
    pub after: usize,
}

impl Access {
    fn writes(self) -> bool {
        self != Access::Reads
    }
}

/// How the lines of a list give the slices of their calls.
pub trait Form {
    /// Takes a slice from the arguments. Its words are written to the front of those that are lent.
    fn take<'a>(arguments: &mut Arguments<'_>, words: &'a mut [u32]) -> Option<&'a mut [u32]>;

    /// Adds what a call left in a slice to its answer, where there is room.
    fn record(words: &[u32], answer: &mut Answer) -> Option<()>;
}

/// A slice is its length and then its words.
pub struct Words;

impl Form for Words {
    fn take<'a>(arguments: &mut Arguments<'_>, words: &'a mut [u32]) -> Option<&'a mut [u32]> {
        let [length] = arguments.take::<usize, 1>()?;
        let numbers = arguments.numbers(length)?;
        let words = words.get_mut(..length)?;
        for (word, number) in words.iter_mut().zip(numbers) {
            *word = u32::try_from(*number).ok()?;
        }
        Some(words)
    }

    fn record(words: &[u32], answer: &mut Answer) -> Option<()> {
        for word in words {
            answer.push(i128::from(*word))?;
        }
        Some(())
    }
}

/// The most words of a slice by rule: 2^17, and some more for scratch.
pub const LONGEST: usize = 131136;

/// A slice is a rule of four numbers: its length, a seed, a place and a word. The seed is the first word, each next one is
/// 16807 times the one before modulo P; then the word goes to the place, if the slice has it.
pub struct Rule;

// The word after another by the rule.
fn after(word: u32) -> u32 {
    (u64::from(word) * 16807 % 2147483647) as u32
}

impl Form for Rule {
    fn take<'a>(arguments: &mut Arguments<'_>, words: &'a mut [u32]) -> Option<&'a mut [u32]> {
        let [length] = arguments.take::<usize, 1>()?;
        let [seed] = arguments.take::<u32, 1>()?;
        let [place] = arguments.take::<usize, 1>()?;
        let [word] = arguments.take::<u32, 1>()?;
        let words = words.get_mut(..length)?;
        let mut next = seed;
        for to in words.iter_mut() {
            *to = next;
            next = after(next);
        }
        if let Some(to) = words.get_mut(place) {
            *to = word;
        }
        Some(words)
    }

    // Of a long slice its check sum: from 0 on, each word is added to 48271 times the sum before it modulo the prime
    // 2^40 - 87.
    fn record(words: &[u32], answer: &mut Answer) -> Option<()> {
        let mut sum = 0u64;
        for word in words {
            sum = sum % 1099511627689 * 48271 + u64::from(*word);
        }
        answer.push(i128::from(sum))
    }
}

/// The answer to a call on slices of at most N words, where there is one of this name and the arguments are its. The words
/// lie in arrays, since the program allocates nothing.
pub fn answer_of<F: Form, const N: usize>(line: &Line<'_>) -> Option<Answer>
    requires { N ≤ LONGEST }
{
    let parameters = on_slices::parameters_of(line.name)?;
    let mut first = [0u32; N];
    let mut second = [0u32; N];
    let mut held = [0u32; N];
    let mut arguments = line.arguments();
    let before = arguments.numbers(parameters.before)?;
    let first = F::take(&mut arguments, &mut first)?;
    let second = match parameters.second {
        None => second.get_mut(..0)?,
        Some(_) => F::take(&mut arguments, &mut second)?,
    };
    let after = arguments.numbers(parameters.after)?;
    arguments.end()?;
    let held = held.get_mut(..second.len())?;
    held.copy_from_slice(second);
    let mut answer = on_slices::answer_of(line.name, before, first, second, after)?;
    // What an accepted call leaves in scratch is free: it is recorded as it was held before.
    if parameters.second == Some(Access::Scratch) && answer.is_accepted() {
        second
            .get_mut(..first.len())?
            .copy_from_slice(held.get(..first.len())?);
    }
    if parameters.first.writes() {
        F::record(first, &mut answer)?;
    }
    if parameters.second.is_some_and(Access::writes) {
        F::record(second, &mut answer)?;
    }
    Some(answer)
}
