// Replays the recorded answers of data/ through the calls of the C interface, and prints how many came out as recorded.
#![tactic(auto)]

mod answer;
mod arguments;
mod calls;
mod line;
mod slices;

use crate::answer::Answer;
use crate::line::{Line, MOST, is_comment};
use crate::slices::{LONGEST, Rule, Words};
use arrayvec::ArrayVec;
use std::fs::File;
use std::io;
use std::io::Read;

/// How many bytes of a list are read. One that has as many may go on.
const LIMIT: usize = 65536;

/// The lists in which a slice is given by its words, but for that of damaged lines.
const LISTS: [&str; 14] = [
    "version.txt",
    "m31.txt",
    "cm31.txt",
    "qm31.txt",
    "batch.txt",
    "point.txt",
    "secure_point.txt",
    "index.txt",
    "orders.txt",
    "coset.txt",
    "canonic_coset.txt",
    "circle_domain.txt",
    "contradicting_records.txt",
    "transform.txt",
];

/// How many calls answered as their lines say, and how many otherwise.
#[derive(Clone, Copy, Default)]
struct Tally {
    same: u64,
    different: u64,
}

impl Tally {
    fn count(&mut self, same: bool) {
        let calls = if same {
            &mut self.same
        } else {
            &mut self.different
        };
        *calls = calls.saturating_add(1);
    }
}

/// The calls of a list.
trait List {
    /// The answer to a call, where there is one of its name and the arguments are its.
    fn answer_of(line: &Line<'_>) -> Option<Answer>;
}

/// A list in which slices are given by their words has calls on numbers alone too.
impl List for Words {
    fn answer_of(line: &Line<'_>) -> Option<Answer> {
        calls::answer_of(line).or_else(|| slices::answer_of::<Words, MOST>(line))
    }
}

impl List for Rule {
    fn answer_of(line: &Line<'_>) -> Option<Answer> {
        slices::answer_of::<Rule, LONGEST>(line)
    }
}

// Whether the line's call answers as the line says.
fn is_as_recorded<L: List>(text: &[u8]) -> bool {
    let Some(line) = Line::read(text) else {
        return false;
    };
    L::answer_of(&line).is_some_and(|answer| answer.numbers() == line.answer())
}

// The lines of a text. A comment says nothing; any other line is an answer. With `split`, what follows the last line's end
// would be a line too.
fn replayed<L: List>(text: &[u8]) -> Tally {
    let mut tally = Tally::default();
    for line in text.split_inclusive(|byte| *byte == b'\n') {
        let line = line.strip_suffix(b"\n").unwrap_or(line);
        if !is_comment(line) {
            tally.count(is_as_recorded::<L>(line));
        }
    }
    tally
}

// A list that can't be opened is reported, and the next one follows. One that is too long is reported, and not replayed.
fn replay<L: List>(rt: &HostRuntime, name: &str) -> io::Result<()> {
    let file = match File::open(rt, name) {
        Ok(file) => file,
        Err(why) => return eprintln!(rt; "{name}: {why}"),
    };
    let mut text = ArrayVec::<u8, LIMIT>::new();
    io::copy(&mut file.take(LIMIT as u64), &mut text)?;
    if text.is_full() {
        return println!(rt; "{name}: too long");
    }
    let tally = replayed::<L>(text.as_slice());
    println!(rt;
        "{name}: {} answers as recorded, {} different",
        tally.same, tally.different
    )
}

fn main(rt: HostRuntime) -> io::Result<()> {
    for name in LISTS {
        replay::<Words>(&rt, name)?;
    }
    replay::<Rule>(&rt, "long_columns.txt")?;
    replay::<Words>(&rt, "damaged.txt")
}
