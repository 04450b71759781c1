// Columns of words, each to be below P.
ghost use Rattle.std.specs.Prelude.{◌≡◌, true, length};
ghost use Rattle.fields.specs.Check.{outcome};
ghost use Rattle.fields.specs.Columns.{first_bad, words};

use crate::m31::P;
use crate::refusal::Refusal;

// 2^31
const TWO_POW_31: u32 = 2147483648;

// Whether every word is below P. Just then a word and the word plus 1, modulo 2^32, are below 2^31. It looks at all words
// without a branch; only a column that has a bad word is searched for it.
fn all_below_p(column: &[u32]) -> bool
    ensures { result ≡ true → length column.now ≡ first_bad column.now }
{
    let mut seen: u32 = 0;
    for &word in column {
        seen |= word | word.wrapping_add(1);
    }
    seen < TWO_POW_31
}

// Every word is below P, else the lowest one that isn't is refused.
pub fn check_words(column: &[u32]) -> Result<(), Refusal>
    ensures { result ≡ outcome (words column.now) }
{
    if all_below_p(column) {
        return Ok(());
    }
    match column.iter().position(|&word| P <= word) {
        Some(at) => Err(Refusal::Word(at as u64)),
        None => Ok(()),
    }
}
