// Batch inversion (from stwo's fields/mod.rs), for any field whose elements lie in columns: the inverses of a whole column.
#![tactic(auto)]

ghost use Rattle.std.specs.Prelude.{◌≡◌, ◌<◌, length};
ghost use Rattle.batch.specs.Counts.{chunked_counts};
ghost use Rattle.batch.specs.Batch.{lengths_fit, nonzero, invertible, chunked_checks};
ghost use Rattle.batch.specs.Batch.{in_place_answer, chunked_answer, batch_exit};
ghost use Rattle.batch.specs.Passes.{size};
ghost use Rattle.batch.specs.PassContracts.{InvertingInto, Inverted};
ghost use Rattle.fields.specs.Check.{outcome};

use crate::counts::Counts;
use crate::element::{Column, Element};
use crate::passes::invert;
use fields::check::need;
use fields::columns::check_words;
use fields::field::Field;
use fields::refusal::Refusal;

mod cm31;
pub mod counts;
pub mod element;
mod lanes;
mod m31;
mod passes;
mod qm31;

// Whole numbers of elements, the destination no shorter than the column.
fn lengths_fit<F: Column>(column: usize, dst: usize) -> bool
    ensures { result ≡ lengths_fit F.column column dst }
{
    column % F::WIDTH == 0 && dst % F::WIDTH == 0 && column <= dst
}

fn check_nonzero<F: Column>(column: &[u32]) -> Result<(), Refusal>
    ensures { result ≡ outcome (nonzero F.column column.now) }
{
    match (0..F::count(column)).position(|k| F::get(column, k).equals_zero()) {
        Some(k) => Err(Refusal::Inverse(k as u64)),
        None => Ok(()),
    }
}

// Bad words, then zeros.
#[tactic(auto, using(fields::specs::CheckLaws::checks))]
fn check_invertible<F: Column>(column: &[u32]) -> Result<(), Refusal>
    ensures { result ≡ outcome (invertible F.column column.now) }
{
    if F::all_invertible(column) {
        return Ok(());
    }
    check_words(column)?;
    check_nonzero::<F>(column)
}

// What a batch checks, before anything is written.
#[tactic(auto, using(fields::specs::CheckLaws::checks))]
fn check<F: Column>(chunk: usize, column: &[u32], dst: usize) -> Result<(), Refusal>
    ensures { result ≡ outcome (chunked_checks F.column chunk column.now dst) }
{
    need(lengths_fit::<F>(column.len(), dst), Refusal::Length)?;
    need(chunk != 0, Refusal::Chunk)?;
    check_invertible::<F>(column)
}

// One pass over each chunk of so many elements; what the passes made together.
fn invert_chunks<F: Column>(column: &[u32], dst: &mut [u32], chunk: usize) -> Counts
    requires inverting { InvertingInto F.units column.now dst.old }
    requires some { 0 < chunk }
    ensures { Inverted F.units column.now dst.old dst.new
        × (result ≡ chunked_counts chunk (size F.units column.now)) }
{
    let n = F::count(column);
    // a chunk of more elements than the column has is the column
    let chunk = chunk.min(n.max(1));
    let mut made = Counts::default();
    // Over `column.chunks(..).zip(dst.chunks_mut(..))` the proof stays open at what `invert` requires of its two parts: the
    // invariant has to tell what both iterators have left, of a destination that may be longer than the column.
    for first in (0..n).step_by(chunk) {
        let end = n.min(first + chunk);
        let from = first * F::WIDTH;
        let to = end * F::WIDTH;
        let part = invert::<F>(&column[from..to], &mut dst[from..to]);
        made += part;
    }
    made
}

// Element k of the destination becomes the inverse of element k of the column, by one pass.
pub fn batch_inverse_in_place<F: Column>(column: &[u32], dst: &mut [u32]) -> Result<Counts, Refusal>
    ensures { (result ≡ in_place_answer F.column column.now (length dst.old))
        × (dst.new ≡ batch_exit F.column (in_place_answer F.column column.now (length dst.old)) column.now dst.old) }
{
    check::<F>(1, column, dst.len())?;
    // one chunk
    Ok(invert_chunks::<F>(column, dst, usize::MAX))
}

// Element k of the destination becomes the inverse of element k of the column, by one pass over each chunk of so many elements.
pub fn batch_inverse_chunked<F: Column>(
    column: &[u32],
    dst: &mut [u32],
    chunk: usize,
) -> Result<Counts, Refusal>
    ensures { (result ≡ chunked_answer F.column chunk column.now (length dst.old))
        × (dst.new ≡ batch_exit F.column (chunked_answer F.column chunk column.now (length dst.old)) column.now dst.old) }
{
    check::<F>(chunk, column, dst.len())?;
    Ok(invert_chunks::<F>(column, dst, chunk))
}
