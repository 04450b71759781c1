// The transform between a column's values on the canonic circle domain and its coefficients.
#![tactic(auto, using(fields::specs::CheckLaws::checks))]

ghost use Rattle.std.specs.Prelude.{◌≡◌, length};
ghost use Rattle.transform.specs.Transform.{transform_answer, Evaluated, Interpolated};

use fields::check::need;
use fields::columns::check_words;
use fields::log_size::inner::two_to;
use fields::log_size::is_log_size;
use fields::refusal::Refusal;

mod blocks;
mod evaluation;
mod interpolation;
mod reduction;
mod tree;
mod twiddles;

// What a call answers, before anything is written.
#[tactic(auto, using(fields::specs::CheckLaws::checks), unfolding(crate::specs::Transform::transform_answer))]
fn check(log_size: u32, column: &[u32], scratch: usize) -> Result<(), Refusal>
    ensures { result ≡ transform_answer log_size column.now scratch }
{
    need(is_log_size(log_size), Refusal::LogSize)?;
    let size = two_to(log_size) as usize;
    need(column.len() == size, Refusal::Length)?;
    need(size <= scratch, Refusal::Length)?;
    check_words(column)
}

// Rewrites a column of 2^log_size coefficients as their values.
pub fn evaluate(log_size: u32, column: &mut [u32], scratch: &mut [u32]) -> Result<(), Refusal>
    ensures { (result ≡ transform_answer log_size column.old (length scratch.old))
        × Evaluated log_size column.old scratch.old column.new scratch.new }
{
    check(log_size, column, scratch.len())?;
    evaluation::evaluate(log_size, column, scratch);
    Ok(())
}

// Rewrites a column of 2^log_size values as the coefficients that give them.
pub fn interpolate(log_size: u32, column: &mut [u32], scratch: &mut [u32]) -> Result<(), Refusal>
    ensures { (result ≡ transform_answer log_size column.old (length scratch.old))
        × Interpolated log_size column.old scratch.old column.new scratch.new }
{
    check(log_size, column, scratch.len())?;
    interpolation::interpolate(log_size, column, scratch);
    Ok(())
}
