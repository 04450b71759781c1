// Positions in columns and the four permutations of them, for any u32 words. Two pairs of calls are alike but for what they do
// to the words: C has a name for each.
ghost use Rattle.std.specs.Prelude.{◌≡◌, length};
ghost use Rattle.orders.specs.BitReverse.{reverse_bits};
ghost use Rattle.orders.specs.Orders.{bit_reverse_index_answer, coset_index_answer, offset_answer, previous_answer};
ghost use Rattle.orders.specs.Orders.{log_size, in_place_answer, in_place_exit, coset_bit_reversed};
ghost use Rattle.orders.specs.Orders.{lengths_fit, copy_answer, copy_exit, to_domain, to_coset};

use fields::check::need;
use fields::log_size::inner::two_to;
use fields::refusal::Refusal;

pub mod inner;

// An offset may be this far to either side.
const MAX_OFFSET: u64 = 1 << 31;

// The bit reversed index of i, which is represented by log_size bits.
#[tactic(auto, using(fields::specs::CheckLaws::checks), unfolding(crate::specs::Orders::bit_reverse_index_answer))]
pub fn bit_reverse_index(i: u64, log_size: u32) -> Result<u64, Refusal>
    ensures { result ≡ bit_reverse_index_answer i log_size }
{
    need(log_size <= 64, Refusal::LogSize)?;
    Ok(inner::bit_reverse_index(i, log_size))
}

// Bit reversal in place.
pub fn bit_reverse(v: &mut [u32]) -> Result<(), Refusal>
    ensures { (result ≡ in_place_answer (length v.old))
        × (v.new ≡ in_place_exit (in_place_answer (length v.old)) (reverse_bits (log_size (length v.old)))
        v.old) }
{
    let log_size = inner::log_size(v.len() as u64).ok_or(Refusal::Length)?;
    inner::bit_reverse(v, log_size);
    Ok(())
}

// The index of the previous element in a bit reversed evaluation, relative to a smaller domain.
pub fn previous_bit_reversed_circle_domain_index(
    i: u64,
    domain_log_size: u32,
    eval_log_size: u32,
) -> Result<u64, Refusal>
    ensures { result ≡ previous_answer i domain_log_size eval_log_size }
{
    offset_bit_reversed_circle_domain_index(i, domain_log_size, eval_log_size, -1)
}

// The index of the element `offset` further in a bit reversed evaluation, relative to a smaller domain.
#[tactic(auto, using(fields::specs::CheckLaws::checks), unfolding(crate::specs::Orders::offset_answer))]
pub fn offset_bit_reversed_circle_domain_index(
    i: u64,
    domain_log_size: u32,
    eval_log_size: u32,
    offset: i64,
) -> Result<u64, Refusal>
    ensures { result ≡ offset_answer i domain_log_size eval_log_size offset }
{
    need(
        inner::is_smaller_domain(domain_log_size, eval_log_size),
        Refusal::LogSize,
    )?;
    need(offset.unsigned_abs() <= MAX_OFFSET, Refusal::Scalar)?;
    Ok(inner::offset_bit_reversed_circle_domain_index(i, domain_log_size, eval_log_size, offset))
}

// The index in a circle domain of an index within its coset.
#[tactic(auto, using(fields::specs::CheckLaws::checks), unfolding(crate::specs::Orders::coset_index_answer))]
pub fn coset_index_to_circle_domain_index(
    coset_index: u64,
    log_domain_size: u32,
) -> Result<u64, Refusal>
    ensures { result ≡ coset_index_answer coset_index log_domain_size }
{
    need(log_domain_size <= 31, Refusal::LogSize)?;
    let size = two_to(log_domain_size);
    need(coset_index < size, Refusal::Index)?;
    Ok(inner::coset_index_to_circle_domain_index(coset_index, size))
}

// From a coset's natural order to its circle domain's bit-reversed order, in place.
pub fn bit_reverse_coset_to_circle_domain_order(v: &mut [u32]) -> Result<(), Refusal>
    ensures { (result ≡ in_place_answer (length v.old))
        × (v.new ≡ in_place_exit (in_place_answer (length v.old)) (coset_bit_reversed (log_size (length v.old)))
        v.old) }
{
    let log_size = inner::log_size(v.len() as u64).ok_or(Refusal::Length)?;
    inner::bit_reverse_coset_to_circle_domain_order(v, log_size);
    Ok(())
}

// An even length, and a destination no shorter.
fn lengths_fit(values: usize, dst: usize) -> bool
    ensures { result ≡ lengths_fit values dst }
{
    values <= dst && values % 2 == 0
}

// The values of a circle domain, in its order, as those of its coset.
pub fn circle_domain_order_to_coset_order(values: &[u32], dst: &mut [u32]) -> Result<(), Refusal>
    ensures { (result ≡ copy_answer (length values.now) (length dst.old))
        × (dst.new ≡ copy_exit (copy_answer (length values.now) (length dst.old))
        (to_domain (length values.now)) values.now dst.old) }
{
    need(lengths_fit(values.len(), dst.len()), Refusal::Length)?;
    inner::circle_domain_order_to_coset_order(values, dst);
    Ok(())
}

// The values of a coset, in its order, as those of its circle domain.
pub fn coset_order_to_circle_domain_order(values: &[u32], dst: &mut [u32]) -> Result<(), Refusal>
    ensures { (result ≡ copy_answer (length values.now) (length dst.old))
        × (dst.new ≡ copy_exit (copy_answer (length values.now) (length dst.old))
        (to_coset (length values.now)) values.now dst.old) }
{
    need(lengths_fit(values.len(), dst.len()), Refusal::Length)?;
    inner::coset_order_to_circle_domain_order(values, dst);
    Ok(())
}
