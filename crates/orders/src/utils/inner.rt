// The functions of utils.rt on arguments that are known to fit, and the loops of the permutations. Those in place go by index,
// whose bits are what they reverse.
ghost use Rattle.std.specs.Prelude.{◌≡◌, ◌++◌, ◌+◌, ◌*◌, ◌%◌, ◌^◌, ◌≤◌, ◌<◌, length, drop, unsigned_abs};
ghost use Rattle.std.specs.Int.{is_negative};
ghost use Rattle.orders.specs.BitReverse.{reverse_bits};
ghost use Rattle.orders.specs.Orders.{bit_reverse_index, to_domain, to_coset, reordered, exact_log_size, coset_bit_reversed};
ghost use Rattle.orders.specs.Orders.{is_smaller_domain, moved, offset_element, offset_index};
ghost use Rattle.orders.specs.Bounds.{Offset, MoveRoom, OnHalves, HasBlocks, HalfFields};
ghost use Rattle.orders.specs.Swaps.{swapped_if_before, halves_exchanged};

use fields::log_size::inner::two_to;
use fields::log_size::is_log_size;

// Each field of 2k bits with its halves changed over. The mask has the lower half of every field.
fn exchange_halves(x: u64, k: u32, mask: u64) -> u64
    requires { HalfFields mask k }
    ensures { result ≡ halves_exchanged mask k x }
{
    ((x & mask) << k) + ((x >> k) & mask)
}

// All 64 bits in reverse: neighbouring bits change places, then neighbouring pairs, and so on up to the halves.
// std's `reverse_bits` takes a step for each bit: with it `bit_reverse_coset_to_circle_domain_order` misses its bar.
pub fn reverse_bits(x: u64) -> u64
    ensures { result ≡ reverse_bits 64 x }
{
    let a = exchange_halves(x, 1, 0x5555_5555_5555_5555);
    let b = exchange_halves(a, 2, 0x3333_3333_3333_3333);
    let c = exchange_halves(b, 4, 0x0f0f_0f0f_0f0f_0f0f);
    let d = exchange_halves(c, 8, 0x00ff_00ff_00ff_00ff);
    let e = exchange_halves(d, 16, 0x0000_ffff_0000_ffff);
    exchange_halves(e, 32, 0x0000_0000_ffff_ffff)
}

pub fn bit_reverse_index(i: u64, log_size: u32) -> u64
    requires { log_size ≤ 64 }
    ensures { result ≡ bit_reverse_index i log_size }
{
    if log_size == 0 {
        return i;
    }
    reverse_bits(i) >> (64 - log_size)
}

// The n of 2^n = size, where there is one.
pub fn log_size(size: u64) -> Option<u32>
    ensures { result ≡ exact_log_size size }
{
    if size.is_power_of_two() {
        Some(size.ilog2())
    } else {
        None
    }
}

// Words i and j change places where i comes before j.
fn swap_if_before(v: &mut [u32], i: usize, j: usize)
    requires { (i < length v.old) × (j < length v.old) }
    ensures { v.new ≡ swapped_if_before i j i j v.old }
{
    if i < j {
        v.swap(i, j);
    }
}

// Columns that have no block. The words are lent by C, and written: so their log size goes beside them as a clause says, and no
// type holds both.
fn bit_reverse_short(v: &mut [u32], log_size: u32)
    requires { (log_size < 64) × (length v.old ≡ 2 ^ log_size) }
    ensures { v.new ≡ reordered (reverse_bits log_size) v.old }
{
    for i in 0..v.len() {
        let j = bit_reverse_index(i as u64, log_size) as usize;
        swap_if_before(v, i, j);
    }
}

// The reverses of 0, 1, 2 and 3 in two bits.
const REVERSED: [usize; 4] = [0, 2, 1, 3];

// A word of a block: block x is words 4x to 4x + 3 of each quarter of a column, a row in each.
#[derive(Clone, Copy)]
struct BlockWord {
    block: usize,
    row: usize,
    column: usize,
}

impl BlockWord {
    // Block after block, and row after row.
    fn turn(self) -> usize
        requires { 16 * self.block + 4 * self.row + self.column < 2 ^ 64 }
        ensures { result ≡ 16 * self.block + 4 * self.row + self.column }
    {
        16 * self.block + 4 * self.row + self.column
    }

    // In a column whose quarters have so many words.
    fn place(self, quarter: usize) -> usize
        requires { self.row * quarter + 4 * self.block + self.column < 2 ^ 64 }
        ensures { result ≡ self.row * quarter + 4 * self.block + self.column }
    {
        self.row * quarter + 4 * self.block + self.column
    }
}

// A block and that of its partners are done together, at the turn of the first, so that a cache line is used four times
// while it is there.
fn bit_reverse_blocks(v: &mut [u32], log_size: u32)
    requires { HasBlocks log_size (length v.old) }
    ensures { v.new ≡ reordered (reverse_bits log_size) v.old }
{
    let quarter = v.len() / 4;
    for x in 0..v.len() / 16 {
        let y = bit_reverse_index(x as u64, log_size - 4) as usize;
        if y < x {
            continue;
        }
        for row in 0..4 {
            for column in 0..4 {
                let word = BlockWord {
                    block: x,
                    row,
                    column,
                };
                let partner = BlockWord {
                    block: y,
                    row: REVERSED[column],
                    column: REVERSED[row],
                };
                if word.turn() < partner.turn() {
                    v.swap(word.place(quarter), partner.place(quarter));
                }
            }
        }
    }
}

pub fn bit_reverse(v: &mut [u32], log_size: u32)
    requires { (log_size < 64) × (length v.old ≡ 2 ^ log_size) }
    ensures { v.new ≡ reordered (reverse_bits log_size) v.old }
{
    if log_size < 4 {
        bit_reverse_short(v, log_size);
        return;
    }
    bit_reverse_blocks(v, log_size);
}

// One word stays where it is. Even words go to even places, odd ones to odd places.
pub fn bit_reverse_coset_to_circle_domain_order(v: &mut [u32], log_size: u32)
    requires { (log_size < 64) × (length v.old ≡ 2 ^ log_size) }
    ensures { v.new ≡ reordered (coset_bit_reversed log_size) v.old }
{
    if log_size == 0 {
        return;
    }
    let last = v.len() - 1;
    for x in 0..v.len() / 2 {
        let y = bit_reverse_index(x as u64, log_size - 1) as usize;
        swap_if_before(v, 2 * x, 2 * y);
        swap_if_before(v, 2 * x + 1, last - 2 * y);
    }
}

#[tactic(auto, using(std::proofs::lemmas::Bool::Decides::nat_tests), unfolding(crate::specs::Orders::to_domain))]
pub fn coset_index_to_circle_domain_index(coset_index: u64, size: u64) -> u64
    requires { (coset_index < size) × (size ≤ 2 ^ 62) }
    ensures { result ≡ to_domain size coset_index }
{
    if coset_index % 2 == 0 {
        coset_index / 2
    } else {
        (2 * size - coset_index) / 2
    }
}

// One loop for both copies would ask a function for each place: no plainer than these two, and up to ten times as slow.
// Inlined into a caller they aren't sure to be vector code. Each turn reads or writes two places, by index: after a loop over
// `chunks_exact_mut` or a `zip` of `iter_mut` nothing is known of the words that it wrote.
#[inline(never)]
pub fn circle_domain_order_to_coset_order(values: &[u32], dst: &mut [u32])
    requires { (length values.now ≤ length dst.old) × (length values.now % 2 ≡ 0) }
    ensures { dst.new
        ≡ reordered (to_domain (length values.now)) values.now
        ++ drop (length values.now) dst.old }
{
    for i in 0..values.len() / 2 {
        dst[2 * i] = values[i];
        dst[2 * i + 1] = values[values.len() - 1 - i];
    }
}

#[inline(never)]
pub fn coset_order_to_circle_domain_order(values: &[u32], dst: &mut [u32])
    requires { (length values.now ≤ length dst.old) × (length values.now % 2 ≡ 0) }
    ensures { dst.new
        ≡ reordered (to_coset (length values.now)) values.now
        ++ drop (length values.now) dst.old }
{
    let half = values.len() / 2;
    let (first, second) = dst.split_at_mut(half);
    for i in 0..half {
        first[i] = values[2 * i];
        second[half - 1 - i] = values[2 * i + 1];
    }
}

// Eval in 1..30 and domain below it.
pub fn is_smaller_domain(domain: u32, eval: u32) -> bool
    ensures { result ≡ is_smaller_domain domain eval }
{
    is_log_size(eval) && domain < eval
}

// `steps` places on from p round a circle of so many places, or back where it is negative.
fn moved(size: u64, p: u64, steps: i64) -> u64
    requires { MoveRoom size p steps }
    ensures { result ≡ moved (is_negative steps) size p (unsigned_abs steps) }
{
    (p as i64 + steps).rem_euclid(size as i64) as u64
}

fn offset_element(half: u64, p: u64, steps: i64) -> u64
    requires { OnHalves half p steps }
    ensures { result ≡ offset_element (is_negative steps) half p (unsigned_abs steps) }
{
    if p < half {
        moved(half, p, steps)
    } else {
        moved(half, p - half, -steps) + half
    }
}

pub fn offset_bit_reversed_circle_domain_index(
    i: u64,
    domain_log_size: u32,
    eval_log_size: u32,
    offset: i64,
) -> u64
    requires { Offset domain_log_size eval_log_size offset }
    ensures { result
        ≡ offset_index i domain_log_size eval_log_size (is_negative offset) (unsigned_abs offset) }
{
    let half = two_to(eval_log_size - 1);
    let places = two_to(eval_log_size - domain_log_size - 1) as i64;
    let element = bit_reverse_index(i, eval_log_size);
    let other = offset_element(half, element, offset * places);
    bit_reverse_index(other, eval_log_size)
}
