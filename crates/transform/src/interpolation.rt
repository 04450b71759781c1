// Interpolation by halves: inverse butterflies from the smallest distance up, then the factor 2^-n. `layers` and `block` take
// the steps of evaluation in the reverse order, so that these two share none of their code.
ghost use Rattle.std.specs.Prelude.{◌≡◌, ◌+◌, ◌^◌, ◌≤◌, ◌<◌, length, drop};
ghost use Rattle.std.proofs.Common.{lit≤};
ghost use Rattle.algebra.specs.M31.{P};
ghost use Rattle.fields.specs.Words.{mul_p, words31};
ghost use Rattle.column.specs.Butterflies.{inverse_butterflies, interpolate_block, scaled};
ghost use Rattle.column.specs.Blocks.{inverse_length};
ghost use Rattle.column.specs.Inverse.{interpolate_length};
ghost use Rattle.transform.specs.Transform.{Column, Coefficients};
ghost use Rattle.transform.specs.Tree.{Each, PartlyReduced, reduced_words, node_twiddle, four_twiddle, Block, Unscaled};

use crate::blocks::{Direction, eights, in_order, layer};
use crate::reduction::{Partly, Reduction, Whole};
use crate::tree::Tree;
use crate::twiddles;
use circle::point_table::constant::points;
use fields::log_size::inner::two_to;
use fields::m31::P;
use fields::m31::inner::{add, add_partly, mul_partly, partial_reduce, sub_partly};

const TWO_POW_31: u32 = 2147483648;

// An inverse butterfly with the inverse t of the twiddle on each pair of words, half a block apart; not halved. By
// index, as `butterflies` of blocks.rt.
fn inverse_butterflies<R: Reduction>(block: &mut [u32], half: usize, t: u32)
    requires { (length block.old ≡ half + half) × (t < P) × Each R.fits block.old }
    ensures { (reduced_words block.new ≡ inverse_butterflies words31 half t (reduced_words block.old))
        × Each R.fits block.new }
{
    for q in 0..half {
        let u = block[q];
        let v = block[half + q];
        block[q] = R::add(u, v);
        block[half + q] = R::mul_by(R::sub(u, v), t);
    }
}

pub struct Interpolation;

impl Direction for Interpolation {
    ghost of_halves = { inverse_butterflies words31 };

    ghost of_four = { λ negated w v. interpolate_block words31 2 (four_twiddle negated w v) 0 };

    // down to P, which stands for 0: these are the first layers
    ghost fits = { λ w. w ≤ P };

    ghost halves_length = { inverse_length words31 };

    ghost four_length = { λ negated w v. interpolate_length words31 2 (four_twiddle negated w v) 0 };

    ghost zero_fits = { lit≤ tt };

    ghost fits_partly = { λ w h. h };

    fn butterflies(block: &mut [u32], half: usize, w: u32) {
        inverse_butterflies::<Partly>(block, half, w);
    }

    // With -v in place of v the words of a pair change places.
    fn four(block: &mut [u32], negated: bool, w: u32, v: u32) {
        let (a, b) = in_order(negated, block[0], block[1]);
        let (c, d) = in_order(negated, block[3], block[2]);
        let p = add_partly(a, b);
        let q = mul_partly(sub_partly(a, b), v);
        let m = add_partly(c, d);
        let n = mul_partly(sub_partly(c, d), v);
        block[0] = add_partly(p, m);
        block[1] = add_partly(q, n);
        block[2] = mul_partly(sub_partly(p, m), w);
        block[3] = mul_partly(sub_partly(q, n), w);
    }
}

// A block of 2^k words below node i, layer by layer; 2^k times the coefficients.
fn layers(column: &mut [u32], tree: Tree<'_>, i: usize, k: u32)
    requires { Block (reduced_words column.old) tree.nodes.now i k × PartlyReduced column.old }
    ensures { (reduced_words column.new
        ≡ interpolate_block words31 k (node_twiddle tree.entry.nodes.now) i (reduced_words column.old))
        × PartlyReduced column.new }
{
    let mut count = column.len() / 4;
    let mut node = i * count;
    eights::<Interpolation>(column, tree, node / 2, count / 2);
    for t in 2..k {
        let half = two_to(t) as usize;
        count = count / 2;
        node = node / 2;
        layer::<Interpolation>(column, tree, node, count, half);
    }
}

// a 2^s modulo P: since 2^31 is 1, its 31 bits rotated by s places. P, which stands for 0, stays P and is reduced.
fn rotated(a: u32, s: u32) -> u32
    requires { (a ≤ P) × (0 < s) × (s < 31) }
    ensures { result ≡ mul_p a (2 ^ s) }
{
    partial_reduce((a << s) % TWO_POW_31 + (a >> (31 - s)))
}

// Each word times 2^s.
fn scale(column: &mut [u32], s: u32)
    requires { (0 < s) × (s < 31) × PartlyReduced column.old }
    ensures { column.new ≡ scaled words31 (2 ^ s) column.old }
{
    for word in column.iter_mut() {
        *word = rotated(*word, s);
    }
}

// A block of 2^k words below node i; 2^(k + s) times the coefficients. Blocks that fit the cache go layer by layer and are
// scaled there, longer ones go half by half.
fn block(column: &mut [u32], tree: Tree<'_>, i: usize, k: u32, s: u32)
    requires { Block column.old tree.nodes.now i k × (0 < s) × (s < 31) }
    ensures { column.new
        ≡ scaled words31 (2 ^ s) (interpolate_block words31 k (node_twiddle tree.entry.nodes.now) i column.old) }
{
    if k <= 14 {
        layers(column, tree, i, k);
        scale(column, s);
        return;
    }
    let half = column.len() / 2;
    block(&mut column[..half], tree, 2 * i, k - 1, s);
    block(&mut column[half..], tree, 2 * i + 1, k - 1, s);
    inverse_butterflies::<Whole>(column, half, tree.twiddle(i));
}

// y is -1 at log size 1.
fn interpolate_two(column: &mut [u32])
    requires { Column 1 column.old }
    ensures { Unscaled 1 column.old column.new }
{
    inverse_butterflies::<Whole>(column, 1, P - 1);
}

// y is -x at log size 2, and 1 / x is 2x.
fn interpolate_four(column: &mut [u32])
    requires { Column 2 column.old }
    ensures { Unscaled 2 column.old column.new }
{
    let x = points().power_point(28).x.0;
    let inverse = add(x, x);
    Interpolation::four(column, true, inverse, inverse);
}

pub fn interpolate(log_size: u32, column: &mut [u32], scratch: &mut [u32])
    requires { (1 ≤ log_size) × (log_size ≤ 30) × Column log_size column.old × (2 ^ log_size ≤ length scratch.old) }
    ensures { Coefficients log_size column.new column.old
        × (length scratch.new ≡ length scratch.old)
        × (drop (2 ^ log_size) scratch.new ≡ drop (2 ^ log_size) scratch.old) }
{
    if log_size == 1 {
        interpolate_two(column);
        scale(column, 30);
        return;
    }
    if log_size == 2 {
        interpolate_four(column);
        scale(column, 29);
        return;
    }
    let words = column.len() / 2;
    twiddles::fill(&mut scratch[..words], log_size);
    twiddles::invert(&mut scratch[..words]);
    let tree = Tree {
        nodes: &scratch[..words],
    };
    block(column, tree, 1, log_size, 31 - log_size);
}
