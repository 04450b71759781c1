// Evaluation by halves: butterflies from the largest distance down.
ghost use Rattle.std.specs.Prelude.{◌≡◌, ◌^◌, ◌≤◌, ◌<◌, length, drop};
ghost use Rattle.std.proofs.Math.Nat.{le_of_lt};
ghost use Rattle.algebra.specs.M31.{P, P_pos};
ghost use Rattle.fields.specs.Words.{words31};
ghost use Rattle.column.specs.Butterflies.{butterflies, evaluate_block};
ghost use Rattle.column.specs.Blocks.{butterflies-length};
ghost use Rattle.column.specs.Paths.{evaluate_length};
ghost use Rattle.transform.specs.Transform.{values_of, Column};
ghost use Rattle.transform.specs.Tree.{PartlyReduced, reduced_words, node_twiddle, four_twiddle, Block};

use crate::blocks::{Direction, eights, in_order, layer};
use crate::tree::Tree;
use crate::twiddles;
use circle::point_table::constant::points;
use fields::log_size::inner::two_to;
use fields::m31::P;
use fields::m31::inner::{
    add, add_partly, mul_by_partly, mul_partly, partial_reduce, sub, sub_partly,
};

pub struct Evaluation;

impl Direction for Evaluation {
    ghost of_halves = { butterflies words31 };

    ghost of_four = { λ negated w v. evaluate_block words31 2 (four_twiddle negated w v) 0 };

    // below P: these are the last layers
    ghost fits = { λ w. w < P };

    ghost halves_length = { butterflies-length words31 };

    ghost four_length = { λ negated w v. evaluate_length words31 2 (four_twiddle negated w v) 0 };

    ghost zero_fits = { P_pos };

    ghost fits_partly = { λ w. le_of_lt };

    fn butterflies(block: &mut [u32], half: usize, w: u32) {
        for q in 0..half {
            let u = block[q];
            let v = mul_by_partly(block[half + q], w);
            block[q] = add_partly(u, v);
            block[half + q] = sub_partly(u, v);
        }
    }

    // With -v in place of v the results of a pair change places.
    fn four(block: &mut [u32], negated: bool, w: u32, v: u32) {
        let a = partial_reduce(block[0]);
        let b = block[1];
        let c = mul_partly(block[2], w);
        let d = mul_partly(block[3], w);
        let p = add(a, c);
        let q = mul_partly(add_partly(b, d), v);
        let m = sub(a, c);
        let n = mul_partly(sub_partly(b, d), v);
        let (first, second) = in_order(negated, add(p, q), sub(p, q));
        let (third, fourth) = in_order(negated, sub(m, n), add(m, n));
        block[0] = first;
        block[1] = second;
        block[2] = third;
        block[3] = fourth;
    }
}

// A block of 2^k words below node i, layer by layer.
fn layers(column: &mut [u32], tree: Tree<'_>, i: usize, k: u32)
    requires { Block (reduced_words column.old) tree.nodes.now i k × PartlyReduced column.old }
    ensures { column.new
        ≡ evaluate_block words31 k (node_twiddle tree.entry.nodes.now) i (reduced_words column.old) }
{
    let mut node = i;
    let mut count: usize = 1;
    for t in (2..k).rev() {
        let half = two_to(t) as usize;
        layer::<Evaluation>(column, tree, node, count, half);
        node = 2 * node;
        count = 2 * count;
    }
    eights::<Evaluation>(column, tree, node / 2, count / 2);
}

// A block of 2^k words below node i. Blocks that fit the cache go layer by layer, longer ones half by half.
fn block(column: &mut [u32], tree: Tree<'_>, i: usize, k: u32)
    requires { Block (reduced_words column.old) tree.nodes.now i k × PartlyReduced column.old }
    ensures { column.new
        ≡ evaluate_block words31 k (node_twiddle tree.entry.nodes.now) i (reduced_words column.old) }
{
    if k <= 14 {
        layers(column, tree, i, k);
        return;
    }
    let half = column.len() / 2;
    Evaluation::butterflies(column, half, tree.twiddle(i));
    block(&mut column[..half], tree, 2 * i, k - 1);
    block(&mut column[half..], tree, 2 * i + 1, k - 1);
}

// y is -1 at log size 1.
fn evaluate_two(column: &mut [u32])
    requires { Column 1 column.old }
    ensures { column.new ≡ values_of 1 column.old }
{
    Evaluation::butterflies(column, 1, P - 1);
    let first = partial_reduce(column[0]);
    let second = partial_reduce(column[1]);
    column[0] = first;
    column[1] = second;
}

// y is -x at log size 2.
fn evaluate_four(column: &mut [u32])
    requires { Column 2 column.old }
    ensures { column.new ≡ values_of 2 column.old }
{
    let x = points().power_point(28).x.0;
    Evaluation::four(column, true, x, x);
}

pub fn evaluate(log_size: u32, column: &mut [u32], scratch: &mut [u32])
    requires { (1 ≤ log_size) × (log_size ≤ 30) × Column log_size column.old × (2 ^ log_size ≤ length scratch.old) }
    ensures { (column.new ≡ values_of log_size column.old)
        × (length scratch.new ≡ length scratch.old)
        × (drop (2 ^ log_size) scratch.new ≡ drop (2 ^ log_size) scratch.old) }
{
    if log_size == 1 {
        evaluate_two(column);
        return;
    }
    if log_size == 2 {
        evaluate_four(column);
        return;
    }
    let words = column.len() / 2;
    twiddles::fill(&mut scratch[..words], log_size);
    let tree = Tree {
        nodes: &scratch[..words],
    };
    block(column, tree, 1, log_size);
}
