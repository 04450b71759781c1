// The loops over the blocks of a layer, which evaluation and interpolation have in common. They go by the number of the block:
// after a loop over `chunks_exact_mut` the proof doesn't close, since nothing is known of the words that it wrote.
ghost use Rattle.std.specs.Prelude.{◌≡◌, ℕ, Bool, List, ◌+◌, ◌*◌, ◌≤◌, ◌<◌, length, get_or, cond};
ghost use Rattle.algebra.specs.M31.{P};
ghost use Rattle.column.specs.Blocks.{blocks};
ghost use Rattle.transform.specs.Tree.{Each, PartlyReduced, reduced_words, of_eight};

use crate::tree::Tree;

// Evaluation or interpolation: what each does to one block. Between layers P may stand for 0. That is a clause and not the
// invariant of a type, which would have to hold again after each word that is written.
pub trait Direction {
    // a block after the butterflies of its node, by the length of its halves and the word of the node
    ghost of_halves: { ℕ → ℕ → List ℕ → List ℕ };

    // four words after the two layers on them, with v and -v for the pairs, or -v and v where it is negated
    ghost of_four: { Bool → ℕ → ℕ → List ℕ → List ℕ };

    // a word after these two layers
    ghost fits: { ℕ → Type 0 };

    // On each pair of words, half a block apart. By index: a loop over the two slices of `split_at_mut` isn't vectorized
    // within `layer` and takes twice the time, past the bars of evaluate and interpolate; and after one over a `zip` of
    // words that it writes a proof knows only lengths.
    fn butterflies(block: &mut [u32], half: usize, w: u32)
        requires { (length block.old ≡ half + half) × (w < P) × PartlyReduced block.old }
        ensures { (reduced_words block.new ≡ of_halves half w (reduced_words block.old)) × PartlyReduced block.new };

    // w for the halves. The four words are a part of the column, and so a slice: an array would be taken from it by an `Option` at
    // each block.
    fn four(block: &mut [u32], negated: bool, w: u32, v: u32)
        requires { (length block.old ≡ 4) × (w < P) × (v < P) × PartlyReduced block.old }
        ensures { (reduced_words block.new ≡ of_four negated w v (reduced_words block.old)) × Each fits block.new };

    // neither changes a length, and words that fit are at most P
    ghost halves_length: { (half w : ℕ) (l : List ℕ) → length l ≡ half + half → length (of_halves half w l) ≡ half + half };

    ghost four_length: { (negated : Bool) (w v : ℕ) (l : List ℕ) → length l ≡ 4 → length (of_four negated w v l) ≡ 4 };

    ghost zero_fits: { fits 0 };

    ghost fits_partly: { (w : ℕ) → fits w → w ≤ P };
}

// The two words, or the second one first.
pub fn in_order(swapped: bool, a: u32, b: u32) -> (u32, u32)
    ensures { (result.0 ≡ cond swapped b a) × (result.1 ≡ cond swapped a b) }
{
    if swapped { (b, a) } else { (a, b) }
}

// One layer: each of so many blocks of two halves, with the twiddles from a node on. `start` is counted: with the product of b
// and the block's length in its place evaluation takes 1.03 times as long, and misses its bar.
pub fn layer<D: Direction>(
    column: &mut [u32],
    tree: Tree<'_>,
    node: usize,
    count: usize,
    half: usize,
)
    requires { (length column.old ≡ count * (half + half)) × (node + count ≤ length tree.nodes.now) × PartlyReduced column.old }
    ensures { (reduced_words column.new
        ≡ blocks count (half + half) (λ j. D.of_halves half (get_or tree.entry.nodes.now j 0)) node (reduced_words column.old))
        × PartlyReduced column.new }
{
    let mut start: usize = 0;
    for b in 0..count {
        let end = start + (half + half);
        D::butterflies(&mut column[start..end], half, tree.twiddle(node + b));
        start = end;
    }
}

// The two layers of pairs and fours on the eight words below two siblings, which hold x and y of one point, or their inverses.
fn eight<D: Direction>(block: &mut [u32], x: u32, y: u32)
    requires { (length block.old ≡ 8) × (x < P) × (y < P) × PartlyReduced block.old }
    ensures { (reduced_words block.new ≡ of_eight D.of_four x y (reduced_words block.old)) × Each D.fits block.new }
{
    D::four(&mut block[0..4], false, x, y);
    D::four(&mut block[4..8], true, y, x);
}

// The two layers of so many blocks of eight words, below the nodes from `node` on.
pub fn eights<D: Direction>(column: &mut [u32], tree: Tree<'_>, node: usize, count: usize)
    requires { (length column.old ≡ count * 8) × (2 * (node + count) ≤ length tree.nodes.now) × PartlyReduced column.old }
    ensures { (reduced_words column.new
        ≡ blocks count 8 (λ j. of_eight D.of_four (get_or tree.entry.nodes.now (2 * j) 0) (get_or tree.entry.nodes.now (2 * j + 1) 0)) node
        (reduced_words column.old))
        × Each D.fits column.new }
{
    for b in 0..count {
        let start = 8 * b;
        let end = start + 8;
        let (x, y) = tree.children(node + b);
        eight::<D>(&mut column[start..end], x, y);
    }
}
