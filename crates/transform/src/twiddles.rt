// The tree of twiddles in scratch: node 1 is its root, node i has the children 2i and 2i + 1. It has the twiddles of all
// layers but the last, whose twiddles are y, -y, -x and x for the siblings x and y of the layer before it. Each turn of a loop
// reads the slice that it writes, at another place: so the loops go by index.
ghost use Rattle.std.specs.Prelude.{◌≡◌, ℕ, ◌+◌, ◌*◌, ◌-◌, ◌^◌, ◌≤◌, ◌<◌, length, get_or};
ghost use Rattle.algebra.specs.M31.{P};
ghost use Rattle.algebra.specs.Circle.{plus};
ghost use Rattle.fields.specs.Words.{mul_p, words31};
ghost use Rattle.circle.specs.Point.{point_of, Reduced};
ghost use Rattle.transform.specs.Tree.{Words, LinesFrom, LineTree, beside, Invertible};
ghost use Rattle.transform.specs.Tree.{InvertedTree, Points, LastLevel, Extended, Stepping, Stepped, Doubled};

use circle::point::CirclePoint;
use circle::point::inner::doubled_x;
use circle::point_table::constant::points;
use circle::point_table::inner::PointTable;
use fields::log_size::inner::two_to;
use fields::m31::{M31, inner as m31};

// p + step, where the step stays the same through a loop: fewer steps than `plus`, which knows no such factor. The second
// product of a coordinate may be P for 0: the difference and the sum reduce it.
fn add_step(p: CirclePoint<M31>, step: CirclePoint<M31>) -> CirclePoint<M31>
    requires { (Reduced p) × (Reduced step) }
    ensures { (point_of result ≡ plus words31 (point_of p) (point_of step)) × Reduced result }
{
    let xx = m31::mul_by(p.x.0, step.x.0);
    let yy = m31::mul_by_partly(p.y.0, step.y.0);
    let xy = m31::mul_by(p.x.0, step.y.0);
    let yx = m31::mul_by_partly(p.y.0, step.x.0);
    CirclePoint {
        x: M31(m31::sub(xx, yy)),
        y: M31(m31::add(xy, yx)),
    }
}

// The points count, .., 2 count - 1 lie `step` further than the points 0, .., count - 1.
fn add_points(level: &mut [u32], count: usize, step: CirclePoint<M31>)
    requires { (4 * count ≤ length level.old) × ((j : ℕ) → j < 2 * count → get_or level.old j 0 < P) × Reduced step }
    ensures { Extended count (point_of step) level.old level.new }
{
    for c in 0..count {
        let from = 2 * c;
        let to = 2 * (count + c);
        let p = CirclePoint {
            x: M31(level[from]),
            y: M31(level[from + 1]),
        };
        let q = add_step(p, step);
        level[to] = q.x.0;
        level[to + 1] = q.y.0;
    }
}

// The first 2^(s - 1) points: with every bit of c one more power of G is added, with bit s the step.
fn add_steps(level: &mut [u32], table: PointTable<'_>, s: u32, step: CirclePoint<M31>)
    requires { Stepping s step level.old }
    ensures { Stepped s (point_of step) level.old level.new }
{
    if s < 2 {
        return;
    }
    add_steps(level, table, s - 1, table.power_point(31 - s));
    let count = two_to(s - 2) as usize;
    add_points(level, count, step);
}

// The last level: point c has its x at word 2c and its y at word 2c + 1, since C lends scratch as words.
fn fill_points(level: &mut [u32], log_size: u32)
    requires { LastLevel log_size level.old }
    ensures { Points log_size (2 ^ (log_size - 3)) level.new }
{
    let table = points();
    let start = table.power_point(30 - log_size);
    level[0] = start.x.0;
    level[1] = start.y.0;
    let step = table.power_point(32 - log_size);
    add_steps(level, table, log_size - 2, step);
}

// The nodes first, .., 2 first - 1 from their children. With `for node in first..2 * first` evaluation takes 1.05 to 1.07 times
// as long, and misses its bar.
fn double_level(tree: &mut [u32], first: usize)
    requires { (4 * first ≤ length tree.old) × ((j : ℕ) → 2 * first ≤ j → j < 4 * first → get_or tree.old j 0 < P) }
    ensures { Doubled first tree.old tree.new }
{
    for b in 0..first {
        let node = first + b;
        let child = 2 * node;
        tree[node] = doubled_x(M31(tree[child])).0;
    }
}

// The levels above the last.
fn double_levels(tree: &mut [u32], log_size: u32)
    requires { (3 ≤ log_size) × (log_size ≤ 30) × (2 * length tree.old ≡ 2 ^ log_size)
        × LinesFrom log_size (log_size - 2) tree.old }
    ensures { LinesFrom log_size 0 tree.new }
{
    for m in (0..log_size - 2).rev() {
        double_level(tree, two_to(m) as usize);
    }
}

pub fn fill(tree: &mut [u32], log_size: u32)
    requires { (3 ≤ log_size) × (log_size ≤ 30) × (2 * length tree.old ≡ 2 ^ log_size) }
    ensures { LineTree log_size tree.new }
{
    let last = tree.len() / 2;
    fill_points(&mut tree[last..], log_size);
    double_levels(tree, log_size);
    tree[0] = tree[1];
}

// The y of the point whose x stands at node i: x and y of siblings change places, with a sign. It reads words that `invert`
// rewrites in the same loop, so it is lent the slice and not a `Tree`.
fn beside(tree: &[u32], i: usize) -> u32
    requires { (0 < i) × (i + 1 < length tree.now) × Words tree.now }
    ensures { (result ≡ beside tree.now i) × (result < P) }
{
    if i % 2 == 0 {
        return tree[i + 1];
    }
    m31::neg(tree[i - 1])
}

fn twice_product(y: u32, s: u32) -> u32
    requires { (y < P) × (s < P) }
    ensures { (result ≡ mul_p 2 (mul_p y s)) × (result < P) }
{
    let product = m31::mul(y, s);
    m31::add(product, product)
}

// From the root down. A node's point doubles to the one above, so that with s, the inverse of the y there, which is 2xy,
// 1 / x is 2ys and 1 / y is 2xs. The root has 2x² = 1.
pub fn invert(tree: &mut [u32])
    requires { Invertible tree.old }
    ensures { InvertedTree tree.old tree.new }
{
    let root = tree[1];
    let inverse = m31::add(root, root);
    tree[0] = inverse;
    tree[1] = inverse;
    let half = tree.len() / 2;
    for i in 1..half {
        let s = beside(tree, i);
        let j = 2 * i;
        let x = tree[j];
        let y = tree[j + 1];
        tree[j] = twice_product(y, s);
        tree[j + 1] = twice_product(x, s);
    }
}
