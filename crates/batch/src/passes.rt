// Montgomery's trick, one inversion for a whole column (the passes of stwo's fields/mod.rs). The columns are known to hold
// elements that can be inverted: these are no public calls.
ghost use Rattle.std.specs.Prelude.{◌≡◌, ◌*◌, ◌≤◌};
ghost use Rattle.batch.specs.Counts.{plain_pass, four_lane_pass, takes_four_lanes, pass_counts};
ghost use Rattle.batch.specs.Passes.{size, at, lane_units};
ghost use Rattle.batch.specs.PassContracts.{Inverting, Inverted, BeforeProducts, AfterProducts, BeforeInverses, AfterInverses};

use crate::counts::Counts;
use crate::element::{Column, Element};
use crate::lanes::Lanes;
use fields::field::Field;

// A product, and the multiplications made for it.
#[derive(Clone, Copy)]
pub struct Product<E> {
    pub element: E,
    pub multiplications: u64,
}

// Element k of the destination becomes the product of the elements 0 to k of the column, of which `first` is element 0; the
// whole product. Here and in `inverses` elements are read and written at places: they are made of words, so no slice holds them.
fn products<E: Element>(column: &[u32], dst: &mut [u32], first: Product<E>) -> Product<E>
    requires before { BeforeProducts E.units column.now dst.old }
    requires first { E.value first.element ≡ at E.units column.now 0 }
    requires few { first.multiplications ≤ 4 }
    ensures { AfterProducts E.units first.multiplications column.now dst.new (E.value result.element) result.multiplications }
{
    let mut whole = first.element;
    let mut multiplications = first.multiplications;
    whole.put(dst, 0);
    for k in 1..E::count(column) {
        whole = whole.multiply(E::get(column, k));
        multiplications += E::MULTIPLICATIONS;
        whole.put(dst, k);
    }
    Product {
        element: whole,
        multiplications,
    }
}

// From the products, and the inverse of the whole product, to the inverses; the multiplications made.
fn inverses<E: Element>(column: &[u32], dst: &mut [u32], inverse: E) -> u64
    requires { BeforeInverses E.units column.now dst.old (E.value inverse) }
    ensures { AfterInverses E.units column.now dst.new result }
{
    let mut multiplications: u64 = 0;
    let mut rest = inverse;
    for k in (1..E::count(column)).rev() {
        let a = E::get(column, k);
        let before = E::get(dst, k - 1);
        before.multiply(rest).put(dst, k);
        multiplications += E::MULTIPLICATIONS;
        rest = rest.multiply(a);
        multiplications += E::MULTIPLICATIONS;
    }
    rest.put(dst, 0);
    multiplications
}

// one element after the other
fn classic<F: Column>(column: &[u32], dst: &mut [u32]) -> Counts
    requires { Inverting F.units column.now dst.old }
    ensures { Inverted F.units column.now dst.old dst.new
        × (result ≡ plain_pass (size F.units column.now)) }
{
    if column.is_empty() {
        return Counts::default();
    }
    let first = Product {
        element: F::get(column, 0),
        multiplications: 0,
    };
    let up = products(column, dst, first);
    let inverse = up.element.inverted();
    let down = inverses(column, dst, inverse);
    Counts {
        multiplications: up.multiplications + down,
        inversions: 1,
    }
}

// Four at a time. This is no `classic` over lanes: the products start from ones, and the inverse of four takes nine products,
// which the counts of `four_lane_pass` tell.
fn four_lanes<F: Column>(column: &[u32], dst: &mut [u32]) -> Counts
    requires { BeforeProducts (lane_units F.units) column.now dst.old }
    ensures { Inverted (lane_units F.units) column.now dst.old dst.new
        × (result ≡ four_lane_pass (size (lane_units F.units) column.now * 4)) }
{
    let first = Product {
        element: Lanes::<F>::ones().multiply(Lanes::get(column, 0)),
        multiplications: Lanes::<F>::MULTIPLICATIONS,
    };
    let up = products(column, dst, first);
    let four = up.element.inverse();
    let down = inverses(column, dst, four.lanes);
    Counts {
        multiplications: up.multiplications + four.made.multiplications + down,
        inversions: four.made.inversions,
    }
}

// Whether a column of n elements is taken four at a time.
fn takes_four_lanes(n: usize) -> bool
    ensures { result ≡ takes_four_lanes n }
{
    4 < n && n % 4 == 0
}

// Each element of the destination becomes the inverse of the column's.
pub fn invert<F: Column>(column: &[u32], dst: &mut [u32]) -> Counts
    requires { Inverting F.units column.now dst.old }
    ensures { Inverted F.units column.now dst.old dst.new
        × (result ≡ pass_counts (size F.units column.now)) }
{
    if takes_four_lanes(F::count(column)) {
        return four_lanes::<F>(column, dst);
    }
    classic::<F>(column, dst)
}
