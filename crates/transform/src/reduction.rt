// How far the words of a loop are reduced: below P, or down to P, which stands for 0.
ghost use Rattle.std.specs.Prelude.{◌≡◌, ℕ, ◌%◌, ◌≤◌, ◌<◌};
ghost use Rattle.algebra.specs.M31.{P, P_pos};
ghost use Rattle.std.proofs.Common.{lit≤};
ghost use Rattle.fields.specs.Words.{add_p, sub_p, mul_p};

use fields::m31::inner::{add, add_partly, mul_by, mul_by_partly, sub, sub_partly};

// The operations of a loop, on words that are reduced so far and leave words that are.
pub trait Reduction {
    // a word before and after
    ghost fits: { ℕ → Type 0 };

    fn add(a: u32, b: u32) -> u32
        requires { (fits a) × (fits b) }
        ensures { (result % P ≡ add_p a b) × fits result };

    fn sub(a: u32, b: u32) -> u32
        requires { (fits a) × (fits b) }
        ensures { (result % P ≡ sub_p a b) × fits result };

    // The product with a factor w that stays the same through a loop.
    fn mul_by(a: u32, w: u32) -> u32
        requires { (fits a) × (w < P) }
        ensures { (result % P ≡ mul_p a w) × fits result };

    ghost zero_fits: { fits 0 };
}

// below P
pub struct Whole;

impl Reduction for Whole {
    ghost fits = { λ w. w < P };

    ghost zero_fits = { P_pos };

    fn add(a: u32, b: u32) -> u32 {
        add(a, b)
    }

    fn sub(a: u32, b: u32) -> u32 {
        sub(a, b)
    }

    fn mul_by(a: u32, w: u32) -> u32 {
        mul_by(a, w)
    }
}

// down to P
pub struct Partly;

impl Reduction for Partly {
    ghost fits = { λ w. w ≤ P };

    ghost zero_fits = { lit≤ tt };

    fn add(a: u32, b: u32) -> u32 {
        add_partly(a, b)
    }

    fn sub(a: u32, b: u32) -> u32 {
        sub_partly(a, b)
    }

    fn mul_by(a: u32, w: u32) -> u32 {
        mul_by_partly(a, w)
    }
}
