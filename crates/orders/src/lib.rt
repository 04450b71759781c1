// Column orders (from stwo's utils.rs): bit reversal, and a coset's order against its circle domain's.
#![tactic(auto)]

pub mod utils;
