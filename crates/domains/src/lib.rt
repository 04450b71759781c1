// Cosets, canonic cosets and circle domains (stwo's circle.rs from Coset on, canonic.rs and domain.rs).
#![tactic(auto, using(crate::proofs::Checks::records))]

pub mod canonic;
pub mod coset;
pub mod domain;
pub mod iterator;
pub mod record;
