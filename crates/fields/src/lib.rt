// The fields (stwo's core/fields): M31, CM31 and QM31, and what every layer shares: refusals, checks, columns and
// log sizes.
#![tactic(auto, using(crate::specs::CheckLaws::checks))]

pub mod check;
pub mod cm31;
pub mod columns;
pub mod extension;
pub mod field;
pub mod log_size;
pub mod m31;
pub mod qm31;
pub mod refusal;
