// The static library: each export calls the function of its name in taripomune, and states its clauses again, since a crate
// is a library for other crates or a static library for C.
#![tactic(auto)]

pub mod batch_inverse;
pub mod canonic_coset;
pub mod circle_domain;
pub mod circle_transform;
pub mod cm31;
pub mod column_orders;
pub mod coset;
pub mod index;
pub mod m31;
pub mod point;
pub mod qm31;
pub mod secure_point;
pub mod version;
