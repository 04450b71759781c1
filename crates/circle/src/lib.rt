// Points of the circle over M31 and QM31, and point indices (stwo's circle.rs up to CirclePointIndex).
#![tactic(auto, using(fields::specs::CheckLaws::checks))]

pub mod index;
pub mod point;
pub mod point_table;
pub mod secure_point;
