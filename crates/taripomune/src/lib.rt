// The calls of the C interface: numbers and slices in, one struct of numbers out. taripomune_c exports them. C gives the
// numbers of an element, a point or a coset apart, so a call makes what they stand for (records.rt) before it calls. C has no
// generic functions: each call of each field has a name of its own, and so a function here.
#![tactic(auto)]

// The reply of a refusal, in an impl of a reply: its number and position, and 0 for each value.
macro_rules! refused {
    ($why:expr) => {
        Self {
            number: $why.number(),
            position: $why.position(),
            ..Self::default()
        }
    };
}

pub mod batch_inverse;
pub mod batch_reply;
pub mod canonic_coset;
pub mod circle_domain;
pub mod circle_transform;
pub mod cm31;
pub mod column_orders;
pub mod coset;
pub mod coset_reply;
pub mod index;
pub mod m31;
pub mod point;
pub mod qm31;
pub mod records;
pub mod reply;
pub mod secure_point;
pub mod version;
