// Points over QM31 (stwo's CirclePoint<SecureField>).
ghost use Rattle.std.specs.Prelude.{◌≡◌};
ghost use Rattle.circle.specs.SecurePoint.{get_point_answer};

use crate::point::CirclePoint;
use fields::check::need;
use fields::cm31::CM31;
use fields::m31::M31;
use fields::qm31::{P4, QM31};
use fields::refusal::Refusal;

pub type SecureCirclePoint = CirclePoint<QM31>;

// a generator of the circle group over QM31
pub const SECURE_FIELD_CIRCLE_GEN: SecureCirclePoint = CirclePoint {
    x: QM31(CM31(M31(1), M31(0)), CM31(M31(478637715), M31(513582971))),
    y: QM31(
        CM31(M31(992285211), M31(649143431)),
        CM31(M31(740191619), M31(1186584352)),
    ),
};

// the order of that group
pub const SECURE_FIELD_CIRCLE_ORDER: u128 = P4 - 1;

impl CirclePoint<QM31> {
    // The generator added index times to zero.
    pub fn get_point(index: u128) -> Result<SecureCirclePoint, Refusal>
        ensures { result ≡ get_point_answer index }
    {
        need(index < SECURE_FIELD_CIRCLE_ORDER, Refusal::Scalar)?;
        Ok(SECURE_FIELD_CIRCLE_GEN.times(index))
    }
}
