// One test of a call.
ghost use Rattle.std.specs.Prelude.{◌≡◌};
ghost use Rattle.fields.specs.Check.{need, outcome};

use crate::refusal::Refusal;

pub fn need(holds: bool, why: Refusal) -> Result<(), Refusal>
    ensures { result ≡ outcome (need holds why) }
{
    if holds { Ok(()) } else { Err(why) }
}
