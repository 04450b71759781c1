// The version of the C interface, TARI_VERSION of the header.
ghost use Rattle.std.specs.Prelude.{◌≡◌, Ok};
ghost use Rattle.taripomune.specs.Reply.{u32_reply};
ghost use Rattle.taripomune.specs.Version.{version};

use crate::reply::U32Reply;

pub fn tari_version() -> U32Reply
    ensures { result ≡ u32_reply (Ok version) }
{
    Ok(4).into()
}
