// The version of the C interface, TARI_VERSION of the header.
ghost use Rattle.std.specs.Prelude.{◌≡◌, Ok};
ghost use Rattle.taripomune.specs.Reply.{u32_reply};
ghost use Rattle.taripomune.specs.Version.{version};

use taripomune::reply::U32Reply;

#[unsafe(no_mangle)]
pub extern "C" fn tari_version() -> U32Reply
    ensures { result ≡ u32_reply (Ok version) }
{
    taripomune::version::tari_version()
}
