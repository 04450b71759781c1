// Powers of two: what the layers above compute with. These are no public calls.
ghost use Rattle.std.specs.Prelude.{◌≡◌, ◌^◌, ◌<◌};

pub fn two_to(n: u32) -> u64
    requires { n < 64 }
    ensures { result ≡ 2 ^ n }
{
    1u64 << n
}
