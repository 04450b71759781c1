// Log sizes: the range that canonic cosets, circle domains and the transform share, and powers of two.
ghost use Rattle.std.specs.Prelude.{◌≡◌};
ghost use Rattle.fields.specs.LogSize.{is_log_size};

pub mod inner;

pub const MIN_CIRCLE_DOMAIN_LOG_SIZE: u32 = 1;

pub const MAX_CIRCLE_DOMAIN_LOG_SIZE: u32 = 30;

// Whether a canonic coset, its circle domain and the transform have this log size.
pub fn is_log_size(log_size: u32) -> bool
    ensures { result ≡ is_log_size log_size }
{
    MIN_CIRCLE_DOMAIN_LOG_SIZE <= log_size && log_size <= MAX_CIRCLE_DOMAIN_LOG_SIZE
}
