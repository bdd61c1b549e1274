//! Names as they are compared.
ghost use Rattle.std.specs.Prelude.{◌≡◌, IsTrue};
ghost use Rattle.std.specs.Str.{bytes_eq};

/// Whether both end alike.
fn ends_alike(one: &[u8], other: &[u8]) -> bool
    ensures { IsTrue (bytes_eq one.now other.now) → IsTrue result }
{
    one.last() == other.last()
}

/// Whether both are the same, byte by byte. Of names of one length the last bytes are looked at first: most
/// that differ do so there.
fn is_long_name(one: &str, other: &str) -> bool
    ensures { result ≡ bytes_eq one.now other.now }
{
    one.len() == other.len() && ends_alike(one.as_bytes(), other.as_bytes()) && one == other
}

/// Whether both are one name.
#[inline]
pub fn is_name(one: &str, other: &str) -> bool
    ensures { result ≡ bytes_eq one.now other.now }
{
    match (one.as_bytes(), other.as_bytes()) {
        ([a], [b]) => *a == *b,
        _ => is_long_name(one, other),
    }
}
