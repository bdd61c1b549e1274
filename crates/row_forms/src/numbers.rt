//! Numbers in decimal, as rows write them: without a plus, without a zero in front.

ghost use Rattle.std.specs.Prelude.{◌≡◌, ◌≢◌, ◌<◌, ◌^◌, ◌↔◌, ℕ, decimal, IfSome, IsNone, IsTrue};
ghost use Rattle.turn_rows.specs.Form.{IsWideNumber, IsWideText};

use host_text::number::read_number;
use itoa::Buffer;

/// The number that the text writes, where it has 128 bits.
pub fn decimal_in(text: &str) -> Option<u128>
    ensures some { IfSome result (λ n. text.now ≡ decimal n) }
    ensures fits { IfSome result (λ n. n < 2 ^ 128) }
    ensures none { IsNone result → (n : ℕ) → n < 2 ^ 128 → text.now ≢ decimal n }
{
    let number = text.parse::<u128>().ok()?;
    let mut buffer = Buffer::new();
    if buffer.format(number) == text {
        Some(number)
    } else {
        None
    }
}

/// Whether a number doesn't lie within 64 signed bits, or is the least that does.
fn is_wide(number: i128) -> bool
    ensures { IsTrue result ↔ IsWideNumber number }
{
    number.unsigned_abs() > i64::MAX as u128
}

/// Whether the text writes a number of 128 signed bits that rows don't print plainly.
pub fn is_wide_text(text: &str) -> bool
    ensures { IsTrue result ↔ IsWideText text.now }
{
    let Some(number) = read_number(text.as_bytes()) else {
        return false;
    };
    let mut buffer = Buffer::new();
    is_wide(number) && buffer.format(number) == text
}
