//! The text by which a set of invitations names one: `inv:` and its number in ten digits. The form is
//! our own. ERTP's sets have keys with an order, which here is byte order, and so that of numbers.

ghost use Rattle.std.specs.Prelude.{◌≡◌, ◌<◌, ◌^◌, ℕ, IfOk, IfSome};
ghost use Rattle.std.specs.Cmp.Lexicographic.{slice_cmp};
ghost use Rattle.std.specs.Ordering.{nat_cmp};
ghost use Rattle.std.specs.List.{list_all};
ghost use Rattle.std.specs.Char.{is_ascii_digit};
ghost use Rattle.std.specs.declared.cmp.Ordering.TheVariants.{Less};
ghost use Rattle.turn_stores.specs.Elements.{element, number_in};

use host_data::host_text_lib::number::read_number;
use host_data::host_text_lib::text::Text;
use std::alloc::{AllocError, Global};

/// How many digits a number is written with, zeros in front.
const DIGITS: usize = 10;

/// The text of an invitation. Texts stand in byte order as the numbers do.
pub fn element_text(alloc: Global, number: u32) -> Result<Text, AllocError>
    ensures text { IfOk result (λ text. text ≡ element number) }
    ensures ordered { (lesser : ℕ) → lesser < number → slice_cmp nat_cmp (element lesser) (element number) ≡ Less }
{
    let text = format!(in alloc; "inv:{number:010}")?;
    Ok(Text::from_string(text))
}

/// The number of an invitation's text, or `None` exactly where the bytes are the text of none.
pub fn number_of_element(bytes: &[u8]) -> Option<u32>
    ensures found { IfSome result (λ number. bytes.now ≡ element number) }
    ensures all { (number : ℕ) → number < 2 ^ 32 → bytes.now ≡ element number → result ≡ Some number }
{
    match bytes.strip_prefix(b"inv:".as_slice()) {
        Some(digits) => number_of_digits(digits),
        None => None,
    }
}

/// The number that ten digits write, where it lies within 32 bits.
fn number_of_digits(digits: &[u8]) -> Option<u32>
    ensures { result ≡ number_in digits.now }
{
    if digits.len() != DIGITS || !are_digits(digits) {
        return None;
    }
    u32::try_from(read_number(digits)?).ok()
}

fn are_digits(bytes: &[u8]) -> bool
    ensures { result ≡ list_all is_ascii_digit bytes.now }
{
    bytes.iter().all(|byte| byte.is_ascii_digit())
}
