//! Whole numbers in decimal.
ghost use Rattle.std.specs.Prelude.{◌≡◌, ◌++◌, OnOk, OnErr};
ghost use Rattle.std.specs.Char.{is_ascii_digit};
ghost use Rattle.std.specs.Fmt.{signed_decimal};
ghost use Rattle.std.specs.List.{list_all};
ghost use Rattle.host_text.specs.Numbers as numbers;

use itoa::Buffer;
use std::alloc::AllocError;
use std::str;

/// The most digits that are read.
const MOST_DIGITS: usize = 39;

/// Whether the bytes are a minus sign or none, and 1 to 39 digits.
pub fn is_number(bytes: &[u8]) -> bool
    ensures { result ≡ numbers.is_number bytes.now }
{
    match bytes {
        [b'-', digits @ ..] => are_digits(digits),
        digits => are_digits(digits),
    }
}

fn are_digits(digits: &[u8]) -> bool
    ensures { result ≡ numbers.are_digits digits.now }
{
    match digits {
        [] => false,
        [first, others @ ..] => {
            first.is_ascii_digit() && go_on(others) && digits.len() <= MOST_DIGITS
        }
    }
}

fn go_on(digits: &[u8]) -> bool
    ensures { result ≡ list_all is_ascii_digit digits.now }
{
    digits.iter().all(|byte| byte.is_ascii_digit())
}

/// The number that the bytes write, where they have the form `-?[0-9]{1,39}` and the number lies
/// within 128 signed bits.
pub fn read_number(bytes: &[u8]) -> Option<i128>
    ensures { result ≡ numbers.number_in bytes.now }
{
    if !is_number(bytes) {
        return None;
    }
    let Ok(text) = str::from_utf8(bytes) else {
        unreachable!()
    };
    text.parse::<i128>().ok()
}

/// Writes the number in decimal behind what `out` holds. After an error `out` is as before.
/// The program doesn't use it.
pub fn write_number(number: i128, out: &mut Vec<u8>) -> Result<(), AllocError>
    ensures ok { OnOk result (out.new.items ≡ out.old.items ++ signed_decimal number) }
    ensures err { OnErr result (out.new.items ≡ out.old.items) }
    ensures read_back { numbers.number_in (signed_decimal number) ≡ Some number }
{
    let mut buffer = Buffer::new();
    out.extend_from_slice(buffer.format(number).as_bytes())
}
