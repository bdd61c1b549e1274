//! Words: a byte that begins them, then letters, digits and underscores.
ghost use Rattle.std.specs.Prelude.{◌≡◌};
ghost use Rattle.std.specs.List.{list_all};
ghost use Rattle.host_text.specs.Words as words;

const MOST_BYTES_OF_A_FIELD_NAME: usize = 64;

/// The most bytes of a keyword and of a label.
pub(crate) const MOST_BYTES: usize = 32;

fn is_word_byte(byte: u8) -> bool
    ensures { result ≡ words.is_word_byte byte }
{
    byte.is_ascii_alphanumeric() || byte == b'_'
}

/// Letters, digits and underscores alone.
pub(crate) fn goes_on(bytes: &[u8]) -> bool
    ensures { result ≡ list_all words.is_word_byte bytes.now }
{
    bytes.iter().all(|byte| is_word_byte(*byte))
}

/// The name of a field: `[A-Za-z_][A-Za-z0-9_]*` of 1 to 64 bytes.
pub fn is_field_name(bytes: &[u8]) -> bool
    ensures { result ≡ words.is_field_name bytes.now }
{
    match bytes {
        [] => false,
        [first, others @ ..] => {
            (first.is_ascii_alphabetic() || *first == b'_')
                && goes_on(others)
                && bytes.len() <= MOST_BYTES_OF_A_FIELD_NAME
        }
    }
}
