//! The names of objects and of callers.

ghost use Rattle.std.specs.Prelude.{◌≡◌, ◌≢◌, ◌<◌, ◌++◌, ◌↔◌, ℕ, List, decimal, IfSome, IsNone};
ghost use Rattle.std.specs.Prelude.{IsTrue};
ghost use Rattle.std.specs.List.{list_any};
ghost use Rattle.row_forms.specs.Names as spec;
ghost use Rattle.turn_rows.specs.Form.{IsCaller, IsInstanceName, IsNumbered, IsNumberedBy};
ghost use Rattle.turn_rows.specs.Form.{IsObjectName, IsOneOf, IsParty, IsServiceTarget};
ghost use Rattle.turn_rows.specs.Form.{brand_words, brands_end, object_words, objects_end};
ghost use Rattle.turn_rows.specs.Form.{single_names};

use crate::numbers::decimal_in;
use host_text::label::Label;

/// The numbers of brands are below this.
pub const BRANDS_END: u128 = 1 << 16;

/// The numbers of all other objects are below this.
pub const OBJECTS_END: u128 = 1 << 32;

/// What the names of a brand, its issuer, its mint and a contract's mint of it begin with.
const BRAND_WORDS: [&str; 4] = ["brand", "issuer", "mint", "zmint"];

/// What the names of all other numbered objects begin with.
const OBJECT_WORDS: [&str; 10] = [
    "purse",
    "deposit",
    "payment",
    "installation",
    "instance",
    "zcf",
    "seat",
    "zseat",
    "facet",
    "promise",
];

/// What stands behind a word with which the name begins.
fn behind<'a>(word: &str, name: &'a str) -> Option<&'a str>
    ensures some { IfSome result (λ rest. name.now ≡ word.now ++ rest.now) }
    ensures none { IsNone result → (rest : List ℕ) → name.now ≢ word.now ++ rest }
{
    name.strip_prefix(word)
}

/// The number behind the word of a name, where it is below the end.
pub fn number_after(word: &str, end: u128, name: &str) -> Option<u128>
    ensures some { IfSome result (λ n. (n < end) × (name.now ≡ word.now ++ decimal n)) }
    ensures none { IsNone result → ¬ IsNumbered word.now end name.now }
{
    let number = decimal_in(behind(word, name)?)?;
    if number < end { Some(number) } else { None }
}

/// Whether the name is the word with a number below the end.
fn has_number(end: u128, name: &str, word: &str) -> bool
    ensures { result ≡ spec.has_number end name.now word.now }
{
    number_after(word, end, name).is_some()
}

/// Whether the name is one of these words with a number below the end.
fn is_numbered_by(words: &[&str], end: u128, name: &str) -> bool
    ensures { result ≡ list_any (λ word. spec.has_number end name.now word.now) words.now }
{
    words.iter().any(|word| has_number(end, name, *word))
}

/// Whether the name is the word with a number below 2^32.
pub fn is_object(word: &str, name: &str) -> bool
    ensures { IsTrue result ↔ IsNumbered word.now objects_end name.now }
{
    number_after(word, OBJECTS_END, name).is_some()
}

fn is_brand_object(name: &str) -> bool
    ensures { IsTrue result ↔ IsNumberedBy brand_words brands_end name.now }
{
    is_numbered_by(&BRAND_WORDS, BRANDS_END, name)
}

fn is_other_object(name: &str) -> bool
    ensures { IsTrue result ↔ IsNumberedBy object_words objects_end name.now }
{
    is_numbered_by(&OBJECT_WORDS, OBJECTS_END, name)
}

fn is_single(name: &str) -> bool
    ensures { IsTrue result ↔ IsOneOf single_names name.now }
{
    name == "ertp" || name == "zoe" || name == "timer"
}

/// Whether the name is that of an object.
pub fn is_object_name(name: &str) -> bool
    ensures { IsTrue result ↔ IsObjectName name.now }
{
    is_single(name) || is_brand_object(name) || is_other_object(name)
}

/// Whether the name is that of an object whose calls are turns of services.
pub fn is_service_target(name: &str) -> bool
    ensures { IsTrue result ↔ IsServiceTarget name.now }
{
    is_object_name(name) && !name.as_bytes().starts_with(b"facet")
}

/// Whether the name is that of an instance.
pub fn is_instance_name(name: &str) -> bool
    ensures { IsTrue result ↔ IsInstanceName name.now }
{
    is_object("instance", name)
}

/// Whether the name is that of a party.
pub fn is_party(name: &str) -> bool
    ensures { IsTrue result ↔ IsParty name.now }
{
    let bytes = name.as_bytes();
    Label::is_label(bytes) && !bytes.starts_with(b"instance")
}

/// Whether the name is that of a party or of an instance.
pub fn is_caller(name: &str) -> bool
    ensures { IsTrue result ↔ IsCaller name.now }
{
    is_party(name) || is_instance_name(name)
}
