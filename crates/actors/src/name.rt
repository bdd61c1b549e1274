//! A party's label as the key of a map.
ghost use Rattle.std.specs.Prelude.{◌≡◌, IsTrue};
ghost use Rattle.brands.specs.host_text.Words.{is_label};

use arrayvec::ArrayString;

/// The most bytes of a label.
const MOST_BYTES: usize = 32;

/// A party and a label of its. Both lie in the value itself, so that a look-up takes no memory.
#[derive(Clone, Copy, PartialEq, Eq, Hash)]
pub(crate) struct Name {
    pub(crate) party: ArrayString<MOST_BYTES>,
    pub(crate) label: ArrayString<MOST_BYTES>,
}

impl Name {
    /// The label of the party.
    pub(crate) fn new(party: &str, label: &str) -> Name
        requires party_is_label { IsTrue (is_label party.now) }
        requires label_is_label { IsTrue (is_label label.now) }
        ensures party { result.party.bytes ≡ party.now }
        ensures label { result.label.bytes ≡ label.now }
    {
        Name {
            party: word(party),
            label: word(label),
        }
    }
}

/// The text of a label, in the value itself.
fn word(text: &str) -> ArrayString<MOST_BYTES>
    requires { IsTrue (is_label text.now) }
    ensures { result.bytes ≡ text.now }
{
    match ArrayString::from(text) {
        Ok(word) => word,
        Err(_) => unreachable!(),
    }
}
