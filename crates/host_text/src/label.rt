//! Labels by which parties name what they hold.
ghost use Rattle.std.specs.Prelude.{◌≡◌, ◌↔◌, IfOk, IfErr, IsTrue, false};
ghost use Rattle.std.specs.Str.{bytes_eq};
ghost use Rattle.host_text.specs.Words as words;

use crate::text::Text;
use crate::word::{MOST_BYTES, goes_on};
use std::alloc::{AllocError, Global};
use std::marker::Model;
use std::str;

/// Why no label was read.
#[derive(Clone, Copy, PartialEq, Eq)]
pub enum LabelFault {
    /// The text has not the form of a label.
    BadLabel,
    NoMemory,
}

/// A label (a rule of this project): `[a-z][A-Za-z0-9_]*` of 1 to 32 bytes. Contracts see it as its
/// bytes.
pub struct Label {
    text: Text,
}

impl Drop for Label {
    fn drop(self) {
        let Label { text: _ } = self;
    }
}

impl Model for Label {
    ghost use Rattle.std.specs.Prelude.{ℕ, List, IsTrue};
    ghost use Rattle.host_text.specs.Words.{is_label};

    ghost Value = { List ℕ };

    ghost view = { λ k. k.text };

    ghost invariant = { λ k. IsTrue (is_label k.text) };
}

impl Label {
    /// Whether the bytes have the form of a label.
    pub fn is_label(bytes: &[u8]) -> bool
        ensures { result ≡ words.is_label bytes.now }
    {
        match bytes {
            [] => false,
            [first, others @ ..] => {
                first.is_ascii_lowercase() && goes_on(others) && bytes.len() <= MOST_BYTES
            }
        }
    }

    /// The label that the bytes are.
    pub fn read(alloc: Global, bytes: &[u8]) -> Result<Label, LabelFault>
        ensures bytes { IfOk result (λ label. label ≡ bytes.now) }
        ensures form { IfOk result (λ _. IsTrue (words.is_label bytes.now)) }
        ensures bad { IfErr result (λ fault. (fault ≡ LabelFault.BadLabel) ↔ (words.is_label bytes.now ≡ false)) }
    {
        if !Label::is_label(bytes) {
            return Err(LabelFault::BadLabel);
        }
        let Ok(text) = str::from_utf8(bytes) else {
            unreachable!()
        };
        match Text::from_str(alloc, text) {
            Ok(text) => Ok(Label { text }),
            Err(_) => Err(LabelFault::NoMemory),
        }
    }

    pub fn copy(&self, alloc: Global) -> Result<Label, AllocError>
        ensures { IfOk result (λ copy. copy ≡ self.now) }
    {
        let text = self.text.copy(alloc)?;
        Ok(Label { text })
    }

    pub fn as_str(&self) -> &str
        ensures text { result.now ≡ self.now }
        ensures form { IsTrue (words.is_label self.now) }
    {
        self.text.as_str()
    }

    /// Whether both are one label.
    pub fn is(&self, other: &Label) -> bool
        ensures { result ≡ bytes_eq self.now other.now }
    {
        self.text.is(&other.text)
    }
}
