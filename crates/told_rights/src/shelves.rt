//! Contents by keys: a key that has nothing isn't kept.

ghost use Rattle.std.specs.Prelude.{◌≡◌, OnOk};
ghost use Rattle.row_records.specs.amount_math.Content.{nothing};
ghost use Rattle.told_rights.specs.Shelves.{AreFilled, IsPut, content_at};

use crate::contents::Contents;
use std::alloc::{AllocError, Global};
use std::collections::BTreeMap;

/// Takes out what is at a key.
pub(crate) fn pull<K: Ord + Drop>(
    rows: &mut BTreeMap<K, Contents>,
    alloc: Global,
    key: &K,
) -> Contents
    ensures value { result ≡ content_at K.cmp rows.old.entries key.now }
    ensures gone { IsPut K.cmp rows.old.entries rows.new.entries key.now nothing }
    ensures filled { AreFilled K.cmp rows.old.entries → AreFilled K.cmp rows.new.entries }
{
    match rows.remove(key) {
        Some(contents) => contents,
        None => Contents::new(alloc),
    }
}

/// Puts contents at a key, in place of what was there.
pub(crate) fn replace<K: Ord + Drop>(
    rows: &mut BTreeMap<K, Contents>,
    key: K,
    contents: Contents,
) -> Result<(), AllocError>
    ensures ok { OnOk result (IsPut K.cmp rows.old.entries rows.new.entries key contents) }
    ensures filled { AreFilled K.cmp rows.old.entries → AreFilled K.cmp rows.new.entries }
{
    if contents.is_empty() {
        rows.remove(&key);
        return Ok(());
    }
    match rows.insert(key, contents) {
        Ok(_) => Ok(()),
        Err(_) => Err(AllocError),
    }
}
