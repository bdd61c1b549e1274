//! The accesses behind a value that ask nothing of the host, each of which moves what it gives out
//! of the value.
ghost use Rattle.std.specs.Prelude.{◌≡◌};
ghost use Rattle.host_data.specs.Tree.{get};
ghost use Rattle.host_data.specs.View.{fields_of, named_trees, tree, trees};
ghost use Rattle.jessie_values.specs.Outcomes.{seen, there};
ghost use Rattle.jessie_values.specs.Accesses.{field_at, field_under, index_at, item_under, list_items};

use crate::parts::{into_items, place_in, place_of};
use crate::reasons::Reason;
use host_data::data::Data;
use host_data::host_text_lib::text::Text;

/// The field under a name.
fn take_field(mut fields: Vec<(Text, Data)>, name: &str) -> Result<Data, Reason>
    ensures { seen tree result ≡ there (get name.now (fields_of (named_trees fields.items))) }
{
    match place_of(fields.as_slice(), name) {
        Some(place) => Ok(fields.swap_remove(place).1),
        None => Err(Reason::NoField),
    }
}

/// The part at a number from 0.
fn item_under(mut items: Vec<Data>, index: &Data) -> Result<Data, Reason>
    ensures { seen tree result ≡ item_under (trees items.items) (tree index.now) }
{
    let Some(index) = index.number() else {
        return Err(Reason::WrongKind);
    };
    match place_in(items.len(), index) {
        Some(place) => Ok(items.swap_remove(place)),
        None => Err(Reason::NoField),
    }
}

fn field_under(fields: Vec<(Text, Data)>, index: &Data) -> Result<Data, Reason>
    ensures { seen tree result ≡ field_under (fields_of (named_trees fields.items)) (tree index.now) }
{
    match index.text() {
        Some(name) => take_field(fields, name.as_str()),
        None => Err(Reason::WrongKind),
    }
}

/// `.name`
pub fn field_at(target: Data, name: &str) -> Result<Data, Reason>
    ensures { seen tree result ≡ field_at name.now (tree target) }
{
    match target {
        Data::Record(fields) => take_field(fields, name),
        _ => Err(Reason::WrongKind),
    }
}

/// `[index]`: the part of an array at a number from 0, or of a record under a text.
pub fn index_at(target: Data, index: &Data) -> Result<Data, Reason>
    ensures { seen tree result ≡ index_at (tree target) (tree index.now) }
{
    match target {
        Data::Array(items) => item_under(items, index),
        Data::Record(fields) => field_under(fields, index),
        _ => Err(Reason::WrongKind),
    }
}

/// The parts of an array.
pub fn list_items(value: Data) -> Result<Vec<Data>, Reason>
    ensures { seen (λ items. trees items.items) result ≡ list_items (tree value) }
{
    match into_items(value) {
        Some(items) => Ok(items),
        None => Err(Reason::WrongKind),
    }
}
