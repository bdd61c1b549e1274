//! Data taken apart without a copy.

ghost use Rattle.std.specs.Prelude.{◌≡◌, ◌<◌, IfSome, IsNone, length, option_map, slice_index_or, slice_set, vec_len};
ghost use Rattle.host_data.specs.Tree.{list_of, text_of};
ghost use Rattle.host_data.specs.View.{tree, trees};
ghost use Rattle.jessie_values.specs.Named.{IsFirstNamed, NotBefore};
ghost use Rattle.jessie_values.specs.Accesses.{place_in};

use host_data::data::Data;
use host_data::host_text_lib::text::Text;

/// The parts of an array.
pub(crate) fn into_items(value: Data) -> Option<Vec<Data>>
    ensures { option_map (λ items. trees items.items) result ≡ list_of (tree value) }
{
    match value {
        Data::Array(items) => Some(items),
        _ => None,
    }
}

/// The text.
pub(crate) fn into_text(value: Data) -> Option<Text>
    ensures { result ≡ text_of (tree value) }
{
    match value {
        Data::Text(text) => Some(text),
        _ => None,
    }
}

/// The place of so many parts that a number names.
pub(crate) fn place_in(parts: usize, index: i128) -> Option<usize>
    ensures { result ≡ place_in parts index }
{
    let Ok(place) = usize::try_from(index) else {
        return None;
    };
    if place < parts { Some(place) } else { None }
}

/// The place of the first field of that name.
pub(crate) fn place_of(fields: &[(Text, Data)], name: &str) -> Option<usize>
    ensures found { IfSome result (IsFirstNamed name.now fields.now) }
    ensures none { IsNone result → NotBefore name.now fields.now (length fields.now) }
{
    for (place, field) in fields.iter().enumerate() {
        if field.0.as_str() == name {
            return Some(place);
        }
    }
    None
}

/// Puts a value at a place, and lets the old one go.
pub(crate) fn set_item<T: Drop>(items: &mut Vec<T>, place: usize, value: T)
    requires { place < vec_len items.old }
    ensures { items.new.items ≡ slice_set items.old.items place value }
{
    items[place] = value;
}

/// Puts a value beside what a place has first, and lets the old one go.
pub(crate) fn set_second<A, T: Drop>(pairs: &mut Vec<(A, T)>, place: usize, value: T)
    requires { place < vec_len pairs.old }
    ensures { (d : A × T) → pairs.new.items
        ≡ slice_set pairs.old.items place ((slice_index_or pairs.old.items place d).0, value) }
{
    pairs[place].1 = value;
}
