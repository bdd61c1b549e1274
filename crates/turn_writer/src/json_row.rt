//! An object of JSON that is made field by field, as each row is. Its one contract: the object has the
//! fields that were put, each under its name; for want of memory there is no object.

ghost use Rattle.std.specs.Prelude.{◌≡◌, [], List, ℕ};
ghost use Rattle.serde_json.specs.Data.{object, string as json_string};
ghost use Rattle.serde_json.specs.View.{view};
ghost use Rattle.turn_rows.specs.Rows.{only};
ghost use Rattle.turn_writer.specs.JsonRows.{Field, HasFields, IsJson, IsText, Puts, PutsMember, PutsNumber, PutsText, row_json};

use serde_json::{Map, Value, json, put};
use std::alloc::{AllocError, Global};

/// An object that is being made, or an error once memory was wanting.
#[derive(Drop)]
pub struct JsonRow {
    alloc: Global,
    made: Result<Map<String, Value>, AllocError>,
}

impl JsonRow {
    /// An object without fields.
    pub fn new(alloc: Global) -> JsonRow
        ensures { HasFields result [] }
    {
        JsonRow {
            alloc,
            made: Ok(Map::new(alloc)),
        }
    }

    /// Puts a field.
    pub fn value(self, name: &str, value: Result<Value, AllocError>) -> JsonRow
        ensures { Puts self (IsJson value) result name.now }
    {
        let alloc = self.alloc;
        JsonRow {
            alloc,
            made: with_field(alloc, self.made, name, value),
        }
    }

    /// Puts a field with a text.
    pub fn text(self, name: &str, text: &str) -> JsonRow
        ensures { PutsText self (λ s. text.now ≡ s) result name.now }
    {
        let value = Value::try_from_str(self.alloc, text);
        self.value(name, value)
    }

    /// Puts a field with a text that was made for it.
    pub fn string(self, name: &str, text: Result<String, AllocError>) -> JsonRow
        ensures { PutsText self (IsText text) result name.now }
    {
        self.value(name, string_value(text))
    }

    /// Puts a field with a number.
    pub fn number(self, name: &str, number: u32) -> JsonRow
        ensures { PutsNumber self number result name.now }
    {
        self.value(name, Ok(Value::from(number)))
    }

    /// The object, once its fields were put.
    pub fn finish(self) -> Result<Value, AllocError>
        ensures { (fields : List Field) → HasFields self fields → IsJson result (row_json fields) }
    {
        Ok(Value::Object(self.made?))
    }
}

fn string_value(text: Result<String, AllocError>) -> Result<Value, AllocError>
    ensures { (s : List ℕ) → IsText text s → IsJson result (json_string s) }
{
    Ok(Value::String(text?))
}

fn with_field(
    alloc: Global,
    row: Result<Map<String, Value>, AllocError>,
    name: &str,
    value: Result<Value, AllocError>,
) -> Result<Map<String, Value>, AllocError>
    ensures { PutsMember row value result name.now }
{
    let mut row = row?;
    put(&mut row, alloc, name, value?)?;
    Ok(row)
}

/// An object of one field.
pub fn only_field(alloc: Global, name: &str, value: Value) -> Result<Value, AllocError>
    ensures { IsJson result (only name.now (view value)) }
{
    json!(in alloc; {name: value})
}
