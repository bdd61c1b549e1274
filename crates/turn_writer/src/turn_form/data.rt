//! What the types of data give.

ghost use Rattle.std.specs.Prelude.{◌<◌};
ghost use Rattle.std.specs.List.{AllByRecursion};
ghost use Rattle.std.specs.Str.{IsUtf8};
ghost use Rattle.turn_records.specs.host_data.View.{named_trees, tree, trees};
ghost use Rattle.turn_records.specs.promise_store.States.{settlement_view};
ghost use Rattle.turn_rows.specs.Form.{objects_end};
ghost use Rattle.turn_writer.specs.Typed.{HasDataTypes, HasFieldTypes, HasSettlementTypes, HaveDataTypes};

use turn_records::host_data_lib::data::Data;
use turn_records::promise_store_lib::Settlement;
use turn_rows::host_text_lib::text::Text;

pub fn number_has_range(number: &u32)
    ensures { number.now < objects_end }
{
    let _number = *number;
}

pub fn is_text(text: &Text)
    ensures { IsUtf8 text.now }
{
    let _text = text.as_str();
}

/// It looks at each node once.
#[cycle(nodes)]
pub fn data_has_types(data: &Data)
    ensures { HasDataTypes (tree «data».now) }
{
    match data {
        Data::Number(number) => {
            let _number = *number;
        }
        Data::Text(text) => is_text(text),
        Data::Array(items) => items_have_types(items.as_slice()),
        Data::Record(fields) => fields_have_types(fields.as_slice()),
        Data::Object(object) => number_has_range(&object.number),
        _ => {}
    }
}

#[cycle(nodes)]
pub fn items_have_types(items: &[Data])
    ensures { HaveDataTypes (trees items.now) }
{
    for item in items {
        data_has_types(item);
    }
}

#[cycle(nodes)]
fn fields_have_types(fields: &[(Text, Data)])
    ensures { AllByRecursion HasFieldTypes (named_trees fields.now) }
{
    for (_, value) in fields {
        data_has_types(value);
    }
}

pub fn settlement_has_types(settlement: &Settlement)
    ensures { HasSettlementTypes (settlement_view settlement.now) }
{
    match settlement {
        Settlement::Ok(value) => data_has_types(value),
        Settlement::Broken(reason) => data_has_types(reason),
    }
}
