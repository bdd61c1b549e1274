//! The names that rows have.

ghost use Rattle.std.specs.Prelude.{decimal};
ghost use Rattle.turn_records.specs.Printed.{named};
ghost use Rattle.turn_rows.specs.Rows.{brand_name, holder_name, instance_name, payment_name};
ghost use Rattle.turn_writer.specs.JsonRows.{IsText};

use std::alloc::{AllocError, Global};
use turn_records::data_rows::object_name;
use turn_records::host_data_lib::data::{Obj, ObjKind};
use turn_rows::rights_model_lib::Holder;

/// The name of the object of a kind and a number.
pub fn numbered_name(alloc: Global, kind: ObjKind, number: u32) -> Result<String, AllocError>
    ensures { IsText result (named kind number) }
{
    object_name(alloc, Obj { kind, number })
}

/// `brand1`
pub fn brand_text(alloc: Global, brand: u16) -> Result<String, AllocError>
    ensures { IsText result (brand_name brand) }
{
    format!(in alloc; "brand{}", brand)
}

/// `instance0`
pub fn instance_text(alloc: Global, instance: u32) -> Result<String, AllocError>
    ensures { IsText result (instance_name instance) }
{
    format!(in alloc; "instance{}", instance)
}

/// `payment3`
pub fn payment_text(alloc: Global, payment: u32) -> Result<String, AllocError>
    ensures { IsText result (payment_name payment) }
{
    format!(in alloc; "payment{}", payment)
}

/// `purse0`, `payment3`, `seat4.Price`, `hand`, `outside`
pub fn holder_text(alloc: Global, holder: &Holder) -> Result<String, AllocError>
    ensures { IsText result (holder_name holder.now) }
{
    match holder {
        Holder::Purse(number) => format!(in alloc; "purse{}", *number),
        Holder::Payment(number) => format!(in alloc; "payment{}", *number),
        Holder::Slot(seat, keyword) => format!(in alloc; "seat{}.{}", *seat, keyword.as_str()),
        Holder::Hand => String::from_str(alloc, "hand"),
        Holder::Outside => String::from_str(alloc, "outside"),
    }
}

/// A total, as a text.
pub fn decimal_text(alloc: Global, total: u128) -> Result<String, AllocError>
    ensures { IsText result (decimal total) }
{
    format!(in alloc; "{}", total)
}
