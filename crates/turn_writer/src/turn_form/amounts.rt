//! What the types of holders, values, shares and sums give.

ghost use Rattle.std.specs.Prelude.{◌≡◌, ◌<◌, true};
ghost use Rattle.std.specs.List.{All, AllByRecursion};
ghost use Rattle.std.specs.Str.{IsUtf8};
ghost use Rattle.turn_rows.specs.host_text.Words.{is_keyword};
ghost use Rattle.turn_records.specs.Values.{HasTexts};
ghost use Rattle.turn_rows.specs.Form.{HasHolderForm, HasSumForm};
ghost use Rattle.turn_records.specs.Tellable.{IsTellableMovement, IsTellableShare, IsTellableValue};

use turn_records::proposals_lib::allocations::Share;
use turn_rows::amount_math_lib::{Entry, Value};
use turn_rows::host_text_lib::keyword::Keyword;
use turn_rows::rights_model_lib::{Holder, Movement, Sum};

pub fn keyword_has_form(keyword: &Keyword)
    ensures { is_keyword keyword.now ≡ true }
{
    let _text = keyword.as_str();
}

fn key_is_text(entry: &Entry)
    ensures { IsUtf8 entry.now.0 }
{
    let _text = entry.key().as_str();
}

fn keys_are_texts(entries: &[Entry])
    ensures { All (λ e. IsUtf8 e.0) entries.now }
{
    for entry in entries {
        key_is_text(entry);
    }
}

fn has_texts(value: &Value)
    ensures { HasTexts value.now.content }
{
    let _kind = value.kind();
    match value.entries() {
        Some(entries) => keys_are_texts(entries),
        None => {}
    }
}

pub fn value_has_types(value: &Value)
    ensures { IsTellableValue value.now }
{
    let _kind = value.kind();
    has_texts(value);
}

fn holder_has_types(holder: &Holder)
    ensures { HasHolderForm holder.now }
{
    match holder {
        Holder::Purse(number) => {
            let _number = *number;
        }
        Holder::Payment(number) => {
            let _number = *number;
        }
        Holder::Slot(number, keyword) => {
            let _number = *number;
            keyword_has_form(keyword);
        }
        Holder::Hand => {}
        Holder::Outside => {}
    }
}

pub fn movement_has_types(movement: &Movement)
    ensures { IsTellableMovement movement.now }
{
    let _brand = movement.brand;
    holder_has_types(&movement.from);
    holder_has_types(&movement.to);
    value_has_types(&movement.value);
}

fn share_has_types(share: &Share)
    ensures { IsTellableShare share.now }
{
    keyword_has_form(&share.keyword);
    let _brand = share.amount.brand;
    value_has_types(&share.amount.value);
}

pub fn shares_have_types(shares: &[Share])
    ensures { AllByRecursion IsTellableShare shares.now }
{
    for share in shares {
        share_has_types(share);
    }
}

fn sum_has_types(sum: &Sum)
    ensures { HasSumForm sum.now }
{
    let (_brand, _minted, _burned) = (sum.brand, sum.minted, sum.burned);
    let (_purses, _payments, _slots) = (sum.purses, sum.payments, sum.slots);
}

pub fn sums_have_types(sums: &[Sum])
    ensures { AllByRecursion HasSumForm sums.now }
{
    for sum in sums {
        sum_has_types(sum);
    }
}
