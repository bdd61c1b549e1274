//! Values, amounts and holders.

ghost use Rattle.std.specs.Prelude.{◌≡◌, ◌≢◌, ◌↔◌, ◌<◌, ◌≤◌, ◌^◌, ◌++◌, ℕ, List, codes, decimal, map, option_map, true, IfSome, IsNone, IsTrue};
ghost use Rattle.std.specs.List.{AllByRecursion};
ghost use Rattle.serde_json.specs.Data as json;
ghost use Rattle.serde_json.specs.View.{items_view, members_view, view};
ghost use Rattle.row_reader.specs.Reads.{Reads};
ghost use Rattle.row_reader.specs.Amounts as spec;
ghost use Rattle.turn_rows.specs.host_text.Words.{is_keyword};
ghost use Rattle.row_records.specs.Views.{amount_view, element_view, payout_view, value_view};
ghost use Rattle.turn_records.specs.Printed.{printed_rule};
ghost use Rattle.turn_rows.specs.Editions as editions;
ghost use Rattle.turn_rows.specs.Form.{AreAmounts, AreElements, HasAmountForm, HasElementForm, HasExitRuleForm, HasHolderForm, HasValueForm, IsKey, brands_end, objects_end};
ghost use Rattle.turn_rows.specs.Rows.{amounts_json, brand_name, element_json, elements_json, exit_rule_json, holder_name, number_json, only, payouts_json, value_json};

use crate::fault::RowFault;
use crate::fields::{has_names, member, only_member, push};
use row_forms::names::{BRANDS_END, OBJECTS_END, number_after};
use row_forms::numbers::decimal_in;
use row_records::rows::{Element, KeywordAmount, PrintedValue};
use serde_json::{Map, Value};
use std::alloc::Global;
use std::cmp::Ordering;
use turn_records::events::Payout;
use turn_records::proposals_lib::offers::Exit;
use turn_rows::amount_math_lib::Key;
use turn_rows::editions::Edition;
use turn_rows::host_text_lib::keyword::Keyword;
use turn_rows::rights_model_lib::Holder;

/// Numbers from here on are printed as texts.
const PLAIN_END: u128 = 1 << 63;

/// The most elements of a set or a bag.
const MOST_KEYS: usize = 4096;

/// The most bytes of a key.
const MOST_KEY_BYTES: usize = 64;

/// Nat values are below it.
fn nat_end(edition: Edition) -> u128
    ensures { result ≡ editions.nat_end edition }
{
    match edition {
        Edition::First => 1 << 63,
        Edition::Second => 1 << 120,
    }
}

/// The text of the one member, where that has the name.
fn marked<'a>(value: &'a Value, mark: &str) -> Option<&'a str>
    ensures { option_map (λ text. text.now) result ≡ spec.marked mark.now (view value.now) }
{
    let (name, value) = only_member(value)?;
    if name == mark { value.as_str() } else { None }
}

/// The number that is written as `{"#":decimal}`, from 2^63 on.
fn wide_number(value: &Value) -> Result<u128, RowFault>
    ensures { Reads (λ n. only (codes "#") (json.string (decimal n)))
        (λ n. (2 ^ 63 ≤ n) × (n < 2 ^ 128)) (λ n. n) (view value.now) result }
{
    let Some(text) = marked(value, "#") else {
        return Err(RowFault::BadRow);
    };
    match decimal_in(text) {
        Some(number) if number >= PLAIN_END => Ok(number),
        _ => Err(RowFault::BadRow),
    }
}

/// The number that is written plainly below 2^63, and as `{"#":decimal}` from there on.
fn number_in(value: &Value) -> Result<u128, RowFault>
    ensures { Reads number_json (λ n. n < 2 ^ 128) (λ n. n) (view value.now) result }
{
    match value.as_u64() {
        Some(plain) if u128::from(plain) < PLAIN_END => Ok(u128::from(plain)),
        _ => wide_number(value),
    }
}

/// The number of a row, below the end.
pub fn printed_number(value: &Value, end: u128) -> Result<u128, RowFault>
    ensures { Reads number_json (λ n. n < end) (λ n. n) (view value.now) result }
{
    let number = number_in(value)?;
    if number < end {
        Ok(number)
    } else {
        Err(RowFault::BadRow)
    }
}

/// The number in the name of a brand.
pub fn brand_named(name: &str) -> Result<u16, RowFault>
    ensures { Reads brand_name (λ n. n < brands_end) (λ n. n) name.now result }
{
    match number_after("brand", BRANDS_END, name) {
        Some(number) => Ok(number as u16),
        None => Err(RowFault::BadRow),
    }
}

/// The number behind the word of an object's name.
pub fn object_named(word: &str, name: &str) -> Result<u32, RowFault>
    ensures { Reads (λ n. word.now ++ decimal n) (λ n. n < objects_end) (λ n. n) name.now result }
{
    match number_after(word, OBJECTS_END, name) {
        Some(number) => Ok(number as u32),
        None => Err(RowFault::BadRow),
    }
}

/// The text as a keyword.
fn keyword_of(alloc: Global, text: &str) -> Result<Keyword, RowFault>
    ensures { Reads (λ keyword. keyword) (λ keyword. is_keyword keyword ≡ true)
        (λ keyword. keyword) text.now result }
{
    if !Keyword::is_keyword(text.as_bytes()) {
        return Err(RowFault::BadRow);
    }
    match Keyword::read(alloc, text.as_bytes()) {
        Ok(keyword) => Ok(keyword),
        Err(_) => Err(RowFault::NoMemory),
    }
}

/// The text as a key, of 1 to 64 bytes.
fn key_of(alloc: Global, text: &str) -> Result<Key, RowFault>
    ensures { Reads (λ key. key) IsKey (λ key. key) text.now result }
{
    if text.len() == 0 || text.len() > MOST_KEY_BYTES {
        return Err(RowFault::BadRow);
    }
    let text = String::from_str(alloc, text)?;
    Ok(Key::new(text))
}

/// `["key",count]`
fn counted_of(alloc: Global, pair: &[Value]) -> Result<Element, RowFault>
    ensures { Reads element_json HasElementForm element_view
        (json.array (items_view pair.now)) result }
{
    if pair.len() != 2 {
        return Err(RowFault::BadRow);
    }
    let Some(key) = pair[0].as_str() else {
        return Err(RowFault::BadRow);
    };
    let count = printed_number(&pair[1], PLAIN_END)?;
    if count == 0 {
        return Err(RowFault::BadRow);
    }
    let key = key_of(alloc, key)?;
    Ok(Element::Counted(key, count as u64))
}

/// `"key"`, or `["key",count]`
fn element_of(alloc: Global, value: &Value) -> Result<Element, RowFault>
    ensures { Reads element_json HasElementForm element_view (view value.now) result }
{
    if let Some(key) = value.as_str() {
        let key = key_of(alloc, key)?;
        return Ok(Element::Key(key));
    }
    match value.as_array() {
        Some(pair) => counted_of(alloc, pair.as_slice()),
        None => Err(RowFault::BadRow),
    }
}

/// Whether an element may follow another: both of a set or both of a bag, and its key comes later.
fn follows(last: &Element, next: &Element) -> bool
    ensures { IsTrue result ↔ spec.Follows (element_view last.now) (element_view next.now) }
{
    match (last, next) {
        (Element::Key(last), Element::Key(next)) => last.compare(next) == Ordering::Less,
        (Element::Counted(last, _), Element::Counted(next, _)) => {
            last.compare(next) == Ordering::Less
        }
        _ => false,
    }
}

/// Whether they are all of a set or all of a bag, in byte order of their keys.
fn are_in_order(elements: &[Element]) -> bool
    ensures { IsTrue result ↔ spec.AreInOrder (map element_view elements.now) }
{
    match elements {
        [first, rest @ ..] => match rest.first() {
            Some(next) => follows(first, next) && are_in_order(rest),
            None => true,
        },
        [] => true,
    }
}

/// The elements, in whatever order.
fn elements_in(alloc: Global, items: &[Value]) -> Result<Vec<Element>, RowFault>
    ensures { Reads spec.elements_list (AllByRecursion HasElementForm)
        (λ es. map element_view es.items) (map view items.now) result }
{
    let mut elements = Vec::new(alloc);
    for item in items {
        let element = element_of(alloc, item)?;
        push(&mut elements, element)?;
    }
    Ok(elements)
}

/// At most 4,096 keys, all of a set or all of a bag, in byte order.
fn elements_of(alloc: Global, items: &[Value]) -> Result<Vec<Element>, RowFault>
    ensures { Reads elements_json AreElements (λ es. map element_view es.items)
        (items_view items.now) result }
{
    if items.len() > MOST_KEYS {
        return Err(RowFault::BadRow);
    }
    let elements = elements_in(alloc, items)?;
    if are_in_order(elements.as_slice()) {
        Ok(elements)
    } else {
        Err(RowFault::BadRow)
    }
}

/// A number, or the elements of a set or a bag.
pub fn value_of(alloc: Global, edition: Edition, value: &Value) -> Result<PrintedValue, RowFault>
    ensures { Reads value_json (HasValueForm edition) value_view (view value.now) result }
{
    match value.as_array() {
        Some(items) => {
            let elements = elements_of(alloc, items.as_slice())?;
            Ok(PrintedValue::Elements(elements))
        }
        None => {
            let number = printed_number(value, nat_end(edition))?;
            Ok(PrintedValue::Number(number))
        }
    }
}

/// `{"@":"brand1"}`
pub fn brand_marked(value: &Value) -> Result<u16, RowFault>
    ensures { Reads (λ n. only (codes "@") (json.string (brand_name n)))
        (λ n. n < brands_end) (λ n. n) (view value.now) result }
{
    match marked(value, "@") {
        Some(name) => brand_named(name),
        None => Err(RowFault::BadRow),
    }
}

/// `{"brand":{"@":"brand1"},"value":5}`, under its keyword.
fn amount_of(
    alloc: Global,
    edition: Edition,
    keyword: &str,
    value: &Value,
) -> Result<KeywordAmount, RowFault>
    ensures { Reads spec.amount_pair (HasAmountForm edition) amount_view
        (keyword.now, view value.now) result }
{
    let Some(members) = value.as_object() else {
        return Err(RowFault::BadRow);
    };
    if !has_names(members, &["brand", "value"]) {
        return Err(RowFault::BadRow);
    }
    let Some(brand) = member(members, "brand") else {
        return Err(RowFault::BadRow);
    };
    let Some(value) = member(members, "value") else {
        return Err(RowFault::BadRow);
    };
    let brand = brand_marked(brand)?;
    let keyword = keyword_of(alloc, keyword)?;
    let value = value_of(alloc, edition, value)?;
    Ok(KeywordAmount {
        keyword,
        brand,
        value,
    })
}

/// The amounts under their keywords, which stand in byte order.
pub fn amounts_of(
    alloc: Global,
    edition: Edition,
    members: &Map<String, Value>,
) -> Result<Vec<KeywordAmount>, RowFault>
    ensures { Reads amounts_json (AreAmounts edition) (λ rs. map amount_view rs.items)
        (members_view members.now.entries) result }
{
    let mut amounts = Vec::new(alloc);
    for (keyword, value) in members.iter() {
        let amount = amount_of(alloc, edition, keyword.as_str(), value)?;
        push(&mut amounts, amount)?;
    }
    Ok(amounts)
}

/// What stands behind `seat`.
fn behind_seat(name: &str) -> Option<&str>
    ensures some { IfSome result (λ rest. name.now ≡ codes "seat" ++ rest.now) }
    ensures none { IsNone result → (rest : List ℕ) → name.now ≢ codes "seat" ++ rest }
{
    name.strip_prefix("seat")
}

/// The slot `4.Price`, which stands behind `seat`.
fn slot_of(alloc: Global, text: &str) -> Result<Holder, RowFault>
    ensures { Reads holder_name HasHolderForm (λ h. h) (codes "seat" ++ text.now) result }
{
    let Some((seat, keyword)) = text.split_once('.') else {
        return Err(RowFault::BadRow);
    };
    let seat = object_named("", seat)?;
    let keyword = keyword_of(alloc, keyword)?;
    Ok(Holder::Slot(seat, keyword))
}

/// `purse0`, `payment3`, `seat4.Price`, `hand`, `outside`
pub fn holder_of(alloc: Global, name: &str) -> Result<Holder, RowFault>
    ensures { Reads holder_name HasHolderForm (λ h. h) name.now result }
{
    if name == "hand" {
        return Ok(Holder::Hand);
    }
    if name == "outside" {
        return Ok(Holder::Outside);
    }
    if let Some(slot) = behind_seat(name) {
        return slot_of(alloc, slot);
    }
    if let Some(purse) = number_after("purse", OBJECTS_END, name) {
        return Ok(Holder::Purse(purse as u32));
    }
    match number_after("payment", OBJECTS_END, name) {
        Some(payment) => Ok(Holder::Payment(payment as u32)),
        None => Err(RowFault::BadRow),
    }
}

/// The rule that a word alone stands for.
fn rule_named(word: &str) -> Result<Exit, RowFault>
    ensures { Reads exit_rule_json HasExitRuleForm printed_rule (json.string word.now) result }
{
    match word {
        "onDemand" => Ok(Exit::OnDemand),
        "waived" => Ok(Exit::Waived),
        _ => Err(RowFault::BadRow),
    }
}

/// `"onDemand"`, `"waived"`, or `{"afterDeadline":t}`
pub fn exit_rule_of(value: &Value) -> Result<Exit, RowFault>
    ensures { Reads exit_rule_json HasExitRuleForm printed_rule (view value.now) result }
{
    if let Some(word) = value.as_str() {
        return rule_named(word);
    }
    let Some((name, time)) = only_member(value) else {
        return Err(RowFault::BadRow);
    };
    if name != "afterDeadline" {
        return Err(RowFault::BadRow);
    }
    let time = printed_number(time, PLAIN_END)?;
    Ok(Exit::AfterDeadline(time as u64))
}

/// The name of a payment, under its keyword.
fn payout_of(alloc: Global, keyword: &str, name: &Value) -> Result<Payout, RowFault>
    ensures { Reads spec.payout_pair spec.HasPayoutForm payout_view
        (keyword.now, view name.now) result }
{
    let Some(name) = name.as_str() else {
        return Err(RowFault::BadRow);
    };
    let payment = object_named("payment", name)?;
    let keyword = keyword_of(alloc, keyword)?;
    Ok(Payout { keyword, payment })
}

/// The names of payments under their keywords, which stand in byte order.
pub fn payouts_of(alloc: Global, members: &Map<String, Value>) -> Result<Vec<Payout>, RowFault>
    ensures { Reads payouts_json spec.ArePayouts (λ ps. map payout_view ps.items)
        (members_view members.now.entries) result }
{
    let mut payouts = Vec::new(alloc);
    for (keyword, name) in members.iter() {
        let payout = payout_of(alloc, keyword.as_str(), name)?;
        push(&mut payouts, payout)?;
    }
    Ok(payouts)
}

/// Whether no keyword stands in both.
pub fn are_apart(give: &Map<String, Value>, want: &Map<String, Value>) -> bool
    ensures { IsTrue result
        ↔ spec.AreApart (members_view give.now.entries) (members_view want.now.entries) }
{
    for (keyword, _) in give.iter() {
        if member(want, keyword.as_str()).is_some() {
            return false;
        }
    }
    true
}
