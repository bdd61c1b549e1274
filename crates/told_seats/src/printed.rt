//! Values as they are printed: whether two are the same, whether one holds one element once, and copies.

ghost use Rattle.std.specs.Prelude.{◌≡◌, ◌↔◌, List, ℕ, IfOk, IsTrue, map};
ghost use Rattle.row_records.specs.Views.{amount_view, element_view, value_view};
ghost use Rattle.row_records.specs.amount_math.Content.{nothing, one_of};
ghost use Rattle.row_records.specs.fair_rows.Amounts.{IsPrinted};
ghost use Rattle.row_records.specs.fair_rows.Values.{content_of, entry_of};
ghost use Rattle.row_records.specs.turn_rows.Form.{HasValueForm};
ghost use Rattle.row_records.specs.turn_rows.declared.editions.Edition.{Edition as Editions};

use row_records::rows::{Element, KeywordAmount, PrintedValue};
use std::alloc::{AllocError, Global};

fn is_same_element(a: &Element, b: &Element) -> bool
    ensures { IsTrue result ↔ (element_view a.now ≡ element_view b.now) }
{
    match (a, b) {
        (Element::Key(a), Element::Key(b)) => a == b,
        (Element::Counted(a, m), Element::Counted(b, n)) => a == b && m == n,
        _ => false,
    }
}

fn are_same_elements(xs: &[Element], ys: &[Element]) -> bool
    ensures { IsTrue result ↔ (map element_view xs.now ≡ map element_view ys.now) }
{
    if xs.len() != ys.len() {
        return false;
    }
    for (i, x) in xs.iter().enumerate() {
        if !is_same_element(x, &ys[i]) {
            return false;
        }
    }
    true
}

pub(crate) fn is_same_value(a: &PrintedValue, b: &PrintedValue) -> bool
    ensures { IsTrue result ↔ (value_view a.now ≡ value_view b.now) }
{
    match (a, b) {
        (PrintedValue::Number(m), PrintedValue::Number(n)) => m == n,
        (PrintedValue::Elements(xs), PrintedValue::Elements(ys)) => {
            are_same_elements(xs.as_slice(), ys.as_slice())
        }
        _ => false,
    }
}

fn is_once(element: &Element) -> bool
    ensures { IsTrue result ↔ ((entry_of (element_view element.now)).1 ≡ 1) }
{
    match element {
        Element::Key(_) => true,
        Element::Counted(_, n) => *n == 1,
    }
}

/// Whether it holds some element once, and nothing else.
pub(crate) fn is_one(value: &PrintedValue) -> bool
    ensures { (e : Editions) → HasValueForm e (value_view value.now) → IsTrue result ↔ ((key : List ℕ) × (content_of (value_view value.now) ≡ one_of key)) }
{
    match value {
        PrintedValue::Number(n) => *n == 1,
        PrintedValue::Elements(elements) => match elements.as_slice() {
            [] => false,
            [element] => is_once(element),
            [_, _, ..] => false,
        },
    }
}

/// Whether it is the amount of nothing.
pub(crate) fn is_nothing(value: &PrintedValue) -> bool
    ensures { IsTrue result ↔ IsPrinted nothing (value_view value.now) }
{
    match value {
        PrintedValue::Number(n) => *n == 0,
        PrintedValue::Elements(elements) => elements.is_empty(),
    }
}

fn copy_element(element: &Element) -> Result<Element, AllocError>
    ensures { IfOk result (λ copy. element_view copy ≡ element_view element.now) }
{
    match element {
        Element::Key(key) => Ok(Element::Key(key.copy()?)),
        Element::Counted(key, n) => Ok(Element::Counted(key.copy()?, *n)),
    }
}

fn copy_elements(alloc: Global, elements: &[Element]) -> Result<Vec<Element>, AllocError>
    ensures { IfOk result (λ copies. map element_view copies.items ≡ map element_view elements.now) }
{
    let mut copies = Vec::new(alloc);
    for element in elements {
        let copy = copy_element(element)?;
        let Ok(()) = copies.push(copy) else {
            return Err(AllocError);
        };
    }
    Ok(copies)
}

fn copy_value(alloc: Global, value: &PrintedValue) -> Result<PrintedValue, AllocError>
    ensures { IfOk result (λ copy. value_view copy ≡ value_view value.now) }
{
    match value {
        PrintedValue::Number(n) => Ok(PrintedValue::Number(*n)),
        PrintedValue::Elements(elements) => {
            let copies = copy_elements(alloc, elements.as_slice())?;
            Ok(PrintedValue::Elements(copies))
        }
    }
}

pub(crate) fn copy_amount(
    alloc: Global,
    amount: &KeywordAmount,
) -> Result<KeywordAmount, AllocError>
    ensures { IfOk result (λ copy. amount_view copy ≡ amount_view amount.now) }
{
    let keyword = amount.keyword.copy(alloc)?;
    let value = copy_value(alloc, &amount.value)?;
    Ok(KeywordAmount {
        keyword,
        brand: amount.brand,
        value,
    })
}
