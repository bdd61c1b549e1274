//! The lines of a demonstration: two parties swap, step by step, for amounts that are drawn from a number.

ghost use Rattle.std.specs.Prelude.{◌≡◌, codes, false};
ghost use Rattle.serde_json.specs.Data as json;
ghost use Rattle.serde_json.specs.View.{items_view, view};
ghost use Rattle.serde_json.specs.Written.{has_float};
ghost use Rattle.turn_rows.specs.Rows.{only};
ghost use Rattle.turn_rows.specs.Texts.{row_text};
ghost use Rattle.sample_contracts.specs.Made.{Adds, IsJson, IsText, draw_view, side_view};
ghost use Rattle.sample_contracts.specs.Demo.{amount, answering_lines, asset, call, demo_text, drawn, exit, first_offer, first_mint, gift, invitation_gift, kit, lines_text, next_number, numbered, object, one, opening_lines, price, question, result_question, run, second_mint, second_offer, setup, side, start, terms};
ghost use Rattle.sample_contracts.specs.Samples.{swap_text};

use crate::samples::SWAP;
use serde_json::{Value, json};
use std::alloc::{AllocError, Global};

/// What a step is drawn.
#[derive(Clone, Copy)]
pub struct Draw {
    /// What the first party gives, and what it wants.
    pub gives: u64,
    pub wants: u64,
    /// What the second one pays.
    pub pays: u64,
}

/// So much of a brand, under a keyword.
#[derive(Clone, Copy)]
pub struct Side<'a> {
    pub keyword: &'a str,
    pub brand: &'a str,
    pub number: u64,
}

fn next_number(x: u64) -> u64
    ensures { result ≡ next_number x }
{
    x.wrapping_mul(6_364_136_223_846_793_005)
        .wrapping_add(1_442_695_040_888_963_407)
}

fn amounts_drawn(x: u64) -> Draw
    ensures { draw_view result ≡ drawn x }
{
    let drawn = x >> 32;
    Draw {
        gives: 1 + drawn % 9,
        wants: 1 + drawn / 16 % 9,
        pays: 1 + drawn / 256 % 9,
    }
}

fn asset(number: u64) -> Side<'static>
    ensures { side_view result ≡ asset number }
{
    Side {
        keyword: "Asset",
        brand: "m.brand",
        number,
    }
}

fn price(number: u64) -> Side<'static>
    ensures { side_view result ≡ price number }
{
    Side {
        keyword: "Price",
        brand: "s.brand",
        number,
    }
}

/// `k0`, `t12`: a label of a step.
fn numbered(alloc: Global, word: &str, step: u32) -> Result<String, AllocError>
    ensures { IsText result (numbered word.now step) }
{
    format!(in alloc; "{}{}", word, step)
}

fn object(alloc: Global, path: &str) -> Result<Value, AllocError>
    ensures { IsJson result (object path.now) }
{
    json!(in alloc; {"@": path})
}

/// So much of a brand.
fn amount(alloc: Global, brand: &str, number: u64) -> Result<Value, AllocError>
    ensures { IsJson result (amount brand.now number) }
{
    json!(in alloc; {"brand": object(alloc, brand)?, "value": number})
}

fn side_value(alloc: Global, given: Side<'_>) -> Result<Value, AllocError>
    ensures { IsJson result (side (side_view given.entry)) }
{
    let Side {
        keyword,
        brand,
        number,
    } = given;
    json!(in alloc; {keyword: amount(alloc, brand, number)?})
}

/// A call whose answer gets a label.
fn call(
    alloc: Global,
    by: &str,
    on: &str,
    method: &str,
    arguments: Value,
    label: &str,
) -> Result<Value, AllocError>
    ensures { IsJson result (call by.now on.now method.now (view arguments) label.now) }
{
    json!(in alloc; {"args": arguments, "as": label, "by": by, "do": method, "on": on})
}

fn question(alloc: Global, on: &str, label: &str) -> Result<Value, AllocError>
    ensures { IsJson result (question (codes "a") on.now (codes "getOfferResult") label.now) }
{
    json!(in alloc; {"as": label, "by": "a", "do": "getOfferResult", "on": on})
}

/// The first party gives the second what stands there.
fn gift(alloc: Global, what: &str, label: &str) -> Result<Value, AllocError>
    ensures { IsJson result (gift what.now label.now) }
{
    json!(in alloc; {"as": label, "by": "a", "give": what, "to": "b"})
}

fn exit(alloc: Global, step: u32) -> Result<Value, AllocError>
    ensures { IsJson result (exit step) }
{
    let seat = numbered(alloc, "t", step)?;
    json!(in alloc; {"by": "a", "do": "tryExit", "on": seat.as_str()})
}

fn kit(alloc: Global, name: &str, label: &str) -> Result<Value, AllocError>
    ensures { IsJson result (kit name.now label.now) }
{
    let arguments = json!(in alloc; [name])?;
    call(alloc, "a", "ertp", "makeIssuerKit", arguments, label)
}

fn install(alloc: Global) -> Result<Value, AllocError>
    ensures { IsJson result (call (codes "a") (codes "zoe") (codes "install") (one (json.string swap_text)) (codes "swap")) }
{
    let arguments = json!(in alloc; [SWAP])?;
    call(alloc, "a", "zoe", "install", arguments, "swap")
}

/// An instance of the contract begins.
fn start(alloc: Global, step: u32) -> Result<Value, AllocError>
    ensures { IsJson result (start step) }
{
    let label = numbered(alloc, "k", step)?;
    let issuers =
        json!(in alloc; {"Asset": object(alloc, "m.issuer")?, "Price": object(alloc, "s.issuer")?})?;
    let arguments = json!(in alloc; [object(alloc, "swap")?, issuers])?;
    call(
        alloc,
        "a",
        "zoe",
        "startInstance",
        arguments,
        label.as_str(),
    )
}

/// So much of a brand, alone in a list.
fn one_amount(alloc: Global, brand: &str, number: u64) -> Result<Value, AllocError>
    ensures { IsJson result (one (amount brand.now number)) }
{
    json!(in alloc; [amount(alloc, brand, number)?])
}

/// The first party mints what it gives.
fn first_mint(alloc: Global, step: u32, draw: Draw) -> Result<Value, AllocError>
    ensures { IsJson result (first_mint step (draw_view draw)) }
{
    let label = numbered(alloc, "p", step)?;
    let arguments = one_amount(alloc, "m.brand", draw.gives)?;
    call(
        alloc,
        "a",
        "m.mint",
        "mintPayment",
        arguments,
        label.as_str(),
    )
}

/// The second party mints what it pays.
fn second_mint(alloc: Global, step: u32, draw: Draw) -> Result<Value, AllocError>
    ensures { IsJson result (second_mint step (draw_view draw)) }
{
    let label = numbered(alloc, "q", step)?;
    let arguments = one_amount(alloc, "s.brand", draw.pays)?;
    call(
        alloc,
        "b",
        "s.mint",
        "mintPayment",
        arguments,
        label.as_str(),
    )
}

/// The first party asks for what came of its offer, which is an invitation for the second.
fn result_question(alloc: Global, step: u32) -> Result<Value, AllocError>
    ensures { IsJson result (result_question step) }
{
    let seat = numbered(alloc, "t", step)?;
    let label = numbered(alloc, "r", step)?;
    question(alloc, seat.as_str(), label.as_str())
}

/// It gives the invitation to the second.
fn invitation_gift(alloc: Global, step: u32) -> Result<Value, AllocError>
    ensures { IsJson result (invitation_gift step) }
{
    let what = numbered(alloc, "r", step)?;
    let label = numbered(alloc, "v", step)?;
    gift(alloc, what.as_str(), label.as_str())
}

/// What an offer's arguments are: its invitation, what it gives and wants, and a payment of what it gives.
fn terms(
    alloc: Global,
    invitation: &str,
    give: Side<'_>,
    want: Side<'_>,
    payment: &str,
) -> Result<Value, AllocError>
    ensures { IsJson result (terms invitation.now (side_view give.entry) (side_view want.entry) payment.now) }
{
    let keyword = give.keyword;
    let paid = json!(in alloc; {keyword: object(alloc, payment)?})?;
    let proposal =
        json!(in alloc; {"give": side_value(alloc, give)?, "want": side_value(alloc, want)?})?;
    json!(in alloc; [object(alloc, invitation)?, proposal, paid])
}

/// The first party's offer.
fn first_offer(alloc: Global, step: u32, draw: Draw) -> Result<Value, AllocError>
    ensures { IsJson result (first_offer step (draw_view draw)) }
{
    let invitation = format!(in alloc; "k{}.creatorInvitation", step)?;
    let payment = numbered(alloc, "p", step)?;
    let label = numbered(alloc, "t", step)?;
    let arguments = terms(
        alloc,
        invitation.as_str(),
        asset(draw.gives),
        price(draw.wants),
        payment.as_str(),
    )?;
    call(alloc, "a", "zoe", "offer", arguments, label.as_str())
}

/// The second party's offer.
fn second_offer(alloc: Global, step: u32, draw: Draw) -> Result<Value, AllocError>
    ensures { IsJson result (second_offer step (draw_view draw)) }
{
    let invitation = numbered(alloc, "v", step)?;
    let payment = numbered(alloc, "q", step)?;
    let label = numbered(alloc, "u", step)?;
    let arguments = terms(
        alloc,
        invitation.as_str(),
        price(draw.pays),
        asset(draw.gives),
        payment.as_str(),
    )?;
    call(alloc, "b", "zoe", "offer", arguments, label.as_str())
}

/// Adds a line to the text.
#[tactic(auto, unfolding(turn_rows::specs::Texts::row_text))]
fn push(alloc: Global, text: &mut String, line: Result<Value, AllocError>) -> Result<(), AllocError>
    ensures { (d : json.Data) → IsJson line d → has_float d ≡ false → Adds result text.old text.new (row_text d) }
{
    let told = line?.to_string(alloc)?;
    text.push_str(told.as_str())?;
    text.push_str("\n")
}

/// A run line: what waits is run.
fn run(alloc: Global) -> Result<Value, AllocError>
    ensures { IsJson result run }
{
    json!(in alloc; {"run": 100_u64})
}

/// Two brands are made, the contract is installed, and the second party gets both brands.
fn push_setup(alloc: Global, text: &mut String) -> Result<(), AllocError>
    ensures { Adds result text.old text.new (lines_text setup) }
{
    push(alloc, text, kit(alloc, "moola", "m"))?;
    push(alloc, text, kit(alloc, "simoleans", "s"))?;
    push(alloc, text, install(alloc))?;
    push(alloc, text, gift(alloc, "m", "m"))?;
    push(alloc, text, gift(alloc, "s", "s"))
}

/// The first party starts an instance and makes the first offer.
fn push_opening(alloc: Global, text: &mut String, step: u32, draw: Draw) -> Result<(), AllocError>
    ensures { Adds result text.old text.new (lines_text (opening_lines step (draw_view draw))) }
{
    push(alloc, text, start(alloc, step))?;
    push(alloc, text, run(alloc))?;
    push(alloc, text, first_mint(alloc, step, draw))?;
    push(alloc, text, first_offer(alloc, step, draw))?;
    push(alloc, text, result_question(alloc, step))?;
    push(alloc, text, run(alloc))
}

/// The second party gets the invitation and makes the second offer; then the first one asks to exit.
fn push_answering(alloc: Global, text: &mut String, step: u32, draw: Draw) -> Result<(), AllocError>
    ensures { Adds result text.old text.new (lines_text (answering_lines step (draw_view draw))) }
{
    push(alloc, text, invitation_gift(alloc, step))?;
    push(alloc, text, second_mint(alloc, step, draw))?;
    push(alloc, text, second_offer(alloc, step, draw))?;
    push(alloc, text, run(alloc))?;
    push(alloc, text, exit(alloc, step))?;
    push(alloc, text, run(alloc))
}

/// The lines of a demonstration of so many steps, whose amounts are drawn from the seed.
pub fn demo_lines(alloc: Global, seed: u32, size: u32) -> Result<String, AllocError>
    ensures { IsText result (demo_text seed size) }
{
    let mut text = String::new(alloc);
    push_setup(alloc, &mut text)?;
    let mut number = u64::from(seed);
    for step in 0..size {
        number = next_number(number);
        let draw = amounts_drawn(number);
        push_opening(alloc, &mut text, step, draw)?;
        push_answering(alloc, &mut text, step, draw)?;
    }
    Ok(text)
}
