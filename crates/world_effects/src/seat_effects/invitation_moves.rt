//! The movement of an invitation that is made.

ghost use Rattle.std.specs.Prelude.{◌≡◌, IfOk};
ghost use Rattle.world_laws.specs.amount_math.Entries.{IsKey};
ghost use Rattle.world_laws.specs.turn_stores.Elements.{element};
ghost use Rattle.world_laws.specs.rights_model.Table.{movement};
ghost use Rattle.world_laws.specs.world_state.Worlds.{invitation_value};

use std::alloc::{AllocError, Global};
use world_laws::amount_math_lib::{Key, Value};
use world_laws::rights_model_lib::{Holder, Movement};
use world_laws::turn_stores_lib::invitations::element::element_text;

/// The key that an invitation is in sets, by its number.
#[tactic(auto, using(world_laws::proofs::Elements::element_is_key))]
fn invitation_key(alloc: Global, number: u32) -> Result<Key, AllocError>
    ensures key { IfOk result (λ key. key ≡ element number) }
    ensures is { IfOk result IsKey }
{
    let text = element_text(alloc, number)?;
    Ok(Key::new(String::from_str(alloc, text.as_str())?))
}

/// The value of one invitation, by its number.
fn invitation_value(alloc: Global, number: u32) -> Result<Value, AllocError>
    ensures { IfOk result (λ value. value ≡ invitation_value number) }
{
    let key = invitation_key(alloc, number)?;
    match Value::set_of_one(alloc, key) {
        Ok(value) => Ok(value),
        Err(_) => Err(AllocError),
    }
}

/// An invitation comes from outside, as a payment with the number.
pub(crate) fn invitation_move(
    alloc: Global,
    invitation: u32,
    payment: u32,
) -> Result<Movement, AllocError>
    ensures { IfOk result (λ made. made
        ≡ movement 0 Holder.Outside (Holder.Payment payment) (invitation_value invitation)) }
{
    let value = invitation_value(alloc, invitation)?;
    Ok(Movement {
        brand: 0,
        from: Holder::Outside,
        to: Holder::Payment(payment),
        value,
    })
}
