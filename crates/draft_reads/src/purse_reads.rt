//! Purses, by their numbers.

ghost use Rattle.std.specs.Prelude.{◌≡◌, ◌<◌, length};
ghost use Rattle.world_laws.specs.amount_math.ValueView.{IsValue};
ghost use Rattle.world_laws.specs.vault_model.Lists.{purse_at};

use vault::draft::Draft;
use world_laws::amount_math_lib::Holding;

/// How many purses were made: the number that the next one gets.
#[tactic(auto, using(crate::proofs::WorldLists::purses_counted))]
pub fn purses_made(draft: &Draft) -> u32
    ensures { result ≡ length draft.now.now.purses }
{
    draft.purses().made()
}

/// The brand of a purse.
#[tactic(auto, using(crate::proofs::WorldLists::purses_counted, crate::proofs::WorldLists::purse_read))]
pub fn purse_brand(draft: &Draft, purse: u32) -> u16
    requires { purse < length draft.now.now.purses }
    ensures { result ≡ (purse_at draft.now.now.purses purse).brand }
{
    draft.purses().brand(purse)
}

/// What a purse has.
#[tactic(auto, using(crate::proofs::WorldLists::purses_counted, crate::proofs::WorldLists::purse_read))]
pub fn purse_amount(draft: &Draft, purse: u32) -> &Holding
    requires { purse < length draft.now.now.purses }
    ensures amount { result.now.value ≡ (purse_at draft.now.now.purses purse).value }
    ensures value { IsValue result.now.value.kind result.now.value.content }
{
    draft.purses().amount(purse)
}
