//! New payments of what slots have.

ghost use Rattle.std.specs.Prelude.{◌≡◌, ◌≤◌, ◌+◌, IfOk, length};
ghost use Rattle.rules.specs.ertp_mint.Stocks.{most_made};
ghost use Rattle.host_data.specs.View.{fields_of, named_trees, tree};
ghost use Rattle.rules.specs.rights_model.Table.{movement};
ghost use Rattle.rules.specs.world_state.Worlds.{payments_tree, payout_fields, payout_moves, payouts_from};

use ertp_calls::world_reads_lib::record_data::place;
use host_data::data::{Data, ObjKind};
use host_data::values::object_data;
use refusals::host_text_lib::text::Text;
use rules::proposals_lib::allocations::Share;
use rules::rights_model_lib::{Holder, Movement};
use std::alloc::{AllocError, Global};

/// Payments under the keywords of shares, numbered from the first, in byte order of keywords.
fn payment_fields(
    alloc: Global,
    first: u32,
    shares: &[Share],
) -> Result<Vec<(Text, Data)>, AllocError>
    requires { first + length shares.now ≤ most_made }
    ensures { IfOk result (λ made. fields_of (named_trees made.items)
        ≡ payout_fields (payouts_from first shares.now)) }
{
    let mut fields = Vec::new(alloc);
    let mut left = shares.len();
    while left > 0 {
        left -= 1;
        let payment = object_data(ObjKind::Payment, first + left as u32);
        place(alloc, &mut fields, shares[left].keyword.as_str(), payment)?;
    }
    Ok(fields)
}

/// The record from keyword to payment of new payments, of which the first has the number (Zoe).
pub fn payments_data(alloc: Global, first: u32, shares: &[Share]) -> Result<Data, AllocError>
    requires { first + length shares.now ≤ most_made }
    ensures { IfOk result (λ made. tree made ≡ payments_tree first shares.now) }
{
    Ok(Data::Record(payment_fields(alloc, first, shares)?))
}

/// What a share says goes from its slot to a payment.
fn payout(alloc: Global, seat: u32, payment: u32, share: &Share) -> Result<Movement, AllocError>
    ensures { IfOk result (λ m. m ≡ movement share.now.amount.brand (Holder.Slot seat share.now.keyword)
        (Holder.Payment payment) share.now.amount.value) }
{
    let keyword = share.keyword.copy(alloc)?;
    let value = share.amount.value.copy()?;
    Ok(Movement {
        brand: share.amount.brand,
        from: Holder::Slot(seat, keyword),
        to: Holder::Payment(payment),
        value,
    })
}

/// What each share says goes from its slot to a new payment, of which the first has the number.
pub fn payout_moves(
    alloc: Global,
    seat: u32,
    first: u32,
    shares: &[Share],
) -> Result<Vec<Movement>, AllocError>
    requires { first + length shares.now ≤ most_made }
    ensures { IfOk result (λ ms. ms.items ≡ payout_moves seat first shares.now) }
{
    let mut moves = Vec::new(alloc);
    for (place, share) in shares.iter().enumerate() {
        moves.push(payout(alloc, seat, first + place as u32, share)?)?;
    }
    Ok(moves)
}
