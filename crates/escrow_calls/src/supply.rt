//! Whether what shares say may come out of their brand together.

ghost use Rattle.std.specs.Prelude.{◌≡◌, ◌<◌, IfOk, length, map};
ghost use Rattle.rules.specs.ertp_mint.BrandSupply.{supply_at};
ghost use Rattle.refusals.specs.Outcomes.{Gives};
ghost use Rattle.rules.specs.Zmint.{values_of};
ghost use Rattle.rules.specs.value_tests.Tests.{can_come_out};
ghost use Rattle.rules.specs.value_tests.Totals.{total_of};
ghost use Rattle.ertp_calls.specs.vault.Drafts.{IsClean};

use ertp_calls::vault_lib::draft::Draft;
use refusals::amount_math_lib::Value;
use refusals::stops::Stop;
use rules::proposals_lib::allocations::Share;
use rules::value_tests_lib::wholes::check_all_out;
use std::alloc::{AllocError, Global};

/// The values of shares.
fn values_of<'a>(alloc: Global, shares: &'a [Share]) -> Result<Vec<&'a Value>, AllocError>
    ensures { IfOk result (λ values. map (λ v. v.now) values.items ≡ values_of shares.now) }
{
    let mut values = Vec::new(alloc);
    for share in shares {
        values.push(&share.amount.value)?;
    }
    Ok(values)
}

/// That the values of shares may come out of a brand together, beside what is out of it: else `Overlap` or `TooMuch` of all
/// of them, then `TooMuch` of what was minted with them (ERTP).
pub(crate) fn check_comes_out(
    alloc: Global,
    draft: &Draft,
    brand: u16,
    shares: &[Share],
) -> Result<(), Stop>
    requires clean { IsClean draft.now }
    requires made { brand < length draft.now.now.out }
    ensures { Gives (λ _. tt) result
        (can_come_out (supply_at draft.now.now.out brand) (total_of (values_of shares.now))) }
{
    draft.valid();
    let values = values_of(alloc, shares)?;
    check_all_out(alloc, draft.supply(), brand, values.as_slice())
}
