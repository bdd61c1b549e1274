//! Touched seats by their numbers.

ghost use Rattle.std.specs.Prelude.{◌≡◌, IfOk, map};
ghost use Rattle.rules.specs.call_arguments.Numbers.{AreApart};
ghost use Rattle.rearrange.specs.Moves.{by_number};

use rules::proposals_lib::plans::Touched;
use std::alloc::{AllocError, Global};

/// The touched seats, each where it stands.
fn each(alloc: Global, touched: &[Touched]) -> Result<Vec<&Touched>, AllocError>
    ensures { IfOk result (λ all. map (λ t. t.now) all.items ≡ touched.now) }
{
    let mut all = Vec::new(alloc);
    for one in touched {
        all.push(one)?;
    }
    Ok(all)
}

/// The touched seats by their numbers, of which no two are one.
pub(crate) fn by_number(alloc: Global, touched: &[Touched]) -> Result<Vec<&Touched>, AllocError>
    requires { AreApart (map (λ t. t.seat) touched.now) }
    ensures { IfOk result (λ all. map (λ t. t.now) all.items ≡ by_number touched.now) }
{
    let mut all = each(alloc, touched)?;
    all.sort_unstable_by_key(|one| one.seat);
    Ok(all)
}
