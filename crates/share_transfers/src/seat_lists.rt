//! Lists of seats in which each stands once.

ghost use Rattle.std.specs.Prelude.{◌≡◌, IfOk};
ghost use Rattle.rearrange.specs.Transfers as lists;

use std::alloc::{AllocError, Global};
use std::collections::BTreeSet;

/// Seats in the order in which they first stand, each once.
pub fn once(alloc: Global, seats: &[u32]) -> Result<Vec<u32>, AllocError>
    ensures { IfOk result (λ all. all.items ≡ lists.once seats.now) }
{
    let mut seen = BTreeSet::new(alloc);
    let mut all = Vec::new(alloc);
    for seat in seats {
        if seen.insert(*seat)? {
            all.push(*seat)?;
        }
    }
    Ok(all)
}
