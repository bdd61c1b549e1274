//! What a turn's draft stages of seats. Its one contract: each call makes of what is staged what the
//! world's effect of that name makes of it; all else is as it was; that staging ends takes no memory,
//! and costs what was staged.

ghost use Rattle.std.specs.Prelude.{◌≡◌, None, Some, map, slice_set, OnOk};
ghost use Rattle.draft_reads.specs.Views.{CanGoBack, HasNow, rights_in, seats_in, staging_in};
ghost use Rattle.draft_reads.specs.vault.Drafts.{IsClean};
ghost use Rattle.draft_reads.specs.world_state.Worlds.{IsOpen, no_shares, seat_at};

use draft_reads::proposals_lib::allocations::Allocation;
use draft_reads::seats_lib::StageFault;
use draft_reads::vault_lib::draft::Draft;
use std::alloc::AllocError;

/// Stages shares of an open seat, in place of what was.
pub fn stage(draft: &mut Draft, seat: u32, shares: Allocation) -> Result<(), AllocError>
    requires clean { IsClean draft.old }
    requires is_open { IsOpen (seat_at (seats_in draft.old) seat) }
    ensures ok { OnOk result (HasNow draft.new (rights_in draft.old) (seats_in draft.old)
        (slice_set (staging_in draft.old) seat (Some shares))) }
    ensures back { CanGoBack draft.old draft.new }
{
    draft.valid();
    match draft.stage(seat, shares) {
        Ok(()) => return Ok(()),
        Err((_, fault)) => return Err(want_of_memory(fault)),
    }
}

/// The want of memory, for which alone nothing is staged of an open seat.
fn want_of_memory(_fault: StageFault) -> AllocError
    requires { _fault ≡ StageFault.NoMemory }
{
    AllocError
}

/// Lets go of what is staged of a seat, if something is.
pub fn unstage(draft: &mut Draft, seat: u32)
    requires clean { IsClean draft.old }
    ensures now { HasNow draft.new (rights_in draft.old) (seats_in draft.old)
        (slice_set (staging_in draft.old) seat None) }
    ensures back { CanGoBack draft.old draft.new }
{
    draft.valid();
    draft.seats().staged_are_open();
    if seat >= draft.seats().made() {
        return;
    }
    if draft.seats().is_open(seat) {
        let _ = draft.unstage(seat);
    }
}

/// Lets go of all that is staged.
pub fn end_staging(draft: &mut Draft)
    requires clean { IsClean draft.old }
    ensures now { HasNow draft.new (rights_in draft.old) (seats_in draft.old)
        (map no_shares (staging_in draft.old)) }
    ensures back { CanGoBack draft.old draft.new }
{
    draft.valid();
    draft.end_staging();
}
