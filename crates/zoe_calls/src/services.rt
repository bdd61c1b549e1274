//! Which code serves a call of the host's own objects, by the kind of its target.

ghost use Rattle.contract_texts.specs.Reader.{reader};
ghost use Rattle.ertp_calls.specs.call_outcomes.CallOutcomes.{GivesOutcome};
ghost use Rattle.ertp_calls.specs.host_world.Worlds.{world_of};
ghost use Rattle.ertp_calls.specs.vault.Drafts.{IsClean};
ghost use Rattle.ertp_calls.specs.world_reads.Handed.{AreHanded};
ghost use Rattle.host_data.specs.View.{trees};
ghost use Rattle.rules.specs.Methods.{serve};
ghost use Rattle.rules.specs.world_state.Good.{IsGoodWorld};
ghost use Rattle.rules.specs.world_state.Known.{IsMade};

use crate::zoe::serve_zoe;
use ertp_calls::brand::serve_brand;
use ertp_calls::call_outcomes_lib::outcomes::CallOutcome;
use ertp_calls::deposit::serve_deposit;
use ertp_calls::ertp::serve_ertp;
use ertp_calls::host_world_lib::World;
use ertp_calls::mint::serve_mint;
use ertp_calls::payment::serve_payment;
use ertp_calls::purse::serve_purse;
use ertp_calls::world_reads_lib::words::without_method;
use host_data::data::{Data, Obj, ObjKind};
use issuer_calls::issuer::serve_issuer;
use refusals::stops::Stop;
use std::alloc::Global;
use user_seat_calls::seat::serve_seat;
use user_seat_calls::timer::serve_timer;

/// What a call of one of the host's own objects comes to: its first refusal, or its answer and its effects.
#[tactic(auto, using(crate::proofs::Targets::mint_made), unfolding(rules::specs::Methods::serve))]
pub fn serve(
    alloc: Global,
    world: &World,
    target: Obj,
    method: &str,
    args: &[Data],
) -> Result<CallOutcome, Stop>
    requires good { IsGoodWorld (world_of world.now) }
    requires clean { IsClean world.now.draft }
    requires made { IsMade (world_of world.now) target }
    requires handed { AreHanded (world_of world.now) (trees args.now) }
    ensures { GivesOutcome (serve reader (world_of world.now) target method.now (trees args.now)) result }
{
    match target.kind {
        ObjKind::Ertp => serve_ertp(alloc, world, method, args),
        ObjKind::Zoe => serve_zoe(alloc, world, method, args),
        ObjKind::Timer => serve_timer(alloc, world, method),
        ObjKind::Brand(_) => serve_brand(alloc, world, target.number, method, args),
        ObjKind::Issuer => serve_issuer(alloc, world, target.number, method, args),
        ObjKind::Mint => serve_mint(alloc, world, target.number, method, args),
        ObjKind::Purse => serve_purse(alloc, world, target.number, method, args),
        ObjKind::Deposit => serve_deposit(alloc, world, target.number, method, args),
        ObjKind::Payment => serve_payment(alloc, world, target.number, method),
        ObjKind::Seat => serve_seat(alloc, world, target.number, method, args),
        _ => without_method(alloc, method),
    }
}
