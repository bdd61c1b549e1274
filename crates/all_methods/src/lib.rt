//! The methods of all objects, as the host asks for them: of the host's own, and of those that
//! contracts' functions call.
#![tactic(auto)]

use contract_powers::call_outcomes_lib::outcomes::CallOutcome;
use contract_powers::host_world_lib::World;
use contract_powers::planner::Planner;
use host_data::data::{Data, Obj, ObjKind};
use std::alloc::Global;
use zcf_calls::escrow_calls_lib::zmint::of_zmint;
use zcf_calls::zcf::of_zcf;
use zoe_calls::services;
use zseat_calls::refusals_lib::codes::NumberCode;
use zseat_calls::refusals_lib::stops::Stop;
use zseat_calls::zseat::of_zseat;

/// All methods.
pub struct Methods {}

impl Planner for Methods {
    fn plan_service(
        alloc: Global,
        world: &World,
        target: Obj,
        method: &str,
        args: &[Data],
    ) -> Result<CallOutcome, Stop> {
        services::serve(alloc, world, target, method, args)
    }

    /// What a call of a method that an instance's function makes comes to: its first refusal, or its answer and its
    /// effects. To what doesn't stay with its instance a call has to be sent (Zoe).
    #[tactic(auto, using(crate::proofs::Targets::args_known, crate::proofs::Targets::zcf_made, crate::proofs::Targets::zseat_call, crate::proofs::Targets::zmint_made, crate::proofs::Targets::zmint_hosted), unfolding(rules::specs::Methods::serve_own))]
    fn plan_call(
        alloc: Global,
        world: &World,
        instance: u32,
        target: Obj,
        method: &str,
        args: &[Data],
    ) -> Result<CallOutcome, Stop> {
        match target.kind {
            ObjKind::Zcf => of_zcf(alloc, world, target.number, method, args),
            ObjKind::Zseat => of_zseat(alloc, world, target.number, method, args),
            ObjKind::Zmint => of_zmint(alloc, world, target.number, method, args),
            _ => Err(Stop::numbered(NumberCode::WrongObject, 0)),
        }
    }
}
