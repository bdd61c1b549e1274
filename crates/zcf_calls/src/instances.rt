//! What an instance is asked of itself, and of what the host has one of.

ghost use Rattle.escrow_calls.specs.call_outcomes.CallOutcomes.{Reads};
ghost use Rattle.rules.specs.Zcf.{get_instance, get_invitation_issuer, get_zoe_service};

use host_data::data::{Data, ObjKind};
use host_data::values::object_data;
use refusals::stops::Stop;

/// zcf.getInstance() (Zoe).
#[tactic(auto, unfolding(rules::specs::Zcf::get_instance))]
pub fn get_instance(instance: u32) -> Result<Data, Stop>
    ensures { Reads (get_instance instance) result }
{
    Ok(object_data(ObjKind::Instance, instance))
}

/// zcf.getZoeService() (Zoe).
#[tactic(auto, unfolding(rules::specs::Zcf::get_zoe_service))]
pub fn get_zoe_service() -> Result<Data, Stop>
    ensures { Reads get_zoe_service result }
{
    Ok(object_data(ObjKind::Zoe, 0))
}

/// zcf.getInvitationIssuer() (Zoe).
#[tactic(auto, unfolding(rules::specs::Zcf::get_invitation_issuer))]
pub fn get_invitation_issuer() -> Result<Data, Stop>
    ensures { Reads get_invitation_issuer result }
{
    Ok(object_data(ObjKind::Issuer, 0))
}
