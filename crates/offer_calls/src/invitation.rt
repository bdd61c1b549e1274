//! The invitation of an offer.

ghost use Rattle.ertp_calls.specs.host_world.Worlds.{world_of};
ghost use Rattle.ertp_calls.specs.world_reads.Handed.{AreHanded};
ghost use Rattle.offer_calls.specs.Views.{invited_view};
ghost use Rattle.refusals.specs.Outcomes.{Gives, bind};
ghost use Rattle.refusals.specs.host_data.View.{trees};
ghost use Rattle.rules.specs.Zoe.{invited, inviting};
ghost use Rattle.rules.specs.GivenPayments.{is_live_in};
ghost use Rattle.rules.specs.Words.{is_offered_to};
ghost use Rattle.rules.specs.world_state.Good.{IsGoodWorld};
ghost use Rattle.std.specs.Prelude.{◌≡◌, ◌<◌, IfOk, Ok, length, true};

use ertp_calls::draft_reads_lib::payment_reads::{payment_amount, payment_brand};
use ertp_calls::host_world_lib::World;
use ertp_calls::invitations::invitation_in;
use ertp_calls::world_reads_lib::given::payment_number;
use ertp_calls::world_reads_lib::words::is_offered_to;
use refusals::codes::NumberCode;
use refusals::host_data_lib::data::Data;
use refusals::stops::Stop;

/// The payment of an invitation, and its number among all of them; and the instance that it was made by.
#[derive(Clone, Copy)]
pub struct Invited {
    pub payment: u32,
    pub invitation: u32,
    pub instance: u32,
}

/// The instance that an invitation was made by.
#[tactic(auto, using(crate::proofs::Inviting::inviting_made))]
fn instance_of(world: &World, invitation: u32) -> u32
    requires good { IsGoodWorld (world_of world.now) }
    requires made { invitation < length (world_of world.now).invitations }
    ensures is { result ≡ inviting (world_of world.now) invitation }
    ensures made { result < length (world_of world.now).tables.instances }
{
    world.registers.invitations.details(invitation).instance
}

/// The invitation of a payment, where its instance takes offers (Zoe): else `Closed`.
#[tactic(auto, unfolding(refusals::specs::Outcomes::bind))]
fn accepting_invitation(world: &World, payment: u32, invitation: u32) -> Result<Invited, Stop>
    requires good { IsGoodWorld (world_of world.now) }
    requires made { invitation < length (world_of world.now).invitations }
    ensures gives { Gives invited_view result
        (bind (is_offered_to (world_of world.now) (inviting (world_of world.now) invitation))
        (λ _. Ok (record { payment = payment; invitation = invitation }))) }
    ensures payment { IfOk result (λ by. by.payment ≡ payment) }
    ensures instance { IfOk result (λ by. by.instance ≡ inviting (world_of world.now) by.invitation) }
    ensures made { IfOk result (λ by. by.instance < length (world_of world.now).tables.instances) }
{
    let instance = instance_of(world, invitation);
    is_offered_to(world, instance)?;
    Ok(Invited {
        payment,
        invitation,
        instance,
    })
}

/// A live payment of one invitation, of which the instance takes offers (Zoe): `WrongObject` 1, `DeadPayment`,
/// `NotInvitation`, `Closed`.
#[tactic(auto, using(ertp_calls::proofs::HeldKinds::held_kind), unfolding(rules::specs::Zoe::invited, refusals::specs::Outcomes::bind, refusals::specs::Outcomes::wanted))]
pub fn read_invitation(world: &World, args: &[Data]) -> Result<Invited, Stop>
    requires good { IsGoodWorld (world_of world.now) }
    requires handed { AreHanded (world_of world.now) (trees args.now) }
    ensures gives { Gives invited_view result (invited (world_of world.now) (trees args.now)) }
    ensures payment { IfOk result (λ by. by.payment < length (world_of world.now).rights.payments) }
    ensures live { IfOk result (λ by. is_live_in (world_of world.now) by.payment ≡ true) }
    ensures instance { IfOk result (λ by. by.instance ≡ inviting (world_of world.now) by.invitation) }
    ensures made { IfOk result (λ by. by.instance < length (world_of world.now).tables.instances) }
{
    let payment = payment_number(world, 1, args)?;
    let Some(held) = payment_amount(&world.draft, payment) else {
        return Err(Stop::numbered(NumberCode::DeadPayment, payment));
    };
    let brand = payment_brand(&world.draft, payment);
    let Some(invitation) = invitation_in(world, brand, held) else {
        return Err(Stop::numbered(NumberCode::NotInvitation, payment));
    };
    accepting_invitation(world, payment, invitation)
}
