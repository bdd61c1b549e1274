//! The methods of Zoe's service: here are those that only read.

ghost use Rattle.zoe_calls.specs.Parts.{of_offering};
ghost use Rattle.contract_texts.specs.Reader.{reader};
ghost use Rattle.ertp_calls.specs.call_outcomes.CallOutcomes.{GivesOutcome, Reads};
ghost use Rattle.ertp_calls.specs.host_world.Worlds.{world_of};
ghost use Rattle.ertp_calls.specs.world_reads.Handed.{AreHanded};
ghost use Rattle.host_data.specs.Tree.{null, text};
ghost use Rattle.host_data.specs.Values.{object_tree};
ghost use Rattle.host_data.specs.View.{named_trees, tree, trees};
ghost use Rattle.refusals.specs.Codes.{not_invitation, pending};
ghost use Rattle.refusals.specs.Outcomes.{bind, wanted};
ghost use Rattle.rules.specs.Zoe.{facet_of, get_invitation_details, get_invitation_issuer, get_issuers, get_public_facet, get_terms, instance_of, invitation_in, of_zoe};
ghost use Rattle.rules.specs.GivenPayments.{payment_view_of};
ghost use Rattle.rules.specs.Records.{details_tree};
ghost use Rattle.rules.specs.Words.{has_halted};
ghost use Rattle.rules.specs.turn_stores.Details.{details_at, details_view};
ghost use Rattle.rules.specs.world_state.Good.{IsGoodWorld};
ghost use Rattle.rules.specs.world_state.Rights.{kind_at};
ghost use Rattle.std.specs.Prelude.{◌≡◌, ◌<◌, ◌++◌, ◌∷◌, [], IfOk, None, Ok, Some, if◌then◌else◌, length};

use crate::installation::install;
use crate::start::start_instance;
use brands::host_text_lib::text::Text;
use ertp_calls::call_outcomes_lib::outcomes::{CallOutcome, outcome_of_reading};
use ertp_calls::draft_reads_lib::payment_reads::{payment_amount, payment_brand};
use ertp_calls::host_world_lib::World;
use ertp_calls::invitations::invitation_in;
use ertp_calls::terms::{issuers_data, terms_data};
use ertp_calls::world_reads_lib::given::{instance_number, payment_number};
use ertp_calls::world_reads_lib::record_data::put;
use ertp_calls::world_reads_lib::words::without_method;
use host_data::data::{Data, ObjKind};
use host_data::values::object_data;
use offer_calls::offer::offer;
use refusals::amount_math_lib::Holding;
use refusals::codes::{BareCode, NumberCode};
use refusals::stops::Stop;
use rules::actors_lib::instance_store::Standing;
use rules::turn_stores_lib::invitations::Details;
use std::alloc::{AllocError, Global};

/// `zoe.getInvitationIssuer()`: that of the first brand (Zoe).
#[tactic(auto, unfolding(rules::specs::Zoe::get_invitation_issuer))]
pub fn get_invitation_issuer() -> Result<Data, Stop>
    ensures { Reads get_invitation_issuer result }
{
    Ok(object_data(ObjKind::Issuer, 0))
}

/// A record that is being made, with an object of a kind at its end.
fn with_object(
    alloc: Global,
    mut fields: Vec<(Text, Data)>,
    name: &str,
    kind: ObjKind,
    number: u32,
) -> Result<Vec<(Text, Data)>, AllocError>
    ensures { IfOk result (λ made. named_trees made.items
        ≡ named_trees fields.items ++ (name.now, object_tree kind number) ∷ []) }
{
    put(alloc, &mut fields, name, object_data(kind, number))?;
    Ok(fields)
}

/// A record of one text.
fn text_record(alloc: Global, name: &str, given: &Text) -> Result<Vec<(Text, Data)>, AllocError>
    ensures { IfOk result (λ made. named_trees made.items ≡ (name.now, text given.now) ∷ []) }
{
    let given = given.copy(alloc)?;
    let mut fields = Vec::new(alloc);
    put(alloc, &mut fields, name, Data::Text(given))?;
    Ok(fields)
}

/// The details of an invitation, as they are told (Zoe).
fn details_record(alloc: Global, details: &Details) -> Result<Data, AllocError>
    ensures { IfOk result (λ made. tree made ≡ details_tree (details_view details.now)) }
{
    let fields = text_record(alloc, "description", &details.description)?;
    let installation = details.installation;
    let fields = with_object(
        alloc,
        fields,
        "installation",
        ObjKind::Installation,
        installation,
    )?;
    let instance = details.instance;
    let fields = with_object(alloc, fields, "instance", ObjKind::Instance, instance)?;
    Ok(Data::Record(fields))
}

/// What is told of an invitation that was made (Zoe's invitation details).
fn details_data(alloc: Global, world: &World, invitation: u32) -> Result<Data, AllocError>
    requires { invitation < length (world_of world.now).invitations }
    ensures { IfOk result (λ made. tree made
        ≡ details_tree (details_at (world_of world.now).invitations invitation)) }
{
    details_record(alloc, world.registers.invitations.details(invitation))
}

/// What is told of the invitation that a live payment is of: else `NotInvitation` with its number (Zoe).
#[tactic(auto, unfolding(refusals::specs::Outcomes::bind, refusals::specs::Outcomes::wanted))]
fn details_of_payment(
    alloc: Global,
    world: &World,
    payment: u32,
    held: &Holding,
) -> Result<Data, Stop>
    requires good { IsGoodWorld (world_of world.now) }
    requires made { payment < length (world_of world.now).rights.payments }
    requires kind { held.now.value.kind
        ≡ kind_at (world_of world.now).rights.out (payment_view_of (world_of world.now) payment).brand }
    ensures { Reads (bind (wanted (invitation_in (world_of world.now)
        (payment_view_of (world_of world.now) payment).brand held.now.value) (not_invitation payment))
        (λ i. Ok (details_tree (details_at (world_of world.now).invitations i)))) result }
{
    let brand = payment_brand(&world.draft, payment);
    let Some(invitation) = invitation_in(world, brand, held) else {
        return Err(Stop::numbered(NumberCode::NotInvitation, payment));
    };
    Ok(details_data(alloc, world, invitation)?)
}

/// `zoe.getInvitationDetails(payment)` (Zoe).
#[tactic(auto, using(ertp_calls::proofs::HeldKinds::held_kind), unfolding(rules::specs::Zoe::get_invitation_details, refusals::specs::Outcomes::bind, refusals::specs::Outcomes::wanted))]
pub fn get_invitation_details(alloc: Global, world: &World, args: &[Data]) -> Result<Data, Stop>
    requires good { IsGoodWorld (world_of world.now) }
    requires handed { AreHanded (world_of world.now) (trees args.now) }
    ensures { Reads (get_invitation_details (world_of world.now) (trees args.now)) result }
{
    let payment = payment_number(world, 1, args)?;
    match payment_amount(&world.draft, payment) {
        Some(held) => details_of_payment(alloc, world, payment, held),
        None => Err(Stop::numbered(NumberCode::DeadPayment, payment)),
    }
}

/// The public facet of an instance that gave none yet: null where it has halted, else `Pending` (our own).
#[tactic(auto, unfolding(refusals::specs::Outcomes::wanted))]
fn facet_without_one(standing: Standing) -> Result<Data, Stop>
    ensures { Reads (wanted (if has_halted standing then Some null else None) pending) result }
{
    match standing {
        Standing::Halted => Ok(Data::Null),
        Standing::Accepting => Err(Stop::bare(BareCode::Pending)),
        Standing::Stopped => Err(Stop::bare(BareCode::Pending)),
    }
}

/// The public facet of an instance: that of one that has halted counts as given (Zoe; `Pending` is our own).
#[tactic(auto, unfolding(refusals::specs::Outcomes::wanted))]
fn facet_of(alloc: Global, world: &World, instance: u32) -> Result<Data, Stop>
    requires { instance < length (world_of world.now).tables.instances }
    ensures { Reads (wanted (facet_of (instance_of (world_of world.now) instance)) pending) result }
{
    match world.registers.instances.public_facet(instance) {
        Some(facet) => Ok(facet.copy(alloc)?),
        None => facet_without_one(world.registers.instances.standing(instance)),
    }
}

/// `zoe.getPublicFacet(instance)` (Zoe).
#[tactic(auto, unfolding(rules::specs::Zoe::get_public_facet, refusals::specs::Outcomes::bind))]
pub fn get_public_facet(alloc: Global, world: &World, args: &[Data]) -> Result<Data, Stop>
    requires { AreHanded (world_of world.now) (trees args.now) }
    ensures { Reads (get_public_facet (world_of world.now) (trees args.now)) result }
{
    let instance = instance_number(world, 1, args)?;
    facet_of(alloc, world, instance)
}

/// `zoe.getTerms(instance)` (Zoe).
#[tactic(auto, unfolding(rules::specs::Zoe::get_terms, refusals::specs::Outcomes::bind))]
pub fn get_terms(alloc: Global, world: &World, args: &[Data]) -> Result<Data, Stop>
    requires good { IsGoodWorld (world_of world.now) }
    requires handed { AreHanded (world_of world.now) (trees args.now) }
    ensures { Reads (get_terms (world_of world.now) (trees args.now)) result }
{
    let instance = instance_number(world, 1, args)?;
    Ok(terms_data(alloc, world, instance)?)
}

/// `zoe.getIssuers(instance)` (Zoe).
#[tactic(auto, unfolding(rules::specs::Zoe::get_issuers, refusals::specs::Outcomes::bind))]
pub fn get_issuers(alloc: Global, world: &World, args: &[Data]) -> Result<Data, Stop>
    requires { AreHanded (world_of world.now) (trees args.now) }
    ensures { Reads (get_issuers (world_of world.now) (trees args.now)) result }
{
    let instance = instance_number(world, 1, args)?;
    let issuers = world.registers.instances.issuers(instance).issuers();
    Ok(issuers_data(alloc, issuers)?)
}

/// The methods of Zoe's service that install, start and offer.
fn serve_offers(
    alloc: Global,
    world: &World,
    method: &str,
    args: &[Data],
) -> Result<CallOutcome, Stop>
    requires good { IsGoodWorld (world_of world.now) }
    requires handed { AreHanded (world_of world.now) (trees args.now) }
    ensures { GivesOutcome
        (of_offering reader (world_of world.now) method.now (trees args.now)) result }
{
    match method {
        "install" => install(alloc, world, args),
        "startInstance" => start_instance(alloc, world, args),
        "offer" => offer(alloc, world, args),
        _ => without_method(alloc, method),
    }
}

/// The methods of Zoe's service.
pub fn serve_zoe(
    alloc: Global,
    world: &World,
    method: &str,
    args: &[Data],
) -> Result<CallOutcome, Stop>
    requires good { IsGoodWorld (world_of world.now) }
    requires handed { AreHanded (world_of world.now) (trees args.now) }
    ensures { GivesOutcome (of_zoe reader (world_of world.now) method.now (trees args.now)) result }
{
    match method {
        "getInvitationIssuer" => outcome_of_reading(alloc, get_invitation_issuer()),
        "getInvitationDetails" => {
            outcome_of_reading(alloc, get_invitation_details(alloc, world, args))
        }
        "getPublicFacet" => outcome_of_reading(alloc, get_public_facet(alloc, world, args)),
        "getTerms" => outcome_of_reading(alloc, get_terms(alloc, world, args)),
        "getIssuers" => outcome_of_reading(alloc, get_issuers(alloc, world, args)),
        _ => serve_offers(alloc, world, method, args),
    }
}
