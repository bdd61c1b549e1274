//! Effects on the world, by the stores that they touch.

use crate::moves::Moves;
use refusals::host_data_lib::data::{Data, Obj};
use refusals::host_text_lib::keyword::Keyword;
use refusals::host_text_lib::label::Label;
use refusals::host_text_lib::text::Text;
use registers::brand_makers::Maker;
use registers::rights_model_lib::Movement;
use registers::turn_records_lib::deliveries::Wakeup;
use registers::turn_records_lib::events::{Call, Cause};
use rules::actors_lib::instance_store::facets::Facet;
use rules::brands_lib::Brand;
use rules::brands_lib::issuer_record::IssuerRecord;
use rules::jessie_grammar_lib::syntax::Module;
use rules::promise_store_lib::Settlement;
use rules::proposals_lib::allocations::Allocation;
use rules::proposals_lib::offers::{Exit, Proposal};
use rules::turn_stores_lib::invitations::Details;

/// An effect on rights alone.
#[derive(Drop)]
pub enum RightsEffect {
    /// An empty purse of a brand is opened.
    NewPurse(u16),
    /// A payment of nothing of a brand is made.
    EmptyPayment(u16),
    /// Movements are made together.
    Moves(Moves),
    /// Shares are staged of a seat.
    Stage(u32, Allocation),
    /// What is staged of a seat is dropped.
    Unstage(u32),
    /// All staging ends.
    EndStaging,
}

/// An offer that is made (Zoe).
#[derive(Drop)]
pub struct Offering {
    /// The invitation's number.
    pub invitation: u32,
    pub proposal: Proposal,
    /// The invitation's payment goes outside.
    pub burn: Movement,
    /// The payments go to the slots of give, in byte order of keywords.
    pub escrows: Vec<Movement>,
    /// What goes to the handler.
    pub arguments: Data,
}

/// An effect on rights and on what is kept beside them: brands, seats and invitations.
#[derive(Drop)]
pub enum SeatsEffect {
    /// A brand is made, by whom.
    NewBrand(Brand, Maker),
    /// An offer opens a seat.
    Offer(Offering),
    /// An instance opens a seat of its own, with an exit rule.
    EmptySeat(u32, Exit),
    /// A seat is left with a cause, and paid out.
    Exit(u32, Cause),
    /// An invitation is made, and the next payment is one of it.
    Invite(Details),
}

/// A call that an instance sends, for the next promise (eventual send).
#[derive(Drop)]
pub struct Sending {
    pub instance: u32,
    pub target: Obj,
    pub method: Text,
    pub arguments: Vec<Data>,
}

/// A function of an instance is to be told of a promise, for the next promise (eventual send's `when`).
#[derive(Drop)]
pub struct Asking {
    pub instance: u32,
    pub promise: u32,
    pub function: Text,
    pub held: Data,
}

/// An effect on promises, on what waits and on the timer.
#[derive(Drop)]
pub enum PromisesEffect {
    Resolve(u32, Settlement),
    Send(Sending),
    When(Asking),
    /// A function is to be called at a time.
    Wake(u64, Wakeup),
    /// The timer is set, and what is due is to be delivered.
    SetTime(u64),
}

/// An instance that is started (Zoe).
#[derive(Drop)]
pub struct Starting {
    pub installation: u32,
    pub issuers: IssuerRecord,
    pub terms: Data,
    pub private_arguments: Data,
}

/// An effect on installations and instances.
#[derive(Drop)]
pub enum InstancesEffect {
    Install(Module),
    Start(Starting),
    /// An instance keeps an issuer, by its brand, under a keyword.
    AddIssuer(u32, Keyword, u16),
    /// An instance keeps its public facet.
    Publish(u32, Data),
    /// An instance keeps its state values.
    KeepState(u32, Vec<Data>),
    /// An instance takes no more offers.
    Stop(u32),
    /// An instance of which no seat is open halts.
    Halt(u32),
}

/// An effect on facets, on labels and on the turn's log.
#[derive(Drop)]
pub enum LabelsEffect {
    MakeFacet(Facet),
    /// A party has data under a label.
    BindLabel(Label, Label, Data),
    /// A contract's call of the host was answered.
    NoteCall(Call),
}

/// An effect.
#[derive(Drop)]
pub enum Effect {
    Rights(RightsEffect),
    Seats(SeatsEffect),
    Promises(PromisesEffect),
    Instances(InstancesEffect),
    Labels(LabelsEffect),
}
