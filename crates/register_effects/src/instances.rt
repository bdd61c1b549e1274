//! Installations and instances.

ghost use Rattle.std.specs.Prelude.{◌≡◌, ◌<◌, ◌++◌, ◌∷◌, [], None, length, IfOk, OnOk};
ghost use Rattle.world_laws.specs.brands.IssuerRecords.{issuer_of};
ghost use Rattle.world_reads.specs.call_outcomes.Views.{starting_view};
ghost use Rattle.world_laws.specs.actors.Tables.{instance_at, started};
ghost use Rattle.world_laws.specs.host_data.View.{tree, trees};
ghost use Rattle.register_effects.specs.StoreEffects.{Becomes};
ghost use Rattle.world_reads.specs.registers.Stores.{registers_at_start, registers_now};
ghost use Rattle.world_laws.specs.turn_records.Deliveries as deliveries;
ghost use Rattle.world_laws.specs.world_state.Promises.{with_promise};
ghost use Rattle.world_laws.specs.world_state.Worlds as worlds;

use std::alloc::AllocError;
use world_laws::brands_lib::issuer_record::IssuerRecord;
use world_laws::host_data_lib::data::Data;
use world_laws::host_text_lib::keyword::Keyword;
use world_laws::jessie_grammar_lib::syntax::Module;
use world_laws::turn_records_lib::deliveries::{Delivery, Start};
use world_reads::call_outcomes_lib::effects::Starting;
use world_reads::registers_lib::Registers;
use world_reads::registers_lib::promise_table::waiting::queue_delivery;

/// A module is installed.
pub fn install(stores: &mut Registers, module: Module) -> Result<(), AllocError>
    ensures ok { OnOk result (Becomes stores.old stores.new (worlds.install «module»)) }
    ensures start { registers_at_start stores.new ≡ registers_at_start stores.old }
{
    match stores.instances.install(module) {
        Ok(_) => Ok(()),
        Err(back) => {
            drop(back);
            Err(AllocError)
        }
    }
}

/// An instance of an installation that was made is made, and answers its number.
fn make_instance(
    stores: &mut Registers,
    installation: u32,
    issuers: IssuerRecord,
    terms: Data,
) -> Result<u32, AllocError>
    requires made { installation < length (registers_now stores.old).tables.installations }
    ensures ok { OnOk result (registers_now stores.new ≡ record (registers_now stores.old) {
      tables = started installation issuers (tree terms) (registers_now stores.old).tables;
    }) }
    ensures number { IfOk result (λ number. number ≡ length (registers_now stores.old).tables.instances) }
    ensures start { registers_at_start stores.new ≡ registers_at_start stores.old }
{
    match stores.instances.start(installation, issuers, terms) {
        Ok(number) => Ok(number),
        Err(back) => {
            drop(back);
            Err(AllocError)
        }
    }
}

/// The start of an instance is to be delivered, for the next promise.
fn queue_start(
    stores: &mut Registers,
    instance: u32,
    private_arguments: Data,
) -> Result<(), AllocError>
    ensures ok { OnOk result (registers_now stores.new ≡ record (registers_now stores.old) {
      promises = with_promise None (registers_now stores.old).promises;
      waiting = (registers_now stores.old).waiting ++ deliveries.start (record {
        instance = instance;
        private_arguments = tree private_arguments;
        promise = length (registers_now stores.old).promises.settled;
      }) ∷ [];
    }) }
    ensures start { registers_at_start stores.new ≡ registers_at_start stores.old }
{
    let start = Start {
        instance,
        private_arguments,
        promise: stores.promises.made(),
    };
    queue_delivery(&mut stores.queue, Delivery::Start(start))?;
    match stores.promises.make() {
        Ok(_) => Ok(()),
        Err(_) => Err(AllocError),
    }
}

/// An instance is started, and its start is to be delivered, for the next promise.
pub fn start(stores: &mut Registers, starting: Starting) -> Result<(), AllocError>
    requires { starting.installation < length (registers_now stores.old).tables.installations }
    ensures ok { OnOk result (Becomes stores.old stores.new (worlds.start (starting_view starting))) }
    ensures start { registers_at_start stores.new ≡ registers_at_start stores.old }
{
    let Starting {
        installation,
        issuers,
        terms,
        private_arguments,
    } = starting;
    let instance = make_instance(stores, installation, issuers, terms)?;
    queue_start(stores, instance, private_arguments)
}

/// An instance keeps an issuer under a keyword.
pub fn add_issuer(
    stores: &mut Registers,
    instance: u32,
    keyword: &Keyword,
    brand: u16,
) -> Result<(), AllocError>
    requires { instance < length (registers_now stores.old).tables.instances }
    ensures ok { OnOk result (Becomes stores.old stores.new
        (worlds.add_issuer instance (issuer_of keyword.now brand))) }
    ensures start { registers_at_start stores.new ≡ registers_at_start stores.old }
{
    match stores.instances.add_issuer(instance, keyword, brand) {
        Ok(()) => Ok(()),
        Err(_) => Err(AllocError),
    }
}

/// An instance keeps an issuer under a keyword that is used up.
pub(crate) fn enter_issuer(
    stores: &mut Registers,
    instance: u32,
    keyword: Keyword,
    brand: u16,
) -> Result<(), AllocError>
    requires { instance < length (registers_now stores.old).tables.instances }
    ensures ok { OnOk result (Becomes stores.old stores.new
        (worlds.add_issuer instance (issuer_of keyword brand))) }
    ensures start { registers_at_start stores.new ≡ registers_at_start stores.old }
{
    add_issuer(stores, instance, &keyword, brand)
}

/// An instance keeps its public facet.
pub fn publish(stores: &mut Registers, instance: u32, facet: Data) -> Result<(), AllocError>
    requires { instance < length (registers_now stores.old).tables.instances }
    ensures ok { OnOk result (Becomes stores.old stores.new (worlds.publish instance (tree facet))) }
    ensures start { registers_at_start stores.new ≡ registers_at_start stores.old }
{
    match stores.instances.keep_public_facet(instance, facet) {
        Ok(()) => Ok(()),
        Err(back) => {
            drop(back);
            Err(AllocError)
        }
    }
}

/// An instance keeps its state values, as many as it had.
pub fn keep_state(
    stores: &mut Registers,
    instance: u32,
    values: Vec<Data>,
) -> Result<(), AllocError>
    requires made { instance < length (registers_now stores.old).tables.instances }
    requires as_many { length values.items
        ≡ length (instance_at (registers_now stores.old).tables.instances instance).state }
    ensures ok { OnOk result (Becomes stores.old stores.new
        (worlds.keep_state instance (trees values.items))) }
    ensures start { registers_at_start stores.new ≡ registers_at_start stores.old }
{
    match stores.instances.keep(instance, values) {
        Ok(()) => Ok(()),
        Err(back) => {
            drop(back);
            Err(AllocError)
        }
    }
}

/// An instance takes no more offers.
pub fn stop(stores: &mut Registers, instance: u32) -> Result<(), AllocError>
    requires { instance < length (registers_now stores.old).tables.instances }
    ensures ok { OnOk result (Becomes stores.old stores.new (worlds.stop instance)) }
    ensures start { registers_at_start stores.new ≡ registers_at_start stores.old }
{
    stores.instances.stop_accepting(instance)
}

/// An instance halts.
pub fn halt(stores: &mut Registers, instance: u32) -> Result<(), AllocError>
    requires { instance < length (registers_now stores.old).tables.instances }
    ensures ok { OnOk result (Becomes stores.old stores.new (worlds.halt instance)) }
    ensures start { registers_at_start stores.new ≡ registers_at_start stores.old }
{
    stores.instances.halt(instance)
}
