//! Installations and instances by number (Zoe); and, beside them, the facets that contracts make and
//! the two promises of each seat. Its one contract: each call gives the whole new tables, in which an
//! instance has a value for each state variable of its module; and a turn that goes back leaves the
//! tables as they were at its start, without memory and at the cost of what it changed. An
//! installation's module is shared, with its index, with the turns that run it.

mod changes;
pub mod facets;
mod instance;
pub mod seat_promises;

ghost use Rattle.std.specs.Prelude.{◌≡◌, ◌<◌, ◌≤◌, ◌↔◌, ◌++◌, ◌∷◌, [], IfErr, IfOk, IsOk, IsSome, IsTrue, None, OnErr, OnOk, length, map, option_map, take};
ghost use Rattle.promise_store.specs.host_data.View.{tree, trees};
ghost use Rattle.brands.specs.IssuerRecords.{brand_under, issuer_of, most_issuers};
ghost use Rattle.actors.specs.Tables.{IsIssuerRefusal, are_whole, installed, most_made, started, with_halted, with_issuer, with_public_facet, with_state, with_stopped};
ghost use Rattle.actors.specs.Changes.{AreBelow, changes_at_start, changes_now, tables_seen};

use crate::instance_store::changes::Changes;
pub use crate::instance_store::instance::Standing;
use crate::instance_store::instance::{Instance, initial_state};
use brands::host_text_lib::keyword::Keyword;
use brands::issuer_record::{IssuerFault, IssuerRecord, MOST_ISSUERS};
use jessie_index::jessie_grammar_lib::syntax::Module;
use jessie_index::jessie_module_index::IndexedModule;
use promise_store::host_data_lib::data::Data;
use std::alloc::{AllocError, Global};
use std::rc::Rc;

/// Why nothing is added.
#[derive(Clone, Copy, PartialEq, Eq)]
pub enum AddFault {
    /// 4,294,967,295 of the kind were made.
    Limit,
    NoMemory,
}

/// All installations and instances. Contracts see those at the turn's start, and those of now
/// (specs/InstanceTurns.antt).
#[derive(Drop)]
pub struct Instances {
    /// Each is shared with the turns that run it.
    installations: Vec<Rc<IndexedModule>>,
    instances: Vec<Instance>,
    /// How many installations were made at the turn's start.
    kept_installations: usize,
    /// How many instances were made at the turn's start.
    kept_instances: usize,
    changes: Changes,
    ghost installations_within: { kept_installations ≤ length installations.items },
    ghost instances_within: { kept_instances ≤ length instances.items },
    ghost few_installations: { length installations.items ≤ most_made },
    ghost few_instances: { length instances.items ≤ most_made },
    ghost made_now: { AreBelow (length instances.items) (changes_now changes) },
    ghost made_at_start: { AreBelow kept_instances (changes_at_start changes) },
    ghost whole: { IsTrue (are_whole (tables_seen (map (λ m. m.value) installations.items) (changes_now changes) instances.items)) },
    ghost whole_at_start: { IsTrue (are_whole (tables_seen (take kept_installations (map (λ m. m.value) installations.items)) (changes_at_start changes) (take kept_instances instances.items))) },
}

/// The module with an index of its functions, to be shared. For want of memory it is handed back.
fn shared(alloc: Global, module: Module) -> Result<Rc<IndexedModule>, Module>
    ensures ok { IfOk result (λ shared. shared.value ≡ «module») }
    ensures err { IfErr result (λ back. back ≡ «module») }
{
    let module = IndexedModule::new(alloc, module)?;
    match Rc::new(alloc, module) {
        Ok(shared) => Ok(shared),
        Err(failed) => Err(failed.value.into_module()),
    }
}

#[tactic(auto, using(crate::proofs::Numbered::length_numbered))]
impl Instances {
    ghost use Rattle.actors.specs.InstanceTurns.{back_at, installations_made, instances_made, instances_of, kept_at, the_instance, the_module, untouched, with_now};

    /// No installations and no instances yet.
    pub fn new(alloc: Global) -> Instances
        ensures { instances_of result ≡ untouched }
    {
        Instances {
            installations: Vec::new(alloc),
            instances: Vec::new(alloc),
            kept_installations: 0,
            kept_instances: 0,
            changes: Changes::new(alloc),
        }
    }

    /// How many installations were made: the number that the next one gets.
    pub fn installations(&self) -> u32
        ensures made { result ≡ installations_made self.now }
        ensures bounded { result ≤ most_made }
    {
        self.installations.len() as u32
    }

    /// How many instances were made: the number that the next one gets.
    pub fn made(&self) -> u32
        ensures made { result ≡ instances_made self.now }
        ensures bounded { result ≤ most_made }
    {
        self.instances.len() as u32
    }

    /// Installs a contract's text, as it was read (Zoe's install), and answers the installation's number,
    /// or hands the module back, and all is as before.
    pub fn install(&mut self, module: Module) -> Result<u32, (Module, AddFault)>
        ensures ok { OnOk result (instances_of self.new ≡ with_now (installed «module») self.old) }
        ensures number { IfOk result (λ number. number ≡ installations_made self.old) }
        ensures room { IsOk result → installations_made self.old < most_made }
        ensures limit { IfErr result (λ (_, fault). (fault ≡ AddFault.Limit) ↔ (installations_made self.old ≡ most_made)) }
        ensures back { IfErr result (λ (back, _). back ≡ «module») }
        ensures err { OnErr result (instances_of self.new ≡ instances_of self.old) }
    {
        let number = self.installations();
        if number == u32::MAX {
            return Err((module, AddFault::Limit));
        }
        if self.installations.reserve(1).is_err() {
            return Err((module, AddFault::NoMemory));
        }
        match shared(*self.installations.allocator(), module) {
            Ok(module) => {
                self.installations.push_reserved(module);
                Ok(number)
            }
            Err(module) => Err((module, AddFault::NoMemory)),
        }
    }

    /// The module of an installation.
    pub fn module(&self, installation: u32) -> &IndexedModule
        requires { installation < installations_made self.now }
        ensures { result.now ≡ the_module self.now installation }
    {
        self.installations[installation as usize].as_ref()
    }

    /// The module of an installation, shared: no part of it is copied.
    pub fn shared_module(&self, installation: u32) -> Result<Rc<IndexedModule>, AllocError>
        requires { installation < installations_made self.now }
        ensures { IfOk result (λ shared. shared.value ≡ the_module self.now installation) }
    {
        self.installations[installation as usize].clone()
    }

    /// Starts an installation (Zoe's startInstance), and answers the instance's number, or hands back what
    /// it was given, and all is as before. The instance has the state that its module's text gives, accepts
    /// offers, and its start has not run.
    pub fn start(
        &mut self,
        installation: u32,
        issuers: IssuerRecord,
        terms: Data,
    ) -> Result<u32, (IssuerRecord, Data, AddFault)>
        requires { installation < installations_made self.old }
        ensures ok { OnOk result (instances_of self.new ≡ with_now (started installation issuers (tree terms)) self.old) }
        ensures number { IfOk result (λ number. number ≡ instances_made self.old) }
        ensures room { IsOk result → instances_made self.old < most_made }
        ensures limit { IfErr result (λ (_, _, fault). (fault ≡ AddFault.Limit) ↔ (instances_made self.old ≡ most_made)) }
        ensures back { IfErr result (λ (issuers_back, terms_back, _). (issuers_back ≡ issuers) × (terms_back ≡ terms)) }
        ensures err { OnErr result (instances_of self.new ≡ instances_of self.old) }
    {
        let number = self.made();
        if number == u32::MAX {
            return Err((issuers, terms, AddFault::Limit));
        }
        if self.instances.reserve(1).is_err() {
            return Err((issuers, terms, AddFault::NoMemory));
        }
        let alloc = *self.instances.allocator();
        match initial_state(alloc, self.module(installation)) {
            Ok(state) => {
                self.instances.push_reserved(Instance {
                    installation,
                    issuers,
                    terms,
                    state,
                });
                Ok(number)
            }
            Err(_) => Err((issuers, terms, AddFault::NoMemory)),
        }
    }

    /// The installation of an instance, which was made.
    pub fn installation(&self, instance: u32) -> u32
        requires { instance < instances_made self.now }
        ensures number { result ≡ (the_instance self.now instance).installation }
        ensures made { result < installations_made self.now }
    {
        self.instances[instance as usize].installation
    }

    /// The terms that an instance was started with.
    pub fn terms(&self, instance: u32) -> &Data
        requires { instance < instances_made self.now }
        ensures { tree result.now ≡ (the_instance self.now instance).terms }
    {
        &self.instances[instance as usize].terms
    }

    /// The brands that an instance knows, by keyword.
    pub fn issuers(&self, instance: u32) -> &IssuerRecord
        requires { instance < instances_made self.now }
        ensures { result.now ≡ (the_instance self.now instance).issuers }
    {
        match self.changes.issuers.get(instance) {
            Some(issuers) => issuers,
            None => &self.instances[instance as usize].issuers,
        }
    }

    /// Adds a brand under a keyword to those that an instance knows (Zoe's saveIssuer). On an error all is
    /// as before.
    pub fn add_issuer(
        &mut self,
        instance: u32,
        keyword: &Keyword,
        brand: u16,
    ) -> Result<(), IssuerFault>
        requires { instance < instances_made self.old }
        ensures ok { OnOk result (instances_of self.new ≡ with_now (with_issuer instance (issuer_of keyword.now brand)) self.old) }
        ensures free { IsOk result → brand_under keyword.now (the_instance self.old instance).issuers ≡ None }
        ensures room { IsOk result → length (the_instance self.old instance).issuers < most_issuers }
        ensures refused { IfErr result (IsIssuerRefusal keyword.now (the_instance self.old instance).issuers) }
        ensures err { OnErr result (instances_of self.new ≡ instances_of self.old) }
    {
        let alloc = *self.instances.allocator();
        let issuers = extended(alloc, self.issuers(instance), keyword, brand)?;
        match self.changes.issuers.put(instance, issuers) {
            Ok(()) => Ok(()),
            Err(failed) => {
                drop(failed);
                Err(IssuerFault::NoMemory)
            }
        }
    }

    /// What the start of an instance gave as its public facet, or `None` exactly where it has not run (Zoe).
    pub fn public_facet(&self, instance: u32) -> Option<&Data>
        requires { instance < instances_made self.now }
        ensures { option_map (λ facet. tree facet.now) result ≡ (the_instance self.now instance).public_facet }
    {
        self.changes.public_facets.get(instance)
    }

    /// Keeps the public facet that the start of an instance gave, null where it gave none: the start has run.
    /// For want of memory it is handed back, and all is as before.
    pub fn keep_public_facet(&mut self, instance: u32, facet: Data) -> Result<(), Data>
        requires { instance < instances_made self.old }
        ensures ok { OnOk result (instances_of self.new ≡ with_now (with_public_facet instance (tree facet)) self.old) }
        ensures back { IfErr result (λ back. back ≡ facet) }
        ensures err { OnErr result (instances_of self.new ≡ instances_of self.old) }
    {
        match self.changes.public_facets.put(instance, facet) {
            Ok(()) => Ok(()),
            Err(failed) => Err(failed.value),
        }
    }

    /// Whether an instance accepts offers, or has halted.
    pub fn standing(&self, instance: u32) -> Standing
        requires { instance < instances_made self.now }
        ensures { result ≡ (the_instance self.now instance).standing }
    {
        match self.changes.standings.get(instance) {
            Some(standing) => *standing,
            None => Standing::Accepting,
        }
    }

    /// Halts an instance for good, or all is as before. One that has halted stays as it is.
    pub fn halt(&mut self, instance: u32) -> Result<(), AllocError>
        requires { instance < instances_made self.old }
        ensures ok { OnOk result (instances_of self.new ≡ with_now (with_halted instance) self.old) }
        ensures err { OnErr result (instances_of self.new ≡ instances_of self.old) }
    {
        match self.changes.standings.put(instance, Standing::Halted) {
            Ok(()) => Ok(()),
            Err(_) => Err(AllocError),
        }
    }

    /// Lets an instance accept no more offers (Zoe), or all is as before. One that has halted stays so.
    pub fn stop_accepting(&mut self, instance: u32) -> Result<(), AllocError>
        requires { instance < instances_made self.old }
        ensures ok { OnOk result (instances_of self.new ≡ with_now (with_stopped instance) self.old) }
        ensures err { OnErr result (instances_of self.new ≡ instances_of self.old) }
    {
        let standing = self.standing(instance).stopped();
        match self.changes.standings.put(instance, standing) {
            Ok(()) => Ok(()),
            Err(_) => Err(AllocError),
        }
    }

    /// The values of an instance's state variables, one for each of its module's, in their order.
    pub fn kept(&self, instance: u32) -> &[Data]
        requires { instance < instances_made self.now }
        ensures state { trees result.now ≡ (the_instance self.now instance).state }
        ensures whole { length result.now ≡ length (the_module self.now (the_instance self.now instance).installation).variables }
    {
        match self.changes.states.get(instance) {
            Some(state) => state.as_slice(),
            None => self.instances[instance as usize].state.as_slice(),
        }
    }

    /// Gives an instance these state values, as many as it had. For want of memory they are handed back, and
    /// all is as before.
    pub fn keep(&mut self, instance: u32, state: Vec<Data>) -> Result<(), Vec<Data>>
        requires made { instance < instances_made self.old }
        requires as_many { length state.items ≡ length (the_instance self.old instance).state }
        ensures ok { OnOk result (instances_of self.new ≡ with_now (with_state instance (trees state.items)) self.old) }
        ensures back { IfErr result (λ back. back ≡ state) }
        ensures err { OnErr result (instances_of self.new ≡ instances_of self.old) }
    {
        match self.changes.states.put(instance, state) {
            Ok(()) => Ok(()),
            Err(failed) => Err(failed.value),
        }
    }

    /// Forgets how it was: what is now is kept.
    pub fn forget(&mut self)
        ensures { instances_of self.new ≡ kept_at (instances_of self.old) }
    {
        self.kept_installations = self.installations.len();
        self.kept_instances = self.instances.len();
        self.changes.forget();
    }

    /// Goes back to how it was at the turn's start (our own: a turn that fails leaves nothing).
    pub fn back(&mut self)
        ensures { instances_of self.new ≡ back_at (instances_of self.old) }
    {
        self.installations.truncate(self.kept_installations);
        self.instances.truncate(self.kept_instances);
        self.changes.back();
    }
}

/// The brands of an issuer record, with one under a further keyword.
fn extended(
    alloc: Global,
    issuers: &IssuerRecord,
    keyword: &Keyword,
    brand: u16,
) -> Result<IssuerRecord, IssuerFault>
    ensures ok { IfOk result (λ more. more ≡ issuers.now ++ issuer_of keyword.now brand ∷ []) }
    ensures free { IsOk result → brand_under keyword.now issuers.now ≡ None }
    ensures room { IsOk result → length issuers.now < most_issuers }
    ensures refused { IfErr result (IsIssuerRefusal keyword.now issuers.now) }
{
    if issuers.get(keyword).is_some() {
        return Err(IssuerFault::KeywordTaken);
    }
    if issuers.len() >= MOST_ISSUERS {
        return Err(IssuerFault::Limit);
    }
    let Ok(keyword) = keyword.copy(alloc) else {
        return Err(IssuerFault::NoMemory);
    };
    let Ok(more) = issuers.copy() else {
        drop(keyword);
        return Err(IssuerFault::NoMemory);
    };
    added(more, keyword, brand)
}

/// An issuer record that has room, with a brand under a keyword that isn't there.
fn added(issuers: IssuerRecord, keyword: Keyword, brand: u16) -> Result<IssuerRecord, IssuerFault>
    requires free { brand_under keyword issuers ≡ None }
    requires room { length issuers < most_issuers }
    ensures ok { IfOk result (λ more. more ≡ issuers ++ issuer_of keyword brand ∷ []) }
    ensures memory { IfErr result (λ fault. fault ≡ IssuerFault.NoMemory) }
{
    let mut more = issuers;
    match more.add(keyword, brand) {
        Ok(()) => Ok(more),
        Err(refused) => {
            drop(refused);
            drop(more);
            Err(IssuerFault::NoMemory)
        }
    }
}
