//! A module as it is kept to be run, with an index of its functions by name.
ghost use Rattle.std.specs.Prelude.{◌≡◌, IfErr, IfOk, OnOk, option_copied, option_map, slice_get};
ghost use Rattle.jessie_index.specs.Index.{IsIndexOf, IsPut, first_place};
ghost use Rattle.jessie_semantics.specs.Rules.{find_routine};
ghost use Rattle.jessie_semantics.specs.jessie_grammar.Syntax.{routine, routines};

use jessie_semantics::host_text_lib::text::Text;
use jessie_semantics::jessie_grammar_lib::syntax::{Function, Module, Variable};
use std::alloc::{AllocError, Global};
use std::collections::BTreeMap;
use std::marker::Model;

/// A module with an index of its functions. Contracts see the module.
pub struct IndexedModule {
    module: Module,
    /// The place of the first function of each name.
    places: BTreeMap<String, usize>,
}

impl Drop for IndexedModule {
    fn drop(self) {
        let IndexedModule {
            module: _,
            places: _,
        } = self;
    }
}

impl Model for IndexedModule {
    ghost use Rattle.std.specs.Coded.{codes};
    ghost use Rattle.jessie_semantics.specs.jessie_grammar.contracts.syntax.Constant as constants;
    ghost use Rattle.jessie_semantics.specs.jessie_grammar.contracts.syntax.Stmt as statements;
    ghost use Rattle.jessie_semantics.specs.jessie_grammar.declared.syntax.Module.{Module};

    ghost Value = { Module };

    ghost coded = { Prim.hlevel (codes, constants.the_row.coded, statements.the_row.coded) };

    ghost use Rattle.jessie_index.specs.Index.{IsIndexOf};

    ghost view = { λ m. m.«module» };

    ghost invariant = { λ m. IsIndexOf m.«module».functions m.places };
}

/// Gives a name this place, whatever place it had.
fn put_place(
    alloc: Global,
    places: &mut BTreeMap<String, usize>,
    name: &Text,
    place: usize,
) -> Result<(), AllocError>
    ensures { OnOk result (IsPut places.old places.new name.now place) }
{
    let name = String::from_str(alloc, name.as_str())?;
    let Ok(_) = places.insert(name, place) else {
        return Err(AllocError);
    };
    Ok(())
}

/// The place of the first function of each name: the last are put first, so that those before stay.
fn places_of(alloc: Global, functions: &[Function]) -> Result<BTreeMap<String, usize>, AllocError>
    ensures { IfOk result (IsIndexOf functions.now) }
{
    let mut places = BTreeMap::new(alloc);
    let mut left = functions;
    'last: while let [others @ .., function] = left {
        put_place(alloc, &mut places, &function.name, others.len())?;
        left = others;
    }
    Ok(places)
}

/// The function at a place.
fn function_at(functions: &[Function], place: usize) -> Option<&Function>
    ensures { option_copied result ≡ slice_get functions.now place }
{
    functions.get(place)
}

impl IndexedModule {
    /// The module with an index of its functions. For want of memory it is handed back.
    pub fn new(alloc: Global, module: Module) -> Result<IndexedModule, Module>
        ensures ok { IfOk result (λ indexed. indexed ≡ «module») }
        ensures err { IfErr result (λ back. back ≡ «module») }
    {
        match places_of(alloc, module.functions.as_slice()) {
            Ok(places) => Ok(IndexedModule { module, places }),
            Err(_) => Err(module),
        }
    }

    /// The module alone.
    pub fn into_module(self) -> Module
        ensures { result ≡ self }
    {
        let IndexedModule { module, places } = self;
        drop(places);
        module
    }

    /// Its state variables, in the text's order.
    pub fn variables(&self) -> &[Variable]
        ensures { result.now ≡ self.now.variables }
    {
        self.module.variables.as_slice()
    }

    /// The place of the first function of the name.
    fn place(&self, name: &str) -> Option<usize>
        ensures { result ≡ first_place name.now self.now.functions }
    {
        self.places.get(name).copied()
    }

    /// The first function of the name.
    pub fn function(&self, name: &str) -> Option<&Function>
        ensures { option_map (λ f. routine f.now) result
            ≡ find_routine name.now (routines self.now) }
    {
        let place = self.place(name)?;
        function_at(self.module.functions.as_slice(), place)
    }
}
