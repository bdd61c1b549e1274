//! The first fault of what a text does with names.
ghost use Rattle.std.specs.Prelude.{◌≡◌, [], ◌∷◌, ◌++◌, IfOk, OnOk};
ghost use Rattle.jessie_grammar.specs.Scopes as spec;

use crate::jessie_scopes::name_use::{Binding, NameFault, NameUse};
use crate::jessie_scopes::reserved::{is_built_in, is_reserved};
use host_text::text::Text;
use sqlite_items::Items;
use std::alloc::{AllocError, Global};

/// What stands in all that is open, the innermost last.
#[derive(Drop)]
pub enum Entry {
    /// A block, a parameter list or a record begins.
    Opening,
    /// A name that is declared there and can be read.
    Name(Text, Binding),
    /// A field of a record.
    Field(Text),
}

/// The names of the module, in the text's order.
fn globals(alloc: Global, name_uses: &[NameUse]) -> Result<Items<(Text, Binding)>, AllocError>
    ensures { IfOk result (λ found. found ≡ spec.globals name_uses.now) }
{
    let mut found = Items::new(alloc);
    let mut rest = name_uses;
    'name_uses: while let [name_use, later @ ..] = rest {
        if let NameUse::Defines(_, name, binding) = name_use {
            found.push((name.copy(alloc)?, *binding))?;
        }
        rest = later;
    }
    Ok(found)
}

fn first_of(name: &str, globals: &[(Text, Binding)]) -> Option<Binding>
    ensures { result ≡ spec.first_of name.now globals.now }
{
    let mut rest = globals;
    'globals: while let [global, later @ ..] = rest {
        if global.0.as_str() == name {
            return Some(global.1);
        }
        rest = later;
    }
    None
}

fn is_called(binding: Binding) -> bool
    ensures { result ≡ spec.is_called binding }
{
    match binding {
        Binding::Constant => false,
        Binding::Variable => false,
        Binding::Function => true,
    }
}

/// Whether a function of the module has the name.
fn is_function(name: &str, globals: &[(Text, Binding)]) -> bool
    ensures { result ≡ spec.is_function name.now globals.now }
{
    let mut rest = globals;
    'globals: while let [global, later @ ..] = rest {
        if global.0.as_str() == name && is_called(global.1) {
            return true;
        }
        rest = later;
    }
    false
}

/// Whether the name stands in the innermost after the entry, where `found` says whether it does before.
fn stands_after(name: &str, found: bool, entry: &Entry) -> bool
    ensures { result ≡ spec.stands_in name.now found (entry.now ∷ []) }
{
    match entry {
        Entry::Opening => false,
        Entry::Name(other, _) => found || other.as_str() == name,
        Entry::Field(other) => found || other.as_str() == name,
    }
}

/// Whether the name stands in the innermost of all that is open.
#[tactic(auto, using(crate::proofs::Entries::stands_more))]
fn stands(name: &str, entries: &[Entry]) -> bool
    ensures { result ≡ spec.stands name.now entries.now }
{
    let mut found = false;
    let mut rest = entries;
    'entries: while let [entry, later @ ..] = rest {
        found = stands_after(name, found, entry);
        rest = later;
    }
    found
}

/// What the name stands for after the entry, where `found` is what it stands for before.
fn last_after(name: &str, found: Option<Binding>, entry: &Entry) -> Option<Binding>
    ensures { result ≡ spec.last_of name.now found (entry.now ∷ []) }
{
    match entry {
        Entry::Opening => found,
        Entry::Name(other, binding) => {
            if other.as_str() == name {
                Some(*binding)
            } else {
                found
            }
        }
        Entry::Field(_) => found,
    }
}

/// What the name stands for, where `first` is what it stands for outside.
#[tactic(auto, using(crate::proofs::Entries::last_more))]
fn last_of(name: &str, first: Option<Binding>, entries: &[Entry]) -> Option<Binding>
    ensures { result ≡ spec.last_of name.now first entries.now }
{
    let mut found = first;
    let mut rest = entries;
    'entries: while let [entry, later @ ..] = rest {
        found = last_after(name, found, entry);
        rest = later;
    }
    found
}

fn known_binding(globals: &[(Text, Binding)], entries: &[Entry], name: &str) -> Option<Binding>
    ensures { result ≡ spec.known globals.now entries.now name.now }
{
    last_of(name, first_of(name, globals), entries)
}

fn declares(entries: &[Entry], at: usize, name: &Text) -> Option<(usize, NameFault)>
    ensures { result ≡ spec.declares entries.now at name.now }
{
    if is_reserved(name.as_str()) {
        return Some((at, NameFault::Reserved));
    }
    fills(entries, at, name)
}

fn fills(entries: &[Entry], at: usize, name: &Text) -> Option<(usize, NameFault)>
    ensures { result ≡ spec.fills entries.now at name.now }
{
    if stands(name.as_str(), entries) {
        return Some((at, NameFault::Duplicate));
    }
    None
}

fn reads(binding: Option<Binding>, at: usize) -> Option<(usize, NameFault)>
    ensures { result ≡ spec.reads binding at }
{
    match binding {
        Some(_) => None,
        None => Some((at, NameFault::Unknown)),
    }
}

fn uses(
    globals: &[(Text, Binding)],
    entries: &[Entry],
    at: usize,
    name: &Text,
) -> Option<(usize, NameFault)>
    ensures { result ≡ spec.uses globals.now entries.now at name.now }
{
    if is_reserved(name.as_str()) {
        return Some((at, NameFault::Reserved));
    }
    reads(known_binding(globals, entries, name.as_str()), at)
}

fn calls(globals: &[(Text, Binding)], at: usize, name: &Text) -> Option<(usize, NameFault)>
    ensures { result ≡ spec.calls globals.now at name.now }
{
    if is_built_in(name.as_str()) {
        return None;
    }
    if is_reserved(name.as_str()) {
        return Some((at, NameFault::Reserved));
    }
    if is_function(name.as_str(), globals) {
        return None;
    }
    Some((at, NameFault::Unknown))
}

fn writes(binding: Option<Binding>, at: usize) -> Option<(usize, NameFault)>
    ensures { result ≡ spec.writes binding at }
{
    match binding {
        Some(Binding::Variable) => None,
        Some(Binding::Constant) => Some((at, NameFault::AssignConst)),
        Some(Binding::Function) => Some((at, NameFault::AssignConst)),
        None => Some((at, NameFault::Unknown)),
    }
}

fn assigns(
    globals: &[(Text, Binding)],
    entries: &[Entry],
    at: usize,
    name: &Text,
) -> Option<(usize, NameFault)>
    ensures { result ≡ spec.assigns globals.now entries.now at name.now }
{
    if is_reserved(name.as_str()) {
        return Some((at, NameFault::Reserved));
    }
    writes(known_binding(globals, entries, name.as_str()), at)
}

fn shortens(
    globals: &[(Text, Binding)],
    entries: &[Entry],
    at: usize,
    name: &Text,
) -> Option<(usize, NameFault)>
    ensures { result ≡ spec.shortens globals.now entries.now at name.now }
{
    if is_reserved(name.as_str()) {
        return Some((at, NameFault::Reserved));
    }
    if stands(name.as_str(), entries) {
        return Some((at, NameFault::Duplicate));
    }
    reads(known_binding(globals, entries, name.as_str()), at)
}

/// What is wrong with the name use.
fn fault(
    globals: &[(Text, Binding)],
    entries: &[Entry],
    name_use: &NameUse,
) -> Option<(usize, NameFault)>
    ensures { result ≡ spec.fault globals.now entries.now name_use.now }
{
    match name_use {
        NameUse::Opens => None,
        NameUse::Closes => None,
        NameUse::Defines(at, name, _) => declares(entries, *at, name),
        NameUse::Declares(at, name) => declares(entries, *at, name),
        NameUse::Binds(_, _) => None,
        NameUse::Uses(at, name) => uses(globals, entries, *at, name),
        NameUse::Calls(at, name) => calls(globals, *at, name),
        NameUse::Assigns(at, name) => assigns(globals, entries, *at, name),
        NameUse::Field(at, name) => fills(entries, *at, name),
        NameUse::Shorthand(at, name) => shortens(globals, entries, *at, name),
    }
}

/// Leaves the innermost.
fn close(entries: &mut Items<Entry>)
    ensures { entries.new ≡ spec.around entries.old }
{
    'entries: while let Some(entry) = entries.pop() {
        if let Entry::Opening = entry {
            return;
        }
    }
}

/// A name stands there, and can be read.
fn bind(
    alloc: Global,
    name: &Text,
    binding: Binding,
    entries: &mut Items<Entry>,
) -> Result<(), AllocError>
    ensures { OnOk result (entries.new ≡ entries.old ++ Entry.Name name.now binding ∷ []) }
{
    let name = name.copy(alloc)?;
    entries.push(Entry::Name(name, binding))
}

/// A field stands there.
fn fill(alloc: Global, name: &Text, entries: &mut Items<Entry>) -> Result<(), AllocError>
    ensures { OnOk result (entries.new ≡ entries.old ++ Entry.Field name.now ∷ []) }
{
    let name = name.copy(alloc)?;
    entries.push(Entry::Field(name))
}

/// What stands after the name use.
fn follow(alloc: Global, name_use: &NameUse, entries: &mut Items<Entry>) -> Result<(), AllocError>
    ensures { OnOk result (entries.new ≡ spec.after name_use.now entries.old) }
{
    match name_use {
        NameUse::Opens => entries.push(Entry::Opening),
        NameUse::Closes => Ok(close(entries)),
        NameUse::Defines(_, name, binding) => bind(alloc, name, *binding, entries),
        NameUse::Declares(_, _) => Ok(()),
        NameUse::Binds(name, binding) => bind(alloc, name, *binding, entries),
        NameUse::Uses(_, _) => Ok(()),
        NameUse::Calls(_, _) => Ok(()),
        NameUse::Assigns(_, _) => Ok(()),
        NameUse::Field(_, name) => fill(alloc, name, entries),
        NameUse::Shorthand(_, name) => fill(alloc, name, entries),
    }
}

/// The first fault, where these are the names of the module.
#[tactic(auto, unfolding(crate::specs::Scopes::first))]
fn fault_among(
    alloc: Global,
    globals: &[(Text, Binding)],
    name_uses: &[NameUse],
) -> Result<Option<(usize, NameFault)>, AllocError>
    ensures { IfOk result (λ found. found ≡ spec.first globals.now [] name_uses.now) }
{
    let mut entries = Items::new(alloc);
    let mut rest = name_uses;
    'name_uses: while let [name_use, later @ ..] = rest {
        if let Some(found) = fault(globals, entries.as_slice(), name_use) {
            return Ok(Some(found));
        }
        follow(alloc, name_use, &mut entries)?;
        rest = later;
    }
    Ok(None)
}

/// The place and kind of the first fault of what a text does with names. The rules are this project's
/// own: of several known names the innermost counts; a call by name looks up the module's functions and
/// the built-in ones alone.
pub fn first_fault(
    alloc: Global,
    name_uses: &[NameUse],
) -> Result<Option<(usize, NameFault)>, AllocError>
    ensures { IfOk result (λ found. found ≡ spec.first_fault name_uses.now) }
{
    let defined = globals(alloc, name_uses)?;
    Ok(fault_among(alloc, defined.as_slice(), name_uses)?)
}
