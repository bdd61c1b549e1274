//! The data of the contract language: finished trees.
ghost use Rattle.std.specs.Prelude.{◌≡◌, ℕ, ◌+◌, ◌-◌, ◌≤◌, List, length, map, Bool, Option, Some, None, IfOk, option_map, nat_le, if◌then◌else◌};
ghost use Rattle.host_data.specs.Tree.{object_of, number_of, text_of, boolean_of, function_of, is_null, list_of, pairs_of, field_count, field_of, get, size, items_size, fields_size, nesting, items_nesting, fields_nesting, stays, is_local, some_local, some_local_field};
ghost use Rattle.host_data.specs.View.{tree, trees, named, named_trees, items_of, fields_of};

use amount_math::Kind;
use host_text::text::Text;
use std::alloc::{AllocError, Global};

/// What an object is.
#[derive(Clone, Copy, PartialEq, Eq)]
pub enum ObjKind {
    /// The ERTP service, which makes issuer kits.
    Ertp,
    /// The Zoe service.
    Zoe,
    /// The timer.
    Timer,
    /// A brand, with the kind of its assets.
    Brand(Kind),
    /// An issuer.
    Issuer,
    /// A mint.
    Mint,
    /// A purse.
    Purse,
    /// A purse's deposit facet.
    Deposit,
    /// A payment.
    Payment,
    /// An installed contract text.
    Installation,
    /// A started contract.
    Instance,
    /// An instance's contract facet. It stays with its instance.
    Zcf,
    /// A user's seat.
    Seat,
    /// A contract's seat. It stays with its instance.
    Zseat,
    /// A contract's mint. It stays with its instance.
    Zmint,
    /// A facet that a contract made.
    Facet,
    /// A promise.
    Promise,
}

impl ObjKind {
    /// Whether such an object never leaves its instance: zcf, a ZCF seat, a ZCF mint.
    pub fn stays(&self) -> bool
        ensures { result ≡ stays self.now }
    {
        match self {
            ObjKind::Zcf => true,
            ObjKind::Zseat => true,
            ObjKind::Zmint => true,
            _ => false,
        }
    }
}

/// An object, by its kind and its number among those of the kind.
#[derive(Clone, Copy, PartialEq, Eq)]
pub struct Obj {
    pub kind: ObjKind,
    pub number: u32,
}

/// Data: a finished tree. A record keeps its fields in byte order of their names, each name once.
#[derive(Drop)]
pub enum Data {
    Number(i128),
    Text(Text),
    Bool(bool),
    Null,
    Array(Vec<Data>),
    Record(Vec<(Text, Data)>),
    Object(Obj),
    Function(Text),
}

impl Data {
    /// The object, where it is one.
    pub fn object(&self) -> Option<Obj>
        ensures { result ≡ object_of (tree self.now) }
    {
        match self {
            Data::Object(object) => Some(*object),
            _ => None,
        }
    }

    /// The number, where it is one.
    pub fn number(&self) -> Option<i128>
        ensures { result ≡ number_of (tree self.now) }
    {
        match self {
            Data::Number(number) => Some(*number),
            _ => None,
        }
    }

    /// The text, where it is one.
    pub fn text(&self) -> Option<&Text>
        ensures { option_map (λ text. text.now) result ≡ text_of (tree self.now) }
    {
        match self {
            Data::Text(text) => Some(text),
            _ => None,
        }
    }

    /// The truth value, where it is one.
    pub fn boolean(&self) -> Option<bool>
        ensures { result ≡ boolean_of (tree self.now) }
    {
        match self {
            Data::Bool(truth) => Some(*truth),
            _ => None,
        }
    }

    /// The name of the function, where it is one.
    pub fn function(&self) -> Option<&Text>
        ensures { option_map (λ name. name.now) result ≡ function_of (tree self.now) }
    {
        match self {
            Data::Function(name) => Some(name),
            _ => None,
        }
    }

    /// Whether it is null.
    pub fn is_null(&self) -> bool
        ensures { result ≡ is_null (tree self.now) }
    {
        match self {
            Data::Null => true,
            _ => false,
        }
    }

    /// The parts of an array.
    pub fn items(&self) -> Option<&[Data]>
        ensures { option_map (λ items. trees items.now) result ≡ list_of (tree self.now) }
    {
        match self {
            Data::Array(items) => Some(items.as_slice()),
            _ => None,
        }
    }

    /// The fields of a record, each with its name.
    pub fn fields(&self) -> Option<&[(Text, Data)]>
        ensures { option_map (λ fields. named_trees fields.now) result ≡ pairs_of (tree self.now) }
    {
        match self {
            Data::Record(fields) => Some(fields.as_slice()),
            _ => None,
        }
    }

    /// How many fields a record has.
    pub fn field_count(&self) -> Option<usize>
        ensures { result ≡ field_count (tree self.now) }
    {
        match self {
            Data::Record(fields) => Some(fields.len()),
            _ => None,
        }
    }

    /// The field of a record under a name.
    pub fn field(&self, name: &str) -> Option<&Data>
        ensures { option_map (λ found. tree found.now) result ≡ field_of name.now (tree self.now) }
    {
        match self {
            Data::Record(fields) => find(fields.as_slice(), name),
            _ => None,
        }
    }

    /// A copy that equals the original.
    pub fn copy(&self, alloc: Global) -> Result<Data, AllocError>
        ensures { IfOk result (λ copy. tree copy ≡ tree self.now) }
    {
        copy_data(alloc, self)
    }

    /// The size, where it is at most `limit`. The program doesn't use it.
    pub fn size(&self, limit: u64) -> Option<u64>
        ensures { result ≡ (if nat_le (size (tree self.now)) limit then Some (size (tree self.now)) else None) }
    {
        let left = pay(limit, self)?;
        Some(limit - left)
    }

    /// Whether it nests at most `limit` deep.
    pub fn nests_within(&self, limit: u32) -> bool
        ensures { result ≡ nat_le (nesting (tree self.now)) limit }
    {
        is_within(limit, self)
    }

    /// Whether it holds zcf, a ZCF seat, a ZCF mint or a function anywhere.
    pub fn is_local(&self) -> bool
        ensures { result ≡ is_local (tree self.now) }
    {
        holds_local(self)
    }
}

/// The first field of that name.
fn find<'a>(fields: &'a [(Text, Data)], name: &str) -> Option<&'a Data>
    ensures { option_map (λ found. tree found.now) result ≡ get name.now (fields_of (named_trees fields.now)) }
{
    for (key, item) in fields {
        if key.as_str() == name {
            return Some(item);
        }
    }
    None
}

#[cycle(copy)]
fn copy_data(alloc: Global, value: &Data) -> Result<Data, AllocError>
    ensures { IfOk result (λ copy. tree copy ≡ tree value.now) }
{
    match value {
        Data::Number(number) => Ok(Data::Number(*number)),
        Data::Text(text) => Ok(Data::Text(text.copy(alloc)?)),
        Data::Bool(truth) => Ok(Data::Bool(*truth)),
        Data::Null => Ok(Data::Null),
        Data::Array(items) => Ok(Data::Array(copy_items(alloc, items.as_slice())?)),
        Data::Record(fields) => Ok(Data::Record(copy_fields(alloc, fields.as_slice())?)),
        Data::Object(object) => Ok(Data::Object(*object)),
        Data::Function(name) => Ok(Data::Function(name.copy(alloc)?)),
    }
}

/// A copy of each of them, in their order.
#[cycle(copy)]
pub fn copy_items(alloc: Global, items: &[Data]) -> Result<Vec<Data>, AllocError>
    ensures { IfOk result (λ copies. trees copies.items ≡ trees items.now) }
{
    let mut copies = Vec::with_capacity(alloc, items.len())?;
    for item in items {
        copies.push(copy_data(alloc, item)?)?;
    }
    Ok(copies)
}

/// A copy of each of them, in their order.
#[cycle(copy)]
pub fn copy_fields(alloc: Global, fields: &[(Text, Data)]) -> Result<Vec<(Text, Data)>, AllocError>
    ensures { IfOk result (λ copies. named_trees copies.items ≡ named_trees fields.now) }
{
    let mut copies = Vec::with_capacity(alloc, fields.len())?;
    for (name, item) in fields {
        let name = name.copy(alloc)?;
        copies.push((name, copy_data(alloc, item)?))?;
    }
    Ok(copies)
}

/// What is left of a meter after the size of the data, where it is enough.
#[cycle(pay)]
pub fn pay(left: u64, value: &Data) -> Option<u64>
    ensures { result ≡ (if nat_le (size (tree value.now)) left then Some (left - size (tree value.now)) else None) }
{
    if left == 0 {
        return None;
    }
    match value {
        Data::Number(_) => Some(left - 1),
        Data::Text(text) => pay_bytes(left - 1, text),
        Data::Bool(_) => Some(left - 1),
        Data::Null => Some(left - 1),
        Data::Array(items) => pay_items(left - 1, items.as_slice()),
        Data::Record(fields) => pay_fields(left - 1, fields.as_slice()),
        Data::Object(_) => Some(left - 1),
        Data::Function(_) => Some(left - 1),
    }
}

/// What is left of a meter after 1 for each byte of the text, where it is enough.
pub fn pay_bytes(left: u64, text: &Text) -> Option<u64>
    ensures { result ≡ (if nat_le (length text.now) left then Some (left - length text.now) else None) }
{
    left.checked_sub(text.len() as u64)
}

/// What is left of a meter after the sizes of all of them, where it is enough.
#[cycle(pay)]
pub fn pay_items(left: u64, items: &[Data]) -> Option<u64>
    ensures { result ≡ (if nat_le (items_size (items_of (trees items.now))) left then Some (left - items_size (items_of (trees items.now))) else None) }
{
    let mut left = left;
    for item in items {
        left = pay(left, item)?;
    }
    Some(left)
}

/// What is left of a meter after the names and sizes of all of them, where it is enough.
#[cycle(pay)]
pub fn pay_fields(left: u64, fields: &[(Text, Data)]) -> Option<u64>
    ensures { result ≡ (if nat_le (fields_size (fields_of (named_trees fields.now))) left then Some (left - fields_size (fields_of (named_trees fields.now))) else None) }
{
    let mut left = left;
    for (name, item) in fields {
        left = pay_bytes(left, name)?;
        left = pay(left, item)?;
    }
    Some(left)
}

#[cycle(within)]
fn is_within(limit: u32, value: &Data) -> bool
    ensures { result ≡ nat_le (nesting (tree value.now)) limit }
{
    match value {
        Data::Array(items) => 0 < limit && all_within(limit - 1, items.as_slice()),
        Data::Record(fields) => 0 < limit && fields_within(limit - 1, fields.as_slice()),
        _ => true,
    }
}

/// Whether each of them nests at most `limit` deep.
#[cycle(within)]
pub fn all_within(limit: u32, items: &[Data]) -> bool
    ensures { result ≡ nat_le (items_nesting (items_of (trees items.now))) limit }
{
    for item in items {
        if !is_within(limit, item) {
            return false;
        }
    }
    true
}

/// Whether each of them nests at most `limit` deep.
#[cycle(within)]
pub fn fields_within(limit: u32, fields: &[(Text, Data)]) -> bool
    ensures { result ≡ nat_le (fields_nesting (fields_of (named_trees fields.now))) limit }
{
    for (_, item) in fields {
        if !is_within(limit, item) {
            return false;
        }
    }
    true
}

#[cycle(local)]
fn holds_local(value: &Data) -> bool
    ensures { result ≡ is_local (tree value.now) }
{
    match value {
        Data::Array(items) => some_local(items.as_slice()),
        Data::Record(fields) => some_field_local(fields.as_slice()),
        Data::Object(object) => object.kind.stays(),
        Data::Function(_) => true,
        _ => false,
    }
}

/// Whether one of them holds zcf, a ZCF seat, a ZCF mint or a function anywhere.
#[cycle(local)]
pub fn some_local(items: &[Data]) -> bool
    ensures { result ≡ some_local (items_of (trees items.now)) }
{
    for item in items {
        if holds_local(item) {
            return true;
        }
    }
    false
}

/// Whether one of them holds zcf, a ZCF seat, a ZCF mint or a function anywhere.
#[cycle(local)]
pub fn some_field_local(fields: &[(Text, Data)]) -> bool
    ensures { result ≡ some_local_field (fields_of (named_trees fields.now)) }
{
    for (_, item) in fields {
        if holds_local(item) {
            return true;
        }
    }
    false
}
