//! What `when` and `Far` ask of their arguments, before the host is asked.

ghost use Rattle.std.specs.Prelude.{◌≡◌, IfOk, option_map};
ghost use Rattle.host_data.specs.Tree.{function_of};
ghost use Rattle.host_data.specs.View.{named_trees, tree, trees};
ghost use Rattle.jessie_values.specs.Outcomes.{Gives, seen};
ghost use Rattle.jessie_values.specs.Requests.{facet_name, far_call, far_of, functions_in, methods_of, named_far, promise_of, when_call};
ghost use Rattle.jessie_values.specs.RequestViews.{far_view, when_view};

use crate::built_ins::next_argument;
use crate::parts::into_text;
use crate::reasons::{Reason, ValueFault};
use host_data::data::{Data, Obj, ObjKind};
use host_data::host_text_lib::text::Text;
use std::alloc::{AllocError, Global};

/// The most bytes of a facet's name.
const NAME_BYTES: usize = 64;

/// A promise, the function that is to hear of it, and data for the function.
#[derive(Drop)]
pub struct WhenArguments {
    pub promise: Obj,
    pub function: Text,
    pub held: Data,
}

/// A facet's name, its methods each with its function, and data for the functions.
#[derive(Drop)]
pub struct FarArguments {
    pub name: Text,
    pub methods: Vec<(Text, Text)>,
    pub held: Data,
}

fn into_promise(value: Data) -> Option<Obj>
    ensures { result ≡ promise_of (tree value) }
{
    match value {
        Data::Object(object) => match object.kind {
            ObjKind::Promise => Some(object),
            _ => None,
        },
        _ => None,
    }
}

fn into_function(value: Data) -> Option<Text>
    ensures { result ≡ function_of (tree value) }
{
    match value {
        Data::Function(name) => Some(name),
        _ => None,
    }
}

fn into_facet_name(value: Data) -> Option<Text>
    ensures { result ≡ facet_name (tree value) }
{
    let name = into_text(value)?;
    if 1 <= name.len() && name.len() <= NAME_BYTES {
        Some(name)
    } else {
        None
    }
}

/// The functions of a record, each with its name, where all its fields are functions.
fn methods_of(alloc: Global, value: &Data) -> Result<Option<Vec<(Text, Text)>>, AllocError>
    ensures { IfOk result (λ methods. option_map (λ ms. ms.items) methods ≡ methods_of (tree value.now)) }
{
    match value.fields() {
        Some(fields) => functions_in(alloc, fields),
        None => Ok(None),
    }
}

fn functions_in(
    alloc: Global,
    fields: &[(Text, Data)],
) -> Result<Option<Vec<(Text, Text)>>, AllocError>
    ensures { IfOk result (λ methods. option_map (λ ms. ms.items) methods
        ≡ functions_in (named_trees fields.now)) }
{
    let mut methods = Vec::new(alloc);
    for (name, value) in fields {
        let Some(function) = value.function() else {
            return Ok(None);
        };
        let name = name.copy(alloc)?;
        methods.push((name, function.copy(alloc)?))?;
    }
    Ok(Some(methods))
}

/// The arguments of `when`: a promise, a function, and data, null where it is missing.
pub fn when_call(args: Vec<Data>) -> Result<WhenArguments, Reason>
    ensures { seen when_view result ≡ when_call (trees args.items) }
{
    let mut args = args.into_iter();
    let promise = into_promise(next_argument(&mut args));
    let function = into_function(next_argument(&mut args));
    let held = next_argument(&mut args);
    match (promise, function) {
        (Some(promise), Some(function)) => Ok(WhenArguments {
            promise,
            function,
            held,
        }),
        _ => Err(Reason::WrongKind),
    }
}

/// The arguments of `Far`: a text of 1 to 64 bytes, a record of functions, and data, null where it is
/// missing.
pub fn far_call(alloc: Global, args: Vec<Data>) -> Result<FarArguments, ValueFault>
    ensures { Gives far_view result (far_call (trees args.items)) }
{
    let mut args = args.into_iter();
    let name = next_argument(&mut args);
    let methods = next_argument(&mut args);
    far_of(alloc, name, &methods, next_argument(&mut args))
}

/// `far_call` of its three arguments.
fn far_of(alloc: Global, name: Data, methods: &Data, held: Data) -> Result<FarArguments, ValueFault>
    ensures { Gives far_view result (far_of (tree name) (tree methods.now) (tree held)) }
{
    let methods = methods_of(alloc, methods)?;
    Ok(named_far(into_facet_name(name), methods, held)?)
}

fn named_far(
    name: Option<Text>,
    methods: Option<Vec<(Text, Text)>>,
    held: Data,
) -> Result<FarArguments, Reason>
    ensures { seen far_view result ≡ named_far name (option_map (λ ms. ms.items) methods) (tree held) }
{
    match (name, methods) {
        (Some(name), Some(methods)) => Ok(FarArguments {
            name,
            methods,
            held,
        }),
        _ => Err(Reason::WrongKind),
    }
}
