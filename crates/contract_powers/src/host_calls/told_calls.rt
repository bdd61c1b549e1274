//! How a call is told: how, on what, which method and with which arguments. What is answered comes to it last.

ghost use Rattle.std.specs.Prelude.{◌≡◌, ◌++◌, ◌∷◌, [], IfOk, OnOk};
ghost use Rattle.delivery_laws.specs.delivery_turns.HostCalls.{method_fields};
ghost use Rattle.jessie_machine.specs.jessie_semantics.Play.{call, far, send, when};
ghost use Rattle.refusals.specs.host_data.Tree as nodes;
ghost use Rattle.refusals.specs.host_data.Tree.{fields};
ghost use Rattle.refusals.specs.host_data.View.{named_trees, tree, trees};
ghost use Rattle.world_effects.specs.turn_records.Views.{answer_view, call_view};
ghost use Rattle.contract_powers.specs.CallNotes.{IsTold, told_view};

use refusals::host_data_lib::data::{Data, Obj};
use refusals::host_text_lib::text::Text;
use std::alloc::{AllocError, Global};
use world_effects::turn_records_lib::events::{Answer, Call, How};

/// A call that isn't answered yet.
#[derive(Drop)]
pub struct Told {
    pub how: How,
    /// The target, or the promise; a facet is made on nothing.
    pub on: Option<Obj>,
    pub method: Text,
    pub arguments: Vec<Data>,
}

impl Told {
    /// The call, once it is answered.
    pub fn answered(self, answer: Answer) -> Call
        ensures { call_view result ≡ told_view self (answer_view answer) }
    {
        let Told {
            how,
            on,
            method,
            arguments,
        } = self;
        Call {
            how,
            on,
            method,
            arguments,
            answer,
        }
    }
}

/// A call of a method.
pub fn told_call(target: Obj, method: Text, args: Vec<Data>) -> Told
    ensures { IsTold (call target method (trees args.items)) result }
{
    Told {
        how: How::Call,
        on: Some(target),
        method,
        arguments: args,
    }
}

/// A send.
pub fn told_send(target: Obj, method: Text, args: Vec<Data>) -> Told
    ensures { IsTold (send target method (trees args.items)) result }
{
    Told {
        how: How::Send,
        on: Some(target),
        method,
        arguments: args,
    }
}

/// A request to be told of a promise.
pub fn told_when(
    alloc: Global,
    promise: Obj,
    function: Text,
    held: Data,
) -> Result<Told, AllocError>
    ensures { IfOk result (IsTold (when promise function (tree held))) }
{
    let mut arguments = Vec::new(alloc);
    arguments.push(held)?;
    Ok(Told {
        how: How::When,
        on: Some(promise),
        method: function,
        arguments,
    })
}

/// A method of a facet with its function, last.
fn push_method(made: &mut Vec<(Text, Data)>, method: Text, function: Text) -> Result<(), AllocError>
    ensures { OnOk result (named_trees made.new.items
        ≡ named_trees made.old.items ++ (method, nodes.function function) ∷ []) }
{
    made.push((method, Data::Function(function)))?;
    Ok(())
}

/// The methods of a facet, as the contract wrote them.
fn methods_data(alloc: Global, methods: Vec<(Text, Text)>) -> Result<Data, AllocError>
    ensures { IfOk result (λ made. tree made ≡ fields (method_fields methods.items)) }
{
    let mut made = Vec::new(alloc);
    for (method, function) in methods {
        push_method(&mut made, method, function)?;
    }
    Ok(Data::Record(made))
}

/// Two in a list.
fn both(alloc: Global, first: Data, second: Data) -> Result<Vec<Data>, AllocError>
    ensures { IfOk result (λ made. trees made.items ≡ tree first ∷ tree second ∷ []) }
{
    let mut made = Vec::with_capacity(alloc, 2)?;
    made.push_reserved(first);
    made.push_reserved(second);
    Ok(made)
}

/// What a facet that is made shows: its methods, and what is held for them.
fn facet_arguments(
    alloc: Global,
    methods: Vec<(Text, Text)>,
    held: Data,
) -> Result<Vec<Data>, AllocError>
    ensures { IfOk result (λ made. trees made.items
        ≡ fields (method_fields methods.items) ∷ tree held ∷ []) }
{
    let methods = methods_data(alloc, methods)?;
    both(alloc, methods, held)
}

/// A facet that is made.
pub fn told_far(
    alloc: Global,
    name: Text,
    methods: Vec<(Text, Text)>,
    held: Data,
) -> Result<Told, AllocError>
    ensures { IfOk result (IsTold (far name methods.items (tree held))) }
{
    let arguments = facet_arguments(alloc, methods, held)?;
    Ok(Told {
        how: How::Far,
        on: None,
        method: name,
        arguments,
    })
}
