//! The host, as an evaluation sees it.
ghost use Rattle.std.specs.Prelude.{IfOk};
ghost use Rattle.jessie_semantics.specs.host_data.View.{tree, trees};
ghost use Rattle.jessie_semantics.specs.Play.{Exchange, call, send, when, far};
ghost use Rattle.jessie_semantics.specs.Keeping.{Reference};
ghost use Rattle.jessie_semantics.specs.Hosts.{Keeps};
ghost use Rattle.jessie_machine.specs.Host.{answered_with};

use jessie_semantics::host_data_lib::data::{Data, Obj};
use jessie_semantics::host_text_lib::text::Text;
use std::alloc::AllocError;

/// Want of memory.
pub type NoMemory = AllocError;

/// What the host answers to a call.
#[derive(Drop)]
pub enum Reply {
    Value(Data),
    /// A refusal, as the data that is thrown.
    Refused(Data),
}

/// What a contract's functions can do to the world. For want of memory nothing is answered.
pub trait Powers {
    /// What a call that was answered makes of the host: of the first the second.
    ghost answers: { Self → Exchange → Self → Type 0 };

    /// The objects and functions that are known.
    ghost known: { Self → Reference → Type 0 };

    /// Calls a method of an object.
    fn call(&mut self, target: Obj, method: &str, args: Vec<Data>) -> Result<Reply, NoMemory>
        ensures { IfOk result (λ a. answers self.old (answered_with (call target method.now (trees args.items)) a) self.new) };

    /// Queues a call of a method of an object, which is answered with a promise.
    fn send(&mut self, target: Obj, method: &str, args: Vec<Data>) -> Result<Reply, NoMemory>
        ensures { IfOk result (λ a. answers self.old (answered_with (send target method.now (trees args.items)) a) self.new) };

    /// Asks that a function hear of a promise, with data for it.
    fn when(&mut self, promise: Obj, f: &str, held: Data) -> Result<Reply, NoMemory>
        ensures { IfOk result (λ a. answers self.old (answered_with (when promise f.now (tree held)) a) self.new) };

    /// Makes a facet: its name, its methods each with its function, and data for them.
    fn far(&mut self, name: &str, methods: Vec<(Text, Text)>, held: Data) -> Result<Reply, NoMemory>
        ensures { IfOk result (λ a. answers self.old (answered_with (far name.now methods.items (tree held)) a) self.new) };

    ghost keeps: { Keeps answers known };
}
