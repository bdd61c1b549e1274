//! A host to which everything is known, and which replies with null.
ghost use Rattle.std.specs.Prelude.{◌≡◌};

use jessie_interpreter::host_data_lib::data::{Data, Obj};
use jessie_interpreter::host_text_lib::text::Text;
use jessie_interpreter::jessie_machine_lib::host::{NoMemory, Powers, Reply};

#[derive(Drop)]
pub struct NullHost {}

impl Powers for NullHost {
    ghost use Rattle.jessie_interpreter.specs.host_data.Tree.{null};
    ghost use Rattle.jessie_interpreter.specs.jessie_semantics.Play.{given};
    ghost use Rattle.evaluator_tests.specs.NullHosts.{Everything, keeps_to_its_side};

    ghost answers = { λ w x v. x.reply ≡ given null };

    ghost known = { λ w. Everything };

    fn call(&mut self, _target: Obj, _method: &str, _args: Vec<Data>) -> Result<Reply, NoMemory> {
        Ok(Reply::Value(Data::Null))
    }

    fn send(&mut self, _target: Obj, _method: &str, _args: Vec<Data>) -> Result<Reply, NoMemory> {
        Ok(Reply::Value(Data::Null))
    }

    fn when(&mut self, _promise: Obj, _f: &str, _held: Data) -> Result<Reply, NoMemory> {
        Ok(Reply::Value(Data::Null))
    }

    fn far(
        &mut self,
        _name: &str,
        _methods: Vec<(Text, Text)>,
        _held: Data,
    ) -> Result<Reply, NoMemory> {
        Ok(Reply::Value(Data::Null))
    }

    ghost keeps = { keeps_to_its_side };
}
