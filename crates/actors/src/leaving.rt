//! What may leave its instance (Zoe: facets of a contract, and its functions, stay with it).

ghost use Rattle.std.specs.Prelude.{IsErr, IsTrue, ◌↔◌};
ghost use Rattle.promise_store.specs.host_data.Tree.{is_local};
ghost use Rattle.promise_store.specs.host_data.View.{tree};

use promise_store::host_data_lib::data::Data;

/// The data holds something that stays with its instance.
#[derive(Clone, Copy, PartialEq, Eq)]
pub struct LocalOnly;

/// Lets data leave its instance, but where it holds zcf, a ZCF seat, a ZCF mint or a function, at any depth.
/// The program doesn't use it.
pub fn leaves(data: &Data) -> Result<(), LocalOnly>
    ensures { IsErr result ↔ IsTrue (is_local (tree «data».now)) }
{
    if data.is_local() {
        return Err(LocalOnly);
    }
    Ok(())
}
