//! An instance as it was started, and how it stands to offers.
ghost use Rattle.std.specs.Prelude.{◌≡◌, IfOk};
ghost use Rattle.promise_store.specs.host_data.View.{trees};
ghost use Rattle.actors.specs.Tables.{initial_state, stopped};

use brands::issuer_record::IssuerRecord;
use jessie_index::jessie_module_index::IndexedModule;
use jessie_index::jessie_values_lib::literals::constant_data;
use promise_store::host_data_lib::data::Data;
use std::alloc::{AllocError, Global};

/// An instance of an installation, as it was when it was started.
pub(crate) struct Instance {
    pub(crate) installation: u32,
    pub(crate) issuers: IssuerRecord,
    pub(crate) terms: Data,
    /// A value for each state variable of its module, in their order.
    pub(crate) state: Vec<Data>,
}

impl Drop for Instance {
    fn drop(self) {
        let Instance {
            installation: _,
            issuers: _,
            terms: _,
            state: _,
        } = self;
    }
}

/// Whether an instance accepts offers, or has halted (Zoe).
#[derive(Clone, Copy, PartialEq, Eq)]
pub enum Standing {
    /// It accepts offers.
    Accepting,
    /// It accepts offers no more.
    Stopped,
    /// It has halted for good, and accepts offers no more.
    Halted,
}

impl Standing {
    /// How an instance that stands so stands once it accepts no more offers.
    pub(crate) fn stopped(self) -> Standing
        ensures { result ≡ stopped self }
    {
        match self {
            Standing::Halted => Standing::Halted,
            _ => Standing::Stopped,
        }
    }
}

/// What the state variables of a module hold before it has run.
pub(crate) fn initial_state(alloc: Global, module: &IndexedModule) -> Result<Vec<Data>, AllocError>
    ensures { IfOk result (λ state. trees state.items ≡ initial_state «module».now) }
{
    let mut state = Vec::new(alloc);
    for variable in module.variables() {
        state.push(constant_data(alloc, &variable.initial)?)?;
    }
    Ok(state)
}
