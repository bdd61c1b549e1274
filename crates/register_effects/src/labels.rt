//! Facets, labels and the log.

ghost use Rattle.std.specs.Prelude.{◌≡◌, OnOk};
ghost use Rattle.world_laws.specs.actors.Facets.{facet_view};
ghost use Rattle.world_laws.specs.host_data.View.{tree};
ghost use Rattle.register_effects.specs.StoreEffects.{Becomes};
ghost use Rattle.world_reads.specs.registers.Stores.{registers_at_start};
ghost use Rattle.world_laws.specs.turn_records.Views.{call_view};
ghost use Rattle.world_laws.specs.world_state.Worlds as worlds;

use std::alloc::AllocError;
use world_laws::actors_lib::instance_store::facets::Facet;
use world_laws::host_data_lib::data::Data;
use world_laws::host_text_lib::label::Label;
use world_laws::turn_records_lib::events::{Call, Event};
use world_reads::registers_lib::Registers;

/// A facet is made.
pub fn make_facet(stores: &mut Registers, facet: Facet) -> Result<(), AllocError>
    ensures ok { OnOk result (Becomes stores.old stores.new (worlds.make_facet (facet_view facet))) }
    ensures start { registers_at_start stores.new ≡ registers_at_start stores.old }
{
    match stores.facets.add(facet) {
        Ok(_) => Ok(()),
        Err(back) => {
            drop(back);
            Err(AllocError)
        }
    }
}

/// A party has data under a label.
pub fn bind_label(
    stores: &mut Registers,
    party: &Label,
    label: &Label,
    value: Data,
) -> Result<(), AllocError>
    ensures ok { OnOk result (Becomes stores.old stores.new
        (worlds.bind_label party.now label.now (tree value))) }
    ensures start { registers_at_start stores.new ≡ registers_at_start stores.old }
{
    match stores.parties.bind(party, label, value) {
        Ok(()) => Ok(()),
        Err(back) => {
            drop(back);
            Err(AllocError)
        }
    }
}

/// A contract's call of the host was answered.
pub fn note_call(stores: &mut Registers, call: Call) -> Result<(), AllocError>
    ensures ok { OnOk result (Becomes stores.old stores.new (worlds.note_call (call_view call))) }
    ensures start { registers_at_start stores.new ≡ registers_at_start stores.old }
{
    stores.log.push(Event::Called(call))?;
    Ok(())
}
