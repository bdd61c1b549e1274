//! Effects that deliveries have by themselves.

ghost use Rattle.std.specs.Prelude.{◌≡◌, ◌<◌, ◌∷◌, [], IfOk, length};
ghost use Rattle.world_reads.specs.call_outcomes.Lists.{IsEachShaped, effects_view};
ghost use Rattle.world_reads.specs.call_outcomes.Views.{IsShaped, effect_view};
ghost use Rattle.delivery_turns.specs.Tasks.{exit_if_open};
ghost use Rattle.world_reads.specs.host_world.Worlds.{world_of};
ghost use Rattle.host_data.specs.View.{tree};
ghost use Rattle.delivery_turns.specs.turn_records.Views.{cause_view};
ghost use Rattle.delivery_turns.specs.world_state.Worlds.{bind_label};

use crate::open_seats::add_exit;
use delivery_turns::turn_records_lib::events::Cause;
use host_data::data::Data;
use refusals::host_text_lib::label::Label;
use std::alloc::{AllocError, Global};
use world_reads::call_outcomes_lib::effects::{Effect, LabelsEffect};
use world_reads::call_outcomes_lib::lists::Effects;
use world_reads::host_world_lib::World;

/// Effects, of which there is one.
pub fn one_effect(alloc: Global, effect: Effect) -> Result<Effects, AllocError>
    ensures view { IfOk result (λ es. effects_view es ≡ effect_view effect ∷ []) }
    ensures shaped { IsShaped effect → IfOk result IsEachShaped }
{
    let mut effects = Effects::new(alloc);
    effects.push(effect)?;
    Ok(effects)
}

/// Copies of a party's name and of a label.
fn copy_labels(alloc: Global, party: &Label, label: &Label) -> Result<(Label, Label), AllocError>
    ensures { IfOk result (λ made. (made.0 ≡ party.now) × (made.1 ≡ label.now)) }
{
    let party = party.copy(alloc)?;
    let label = label.copy(alloc)?;
    Ok((party, label))
}

/// A party has a copy of data under a label.
pub fn binding(
    alloc: Global,
    party: &Label,
    label: &Label,
    value: &Data,
) -> Result<Effect, AllocError>
    ensures view { IfOk result (λ e. effect_view e
        ≡ bind_label party.now label.now (tree value.now)) }
    ensures shaped { IfOk result IsShaped }
{
    let (party, label) = copy_labels(alloc, party, label)?;
    let value = value.copy(alloc)?;
    Ok(Effect::Labels(LabelsEffect::BindLabel(party, label, value)))
}

/// A seat is left with a cause, if it is still open.
pub fn exit_if_open(
    alloc: Global,
    world: &World,
    seat: u32,
    cause: Cause,
) -> Result<Effects, AllocError>
    requires { seat < length (world_of world.now).seats }
    ensures exits { IfOk result (λ es. effects_view es
        ≡ exit_if_open (world_of world.now) seat (cause_view cause)) }
    ensures shaped { IfOk result (λ es. IsEachShaped es) }
{
    let mut effects = Effects::new(alloc);
    add_exit(world, seat, cause, &mut effects)?;
    Ok(effects)
}
