//! The law. The body is empty: what it states is proved of the definitions.

ghost use Rattle.std.specs.Prelude.{◌≡◌, ℕ, List};
ghost use Rattle.message_lines.specs.Meanings.{delivered, meaning_of};
ghost use Rattle.message_lines.specs.turn_records.Deliveries.{Delivery};
ghost use Rattle.licence_laws.specs.world_state.Good.{IsLine};

/// What a line means that is to be delivered is such as a line may bring: parties have no instance's name, data has
/// its names in order and nests no deeper than it may, and times are such as the timer can be set to.
pub fn lines_bring_what_they_may()
    ensures line { (line : List ℕ) (d : Delivery) → meaning_of line ≡ delivered d → IsLine d }
{}
