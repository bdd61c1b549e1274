//! Effects in their order.

ghost use Rattle.std.specs.Prelude.{◌≡◌, ◌++◌, ◌∷◌, [], OnErr, OnOk};
ghost use Rattle.call_outcomes.specs.Lists.{IsEachShaped, effects_view};
ghost use Rattle.call_outcomes.specs.Views.{AreShaped, IsShaped, effect_view, effect_views};

use crate::effects::Effect;
use std::alloc::{AllocError, Global};

/// Effects, in their order: contracts see them as the world's (specs/Lists.antt). To let go of them is one call,
/// whichever kinds of effects there are.
pub struct Effects {
    effects: Vec<Effect>,
}

impl Drop for Effects {
    fn drop(self) {
        let Effects { effects: _ } = self;
    }
}

impl Effects {
    /// No effects.
    pub fn new(alloc: Global) -> Effects
        ensures view { effects_view result ≡ [] }
        ensures shaped { IsEachShaped result }
    {
        Effects {
            effects: Vec::new(alloc),
        }
    }

    /// One effect more, the last.
    pub fn push(&mut self, effect: Effect) -> Result<(), AllocError>
        ensures view { OnOk result
            (effects_view self.new ≡ effects_view self.old ++ effect_view effect ∷ []) }
        ensures shaped { IsShaped effect → IsEachShaped self.old
            → OnOk result (IsEachShaped self.new) }
    {
        self.effects.push(effect)?;
        Ok(())
    }

    /// One effect more, the first.
    pub fn push_first(&mut self, effect: Effect) -> Result<(), AllocError>
        ensures view { OnOk result
            (effects_view self.new ≡ effect_view effect ∷ effects_view self.old) }
        ensures shaped { IsShaped effect → IsEachShaped self.old
            → OnOk result (IsEachShaped self.new) }
    {
        self.effects.insert(0, effect)?;
        Ok(())
    }

    /// The effects, one by one.
    pub fn into_vec(self) -> Vec<Effect>
        ensures view { effect_views result.items ≡ effects_view self }
        ensures shaped { IsEachShaped self → AreShaped result.items }
    {
        let Effects { effects } = self;
        effects
    }
}
