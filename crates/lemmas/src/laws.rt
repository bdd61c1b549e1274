//! A law of lists. Its body is empty: what it states is proved of the definitions.

ghost use Rattle.std.specs.Prelude.{◌≡◌, ◌<◌, ℕ, List, length, slice_index_or, slice_set};

/// An element written where another stood, and turned back into that one where it stands, leaves the list.
pub fn written_is_turned_back()
    ensures { (xs : List ℕ) (n d x : ℕ) (turned : ℕ → ℕ) → n < length xs → turned x ≡ slice_index_or xs n d
        → slice_set (slice_set xs n x) n (turned (slice_index_or (slice_set xs n x) n d)) ≡ xs }
{}
