//! Laws of the data of refusals. The body is empty: what it states is proved of the definitions.

ghost use Rattle.std.specs.Prelude.{◌≡◌, ◌≤◌, ◌+◌, ℕ, false};
ghost use Rattle.host_data.specs.Tree.{Ordered, is_local, nesting};
ghost use Rattle.host_data.specs.Nodes.{EachNode, HasFieldsInOrder, IsFree, IsShallow};
ghost use Rattle.refusals.specs.Codes.{refusal_tree};
ghost use Rattle.refusals.specs.Plain.{IsPlain};
ghost use Rattle.refusals.specs.declared.codes.Refusal.{Refusal};

/// The data of each refusal holds no object and no function, and so nothing that stays with an instance; its
/// records' fields stand in byte order; it nests four deep at most (a bag that is shown is an array of pairs).
pub fn refusals_are_plain()
    ensures plain { (r : Refusal) (n : ℕ) → EachNode IsPlain n (refusal_tree r) }
    ensures free { (r : Refusal) (n : ℕ) → EachNode IsFree n (refusal_tree r) }
    ensures in_order { (r : Refusal) (n : ℕ) → EachNode HasFieldsInOrder n (refusal_tree r) }
    ensures shallow { (r : Refusal) (n : ℕ) → EachNode (IsShallow (n + 4)) n (refusal_tree r) }
    ensures not_local { (r : Refusal) → is_local (refusal_tree r) ≡ false }
    ensures ordered { (r : Refusal) → Ordered (refusal_tree r) }
    ensures nests { (r : Refusal) → nesting (refusal_tree r) ≤ 4 }
{}
