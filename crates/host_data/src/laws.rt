//! Laws of what holds at each node. The bodies are empty: what they state is proved of the definitions.

ghost use Rattle.std.specs.Prelude.{◌≡◌, ◌≤◌, ◌+◌, ◌↔◌, ℕ, false};
ghost use Rattle.host_data.specs.Tree.{Ordered, Tree, is_local, nesting};
ghost use Rattle.host_data.specs.Nodes.{EachNode, HasFieldsInOrder, IsFree, IsShallow};

/// Data nests at most so deep exactly where each array and record of it lies above that.
pub fn nesting_is_of_nodes()
    ensures shallow { (d n : ℕ) (t : Tree) → n + nesting t ≤ d → EachNode (IsShallow d) n t }
    ensures nested { (d n : ℕ) (t : Tree) → n ≤ d → EachNode (IsShallow d) n t → n + nesting t ≤ d }
{}

/// Each record's fields stand in order exactly where they do at each node.
pub fn order_is_of_nodes()
    ensures each { (n : ℕ) (t : Tree) → Ordered t → EachNode HasFieldsInOrder n t }
    ensures ordered { (n : ℕ) (t : Tree) → EachNode HasFieldsInOrder n t → Ordered t }
{}

/// Data is not local exactly where no node is something that stays with its instance, or a function.
pub fn locality_is_of_nodes()
    ensures free { (n : ℕ) (t : Tree) → is_local t ≡ false → EachNode IsFree n t }
    ensures not_local { (n : ℕ) (t : Tree) → EachNode IsFree n t → is_local t ≡ false }
{}
