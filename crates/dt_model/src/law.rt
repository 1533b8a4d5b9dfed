//! Laws of blobs: facts on the definitions alone, each the contract of a function that does nothing.

ghost use Rattle.std.specs.Prelude.{◌≡◌, ℕ, true, List, None};
ghost use Rattle.std.specs.Global.{Global};
ghost use Rattle.dt_model.specs.declared.tree.Node.{Node};
ghost use Rattle.dt_model.specs.declared.tree.Node.TheViews.{out-Node};
ghost use Rattle.dt_model.specs.declared.tree.Tree.{Tree};
ghost use Rattle.dt_model.specs.Blob.{IsBlobOf, IsSameTree};
ghost use Rattle.dt_model.specs.Canonical.{canonical, rewritten};
ghost use Rattle.dt_model.specs.Fault.{first_fault};
ghost use Rattle.dt_model.specs.Fit.{Fits};
ghost use Rattle.dt_model.specs.Kept.{has_kept, KeepsNames};
ghost use Rattle.dt_model.specs.Node.{rows_of, rows_in, tokens_of};

/// What is a blob of a tree has no fault.
pub fn blobs_have_no_fault()
    ensures { (bytes : List ℕ) (tree : Tree) → IsBlobOf bytes tree → first_fault bytes ≡ None }
{}

/// No bytes are blobs of two trees.
pub fn blobs_have_one_tree()
    ensures { (bytes : List ℕ) (a b : Tree) → IsBlobOf bytes a → IsBlobOf bytes b → IsSameTree a b }
{}

/// A tree's rows are those of its tokens, so trees of the same tokens have the same rows.
pub fn rows_are_those_of_the_tokens()
    ensures { (tree : Tree) → rows_of tree ≡ rows_in (tokens_of tree) }
{}

/// Bytes without a fault are a blob of a tree, whichever allocator its parts come from.
pub fn bytes_without_a_fault_have_a_tree()
    ensures { (heap : Global) (bytes : List ℕ) → first_fault bytes ≡ None → (tree : Tree) × IsBlobOf bytes tree }
{}

/// The canonical blob of a tree is what any of its blobs is rewritten to.
pub fn rewritten_is_canonical()
    ensures { (bytes : List ℕ) (tree : Tree) → IsBlobOf bytes tree → rewritten bytes ≡ canonical tree }
{}

/// In a tree that fits, the names of each node's children are legal and differ, and so it is below each child.
pub fn fitting_trees_keep_names_apart()
    ensures root { (tree : Tree) → Fits tree → has_kept tree.root ≡ true }
    ensures children { (node : Node) → has_kept node ≡ true → KeepsNames (out-Node node).children.items }
{}
