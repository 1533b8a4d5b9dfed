//! Laws of the definitions. Each is a function whose contract is the law.

ghost use Rattle.guest_tree.specs.Laws.{BlobsAreOfTheirTrees, GuestBlobsAreSmall, GuestTreesFit, TokensSayTheRows};

use config_rules::accepted_keep_parts;

/// A blob can hold the guest tree of each partition of an accepted configuration, and its canonical blob has at most
/// 65,536 bytes.
pub fn guest_trees_fit()
    ensures fit { GuestTreesFit }
    ensures small { GuestBlobsAreSmall }
{
    accepted_keep_parts();
}

/// The canonical blob of a guest tree is the partition's.
pub fn blobs_are_those_of_the_trees()
    ensures { BlobsAreOfTheirTrees }
{}

/// A tree with a partition's tokens has its rows.
pub fn rows_are_those_of_the_tokens()
    ensures { TokensSayTheRows }
{
    dt_model::rows_are_those_of_the_tokens();
}
