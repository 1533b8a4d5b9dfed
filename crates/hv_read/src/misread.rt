//! Why bytes aren't read.

use hv_config::Rule;
use outside::Bytes;

/// Why bytes say no configuration and no hardware.
#[derive(Debug, Drop)]
pub enum Misread {
    /// They break this rule of blobs.
    Blob(u8),
    /// The tree that they are a blob of breaks the rule, at the node with this path.
    Broken { rule: Rule, at: Bytes },
    /// There was no memory.
    NoMemory,
}
