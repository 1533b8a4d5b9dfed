//! A file by its name.

use crate::bytes::Bytes;

/// A file by its name, in memory.
#[derive(Debug, Drop)]
pub struct NamedFile {
    /// The name, the bytes of a UTF-8 text.
    pub name: Bytes,
    /// What the file contains.
    pub bytes: Bytes,
}
