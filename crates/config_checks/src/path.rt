//! The paths of a configuration's nodes, in parts: no memory is needed until one is told.

ghost use Rattle.std.specs.Prelude.{◌≡◌, ◌++◌, IfOk};
ghost use Rattle.config_checks.specs.Path as spec;
ghost use Rattle.config_checks.specs.Spot.{path_in};

use outside::{Bytes, NoMemory};
use std::alloc::Global;

/// A path by the names of its nodes.
#[derive(Drop)]
pub enum Path<'a> {
    /// A list of the root.
    List(&'a [u8]),
    /// A list of the root, and a node of it.
    Entry(&'a [u8], &'a [u8]),
    /// A partition, a list of it, and a node of that.
    Inner(&'a [u8], &'a [u8], &'a [u8]),
    /// A partition, and a list of it.
    InnerList(&'a [u8], &'a [u8]),
}

/// Adds a list and a node of it, a slash before each.
fn push_entry(path: &mut Vec<u8>, list: &[u8], name: &[u8]) -> Result<(), NoMemory>
    ensures { IfOk result (λ _. path.new.items ≡ path.old.items ++ path_in list.now name.now) }
{
    path.push(b'/')?;
    path.extend_from_slice(list)?;
    path.push(b'/')?;
    path.extend_from_slice(name)?;
    Ok(())
}

/// The path as it is written.
pub fn bytes_of(alloc: Global, path: Path) -> Result<Bytes, NoMemory>
    ensures { IfOk result (λ bytes. bytes ≡ spec.bytes_of path.entry) }
{
    let mut bytes = Vec::new(alloc);
    match path {
        Path::List(list) => {
            bytes.push(b'/')?;
            bytes.extend_from_slice(list)?;
        }
        Path::Entry(list, name) => push_entry(&mut bytes, list, name)?,
        Path::Inner(part, list, name) => {
            push_entry(&mut bytes, b"partitions", part)?;
            push_entry(&mut bytes, list, name)?;
        }
        Path::InnerList(part, list) => {
            push_entry(&mut bytes, b"partitions", part)?;
            bytes.push(b'/')?;
            bytes.extend_from_slice(list)?;
        }
    }
    Ok(Bytes::from_vec(bytes))
}
