//! Reading a file whole.

ghost use Rattle.std.specs.Prelude.{◌≡◌, ◌+◌, ◌-◌, ◌≤◌, true, vec_len, IsErrOf, IfOk, OnOk, OnErr};
ghost use Rattle.std.specs.Io.{StartsWith, appended_bytes};
ghost use Rattle.std.specs.Io.KnownBytes.{Consumes, IsAtEnd};
ghost use Rattle.outside.specs.Fault.{Rose};
ghost use Rattle.outside.specs.Limit.{file_limit};
ghost use Rattle.outside.specs.Content.{cut, IsFile, IsLonger, IsReadWithin, StandsAt, GivesAtMost};

use crate::fault::{FileFault, OpenFault};
use crate::files::Files;
use std::alloc::Global;

/// The longest file that is read, in bytes.
pub const FILE_LIMIT: usize = 67_108_864;

/// How many bytes one read asks for at most.
const PIECE: usize = 16_384;

/// Reads the file of that name whole. At most 67,108,865 bytes of it are read, and each read gives at
/// least a byte, or is the end, or a fault.
pub fn read_all<F: Files>(alloc: Global, files: &mut F, name: &str) -> Result<Vec<u8>, FileFault>
    ensures whole { IfOk result (λ bytes. IsFile (F.content files.old) name.now bytes.items) }
    ensures within_limit { IfOk result (λ bytes. vec_len bytes ≤ file_limit) }
    ensures too_long { IsErrOf result FileFault.TooLong → IsLonger (F.content files.old) name.now file_limit }
    ensures opened { OnOk result (F.is_open files.new ≡ true) }
    ensures too_long_opened { IsErrOf result FileFault.TooLong → F.is_open files.new ≡ true }
    // After a failed opening no file is open.
    ensures read { F.is_open files.new ≡ true → IsReadWithin (F.content files.old) name.now (F.left files.new) (file_limit + 1) }
    ensures counted { F.faults files.old ≤ F.faults files.new }
    ensures fault { IsErrOf result FileFault.Fault → Rose (F.faults files.old) (F.faults files.new) }
    ensures blamed { IsErrOf result FileFault.Fault → F.blamed files.new ≡ cut name.now }
    ensures content { F.content files.new ≡ F.content files.old }
{
    match files.open_file(name) {
        Ok(()) => read_open(alloc, files, name),
        Err(OpenFault::Failed) => Err(FileFault::Fault),
        Err(OpenFault::NoMemory) => Err(FileFault::NoMemory),
    }
}

/// Reads what is left of the file of that name, which was just opened.
fn read_open<F: Files>(alloc: Global, files: &mut F, name: &str) -> Result<Vec<u8>, FileFault>
    requires at_start { StandsAt (F.content files.old) name.now (F.left files.old) }
    requires asked { F.asked files.old ≡ cut name.now }
    ensures open { F.is_open files.new ≡ F.is_open files.old }
    ensures whole { IfOk result (λ bytes. IsFile (F.content files.old) name.now bytes.items) }
    ensures within_limit { IfOk result (λ bytes. vec_len bytes ≤ file_limit) }
    ensures too_long { IsErrOf result FileFault.TooLong → IsLonger (F.content files.old) name.now file_limit }
    ensures read { IsReadWithin (F.content files.old) name.now (F.left files.new) (file_limit + 1) }
    ensures counted { F.faults files.old ≤ F.faults files.new }
    ensures fault { IsErrOf result FileFault.Fault → Rose (F.faults files.old) (F.faults files.new) }
    ensures blamed { IsErrOf result FileFault.Fault → F.blamed files.new ≡ cut name.now }
    ensures content { F.content files.new ≡ F.content files.old }
{
    let mut bytes = Vec::new(alloc);
    while bytes.len() <= FILE_LIMIT {
        if read_piece(files, &mut bytes)? == 0 {
            return Ok(bytes);
        }
    }
    Err(FileFault::TooLong)
}

/// One read, of at least a byte unless the file is at its end.
fn read_piece<F: Files>(files: &mut F, bytes: &mut Vec<u8>) -> Result<usize, FileFault>
    requires { vec_len bytes.old ≤ file_limit }
    ensures grown { IfOk result (λ count. vec_len bytes.new ≡ vec_len bytes.old + count) }
    ensures within { OnOk result (vec_len bytes.new ≤ file_limit + 1) }
    ensures front { OnOk result (StartsWith bytes.new.items bytes.old.items) }
    ensures given { OnOk result (Consumes (F.left files.old) (F.left files.new) (appended_bytes bytes.old.items bytes.new.items)) }
    ensures end { IfOk result (λ count. count ≡ 0 → IsAtEnd (F.left files.new)) }
    ensures read { GivesAtMost (F.left files.old) (F.left files.new) (file_limit + 1 - vec_len bytes.old) }
    ensures limit { IsErrOf result FileFault.TooLong → ⊥ }
    ensures counted { F.faults files.old ≤ F.faults files.new }
    ensures fault { IsErrOf result FileFault.Fault → Rose (F.faults files.old) (F.faults files.new) }
    ensures blamed { IsErrOf result FileFault.Fault → F.blamed files.new ≡ F.asked files.old }
    ensures asked { F.asked files.new ≡ F.asked files.old }
    ensures open { F.is_open files.new ≡ F.is_open files.old }
    ensures content { F.content files.new ≡ F.content files.old }
{
    let mut piece = [0u8; PIECE];
    let want = (FILE_LIMIT + 1 - bytes.len()).min(PIECE);
    match files.read(&mut piece[..want]) {
        Ok(count) => match bytes.extend_from_slice(&piece[..count]) {
            Ok(()) => Ok(count),
            Err(_) => Err(FileFault::NoMemory),
        },
        Err(_) => Err(FileFault::Fault),
    }
}
