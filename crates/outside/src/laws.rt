//! Laws of the definitions. Each is a function with nothing to do, whose contract is the law.

ghost use Rattle.std.specs.Prelude.{◌≡◌, ℕ, ◌+◌, ◌≤◌, [], length};
ghost use Rattle.outside.specs.Fault.{Rose};
ghost use Rattle.outside.specs.SureFiles.{FilesForSure};
ghost use Rattle.outside.specs.MemSink.{SinkInMemory};

use crate::files::Files;
use crate::mem_sink::MemSink;
use crate::sink::Sink;
use crate::sure_files::SureFiles;

/// Memory can be a world without faults: the count of `SureFiles` never rises, and a `MemSink` without
/// listed calls surely takes as many bytes as there is room for.
pub fn memory_is_sure()
    ensures files { (before now : FilesForSure) → ¬ Rose (⟦<SureFiles as Files>⟧.faults before) (⟦<SureFiles as Files>⟧.faults now) }
    ensures sink { (sink : SinkInMemory) (count : ℕ) → sink.fail ≡ [] → length sink.taken + count ≤ sink.room
        → ⟦<MemSink as Sink>⟧.SurelyTakes sink count }
{}
