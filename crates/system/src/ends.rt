//! The lines behind the last turn.

ghost use Rattle.std.specs.Prelude.{◌≡◌, length};
ghost use Rattle.outside.specs.Pieces.{Writes};
ghost use Rattle.system.specs.Shown.{console_lines, part_lines};

use crate::counts::Counts;
use outside::{Bytes, Failed, Sink};
use partition::Partition;
use trace_text::{console_line, end_line};

/// Appends a line for each partition. Fails only where the sink does, which then has taken a front of the lines.
pub fn write_parts<S: Sink>(parts: &[Partition], out: &mut S) -> Result<(), Failed>
    ensures { Writes result (S.taken out.old) (S.taken out.new) (S.faults out.old) (S.faults out.new) (part_lines parts.now) }
{
    for i in 0..parts.len() {
        let part = &parts[i];
        end_line(out, part.desc().name.as_slice(), part.state(), part.steps())?;
    }
    Ok(())
}

/// Appends a line for each console, by how many bytes wait there. Fails only where the sink does, which then has taken a
/// front of the lines.
pub fn write_consoles<S: Sink>(
    names: &[Bytes],
    counts: &[Counts],
    waiting: &[u64],
    out: &mut S,
) -> Result<(), Failed>
    requires counts { length counts.now ≡ length names.now }
    requires waiting { length waiting.now ≡ length names.now }
    ensures { Writes result (S.taken out.old) (S.taken out.new) (S.faults out.old) (S.faults out.new) (console_lines names.now counts.now waiting.now) }
{
    for i in 0..names.len() {
        let count = &counts[i];
        let name = names[i].as_slice();
        console_line(out, name, count.printed(), count.entered(), waiting[i])?;
    }
    Ok(())
}
