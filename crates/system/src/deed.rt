//! What a step did, and its line.

ghost use Rattle.std.specs.Prelude.{◌<◌, length};
ghost use Rattle.outside.specs.Pieces.{Writes};
ghost use Rattle.system.specs.Shown.{IsDeedOf, deed_line, shown_deed};
ghost use Rattle.system.specs.System.{descs_of};

use crate::show::Show;
use machine_desc::Act;
use outside::{Failed, Sink};
use partition::Partition;
use trace_text::act_line;

/// What a step did, whose it was, and its number among the partition's own.
#[derive(Debug, Drop)]
pub struct Deed {
    pub part: usize,
    pub step: u64,
    pub act: Act,
}

/// Appends the line of what a step did, where there was one and lines are shown. Fails only where the sink does, which then
/// has taken a front of the line.
pub fn write_deed<S: Sink>(
    parts: &[Partition],
    show: Show,
    deed: &Option<Deed>,
    out: &mut S,
) -> Result<(), Failed>
    requires { IsDeedOf (length parts.now) deed.now }
    ensures { Writes result (S.taken out.old) (S.taken out.new) (S.faults out.old) (S.faults out.new) (shown_deed show (descs_of parts.now) deed.now) }
{
    match show {
        Show::Acts => write_line(parts, deed, out),
        Show::Quiet => Ok(()),
    }
}

/// Appends the line of what a step did, where there was one.
fn write_line<S: Sink>(parts: &[Partition], deed: &Option<Deed>, out: &mut S) -> Result<(), Failed>
    requires { IsDeedOf (length parts.now) deed.now }
    ensures { Writes result (S.taken out.old) (S.taken out.new) (S.faults out.old) (S.faults out.new) (deed_line (descs_of parts.now) deed.now) }
{
    match deed {
        Some(deed) => {
            let name = parts[deed.part].desc().name.as_slice();
            act_line(out, name, deed.step, &deed.act)
        }
        None => Ok(()),
    }
}
