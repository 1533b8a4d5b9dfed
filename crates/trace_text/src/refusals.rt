//! The line of a refusal.

ghost use Rattle.outside.specs.Pieces.{Writes};
ghost use Rattle.trace_text.specs.Refusals as spec;

use outside::{Failed, Sink, write_pieces};

/// Appends the line of a rule that is broken at a place, each as it is printed.
///
/// Fails only where the sink does, which then has taken a front of the line.
pub fn refused_line<S: Sink>(out: &mut S, rule: &[u8], place: &[u8]) -> Result<(), Failed>
    ensures { Writes result (S.taken out.old) (S.taken out.new) (S.faults out.old) (S.faults out.new)
        (spec.refused_line rule.now place.now) }
{
    write_pieces(out, &[b"refused ", rule, b" at ", place, b"\n"])
}
