//! The end of a command: its text goes to the sink.

ghost use Rattle.std.specs.Prelude.{◌≡◌, ℕ, ◌≤◌, true, length, IsOk, OnOk, OnErr};
ghost use Rattle.std.specs.Io.KnownBytes.{Appends};
ghost use Rattle.outside.specs.Fault.{Rose};
ghost use Rattle.outside.specs.Taken.{AppendsFront};

use outside::{Failed, Sink, write_all};

/// Writes the text whole and flushes it.
pub fn deliver<S: Sink>(out: &mut S, text: &[u8]) -> Result<(), Failed>
    ensures whole { OnOk result (Appends (S.taken out.old) (S.taken out.new) text.now) }
    ensures flushed { OnOk result (S.is_flushed out.new ≡ true) }
    ensures front { AppendsFront (S.taken out.old) (S.taken out.new) text.now }
    ensures counted { S.faults out.old ≤ S.faults out.new }
    ensures failed { OnErr result (Rose (S.faults out.old) (S.faults out.new)) }
    ensures sure { (n : ℕ) → length text.now ≤ n → S.SurelyTakes out.old n → IsOk result }
    ensures sure_count { (n : ℕ) → length text.now ≤ n → S.SurelyTakes out.old n → S.faults out.new ≡ S.faults out.old }
{
    write_all(out, text)?;
    out.flush()
}
