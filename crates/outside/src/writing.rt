//! Writing a piece whole, and a text piece by piece.

ghost use Rattle.std.specs.Prelude.{◌≡◌, ℕ, ◌-◌, ◌<◌, ◌≤◌, [], length, drop, IsOk, OnOk, OnErr};
ghost use Rattle.std.specs.Io.KnownBytes.{Appends};
ghost use Rattle.outside.specs.Fault.{Rose};
ghost use Rattle.outside.specs.Taken.{AppendsFront};
ghost use Rattle.outside.specs.Pieces.{joined, Writes};

use crate::fault::Failed;
use crate::sink::Sink;

/// Writes the piece whole. Each write gets rid of at least a byte. After a failure the sink took a front
/// of the piece.
pub fn write_all<S: Sink>(out: &mut S, piece: &[u8]) -> Result<(), Failed>
    ensures whole { OnOk result (Appends (S.taken out.old) (S.taken out.new) piece.now) }
    ensures front { AppendsFront (S.taken out.old) (S.taken out.new) piece.now }
    ensures counted { S.faults out.old ≤ S.faults out.new }
    ensures failed { OnErr result (Rose (S.faults out.old) (S.faults out.new)) }
    ensures nothing { piece.now ≡ [] → out.new ≡ out.old }
    ensures sure { (n : ℕ) → length piece.now ≤ n → S.SurelyTakes out.old n → IsOk result }
    ensures sure_count { (n : ℕ) → length piece.now ≤ n → S.SurelyTakes out.old n → S.faults out.new ≡ S.faults out.old }
    ensures sure_rest { (n : ℕ) → length piece.now ≤ n → S.SurelyTakes out.old n → S.SurelyTakes out.new (n - length piece.now) }
{
    let mut rest = piece;
    while !rest.is_empty() {
        let count = out.write(rest)?;
        rest = left_after(rest, count);
    }
    Ok(())
}

/// Writes the pieces whole, one behind the other. After a failure the sink took a front of them.
pub fn write_pieces<S: Sink>(out: &mut S, pieces: &[&[u8]]) -> Result<(), Failed>
    ensures { Writes result (S.taken out.old) (S.taken out.new) (S.faults out.old) (S.faults out.new) (joined pieces.now) }
{
    for piece in pieces {
        write_all(out, piece)?;
    }
    Ok(())
}

/// What is left of the piece behind so many bytes.
fn left_after(piece: &[u8], count: usize) -> &[u8]
    requires { count ≤ length piece.now }
    ensures { result.now ≡ drop count piece.now }
{
    piece.split_at(count).1
}
