//! Whether partitions run.

ghost use Rattle.std.specs.Prelude.{◌≡◌, not};
ghost use Rattle.network.specs.Turn.{is_running};
ghost use Rattle.system.specs.System.{are_parts_at_rest};

use machine_desc::State;
use partition::Partition;

/// Whether a partition doesn't run.
fn rests(part: &Partition) -> bool
    ensures { result ≡ not (is_running part.now.inner.state) }
{
    match part.state() {
        State::Running => false,
        _ => true,
    }
}

/// Whether none of these runs.
pub fn all_rest(parts: &[Partition]) -> bool
    ensures { result ≡ are_parts_at_rest parts.now }
{
    parts.iter().all(rests)
}
