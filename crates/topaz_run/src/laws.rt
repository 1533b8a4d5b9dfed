//! Laws of the definitions. Each is a function whose contract is the law.

ghost use Rattle.topaz_run.specs.Laws.{DescribedAreJoined, DescribedAreNamed, DoneRunsPrintAlone};

use config_rules::{accepted_keep_names, accepted_keep_parts, descriptions_are_joined};
use isolation::{lines_are_its_own, recordings_fit};

/// The descriptions that images and device trees complete, of the partitions of an accepted configuration, are joined
/// with its wiring.
pub fn described_partitions_are_joined()
    ensures { DescribedAreJoined }
{
    accepted_keep_parts();
    descriptions_are_joined();
}

/// In a report of the partitions of an accepted configuration the lines of each are found by its name.
pub fn described_partitions_are_named()
    ensures { DescribedAreNamed }
{
    accepted_keep_names();
}

/// A run that is done writes the report of the network that the files describe; the lines of each partition without shared
/// areas are what its lone machine prints along its recording of the run, which fits it.
pub fn done_runs_print_alone()
    ensures { DoneRunsPrintAlone }
{
    described_partitions_are_named();
    described_partitions_are_joined();
    lines_are_its_own();
    recordings_fit();
}
