//! The laws. Each is a function with nothing to do, whose contract is the law.

ghost use Rattle.gen_laws.specs.Laws.{ConfigurationsAreAccepted, ImagesAreSound, ScriptsAreSound};

use gen_load::counts_are_few;

/// The configuration of a bundle is plain and breaks none of the rules C5 to C22 on its hardware.
pub fn configurations_are_accepted()
    ensures { ConfigurationsAreAccepted }
{
    counts_are_few();
}

/// Each partition has an image of the name that it wants, which breaks none of the rules I1 to I7.
pub fn images_are_sound()
    ensures { ImagesAreSound }
{
    counts_are_few();
}

/// The script breaks none of the rules S1 to S6, whatever consoles and cpus there are, and its schedule is the order.
pub fn scripts_are_sound()
    ensures { ScriptsAreSound }
{}
