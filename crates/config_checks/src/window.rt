//! C18: the window for a partition's device tree.

ghost use Rattle.std.specs.Prelude.{◌≡◌, find};
ghost use Rattle.std.specs.List.{list_any};
ghost use Rattle.std.specs.Option.{option_copied};
ghost use Rattle.config_checks.specs.Window as spec;

use crate::areas::end_of;
use crate::bounds::{LARGEST_WINDOW, MAPPED_END, PAGE_SIZE};
use crate::found::{is_private, size_of};
use crate::spot::{Spot, part_spot};
use hv_config::{Config, GuestAreaDef, PartDef};

/// Whether the whole window is in the guest area, which is private.
fn holds_window(config: &Config, part: &PartDef, guest: &GuestAreaDef) -> bool
    ensures { result ≡ spec.holds_window config.now part.now guest.now }
{
    guest.at <= part.tree_at
        && end_of(part.tree_at, part.tree_size)
            <= end_of(
                guest.at,
                size_of(config.areas.as_slice(), guest.area.as_slice()),
            )
        && is_private(config.parts.as_slice(), guest.area.as_slice())
}

/// Whether it is so in one of these guest areas.
fn hold_window(config: &Config, part: &PartDef, guests: &[GuestAreaDef]) -> bool
    ensures { result ≡ list_any (spec.holds_window config.now part.now) guests.now }
{
    guests.iter().any(|guest| holds_window(config, part, guest))
}

/// Whether the window isn't made of whole pages, or of none; is too large; ends past the area that is mapped as the
/// partition starts; or is in no private guest area as a whole.
fn is_windowless(config: &Config, part: &PartDef) -> bool
    ensures { result ≡ spec.is_windowless config.now part.now }
{
    part.tree_at % PAGE_SIZE != 0
        || part.tree_size % PAGE_SIZE != 0
        || part.tree_size == 0
        || LARGEST_WINDOW < part.tree_size
        || MAPPED_END < end_of(part.tree_at, part.tree_size)
        || !hold_window(config, part, part.areas.as_slice())
}

/// The first such partition of these.
fn first_windowless<'a>(config: &Config, parts: &'a [PartDef]) -> Option<&'a PartDef>
    ensures { option_copied result ≡ find (spec.is_windowless config.now) parts.now }
{
    parts.iter().find(|part| is_windowless(config, part))
}

/// C18: the first such partition.
#[tactic(auto, unfolding(crate::specs::Window::windowless_part))]
pub fn windowless_part(config: &Config) -> Option<Spot<'_>>
    ensures { result ≡ spec.windowless_part config.now }
{
    first_windowless(config, config.parts.as_slice()).map(part_spot)
}
