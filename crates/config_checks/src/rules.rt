//! The first of the rules C5 to C22 that a configuration breaks on hardware, and where.

ghost use Rattle.std.specs.Prelude.{◌≡◌, None, Some, IfErr, OnOk, MatchResult};
ghost use Rattle.config_checks.specs.Rules as spec;
ghost use Rattle.hv_config.specs.Rule.{Says};

use crate::areas::{high_area, homeless_area, large_areas, overlapping_area, ragged_area};
use crate::channels::{loose_channel, misprinting_channel};
use crate::cores::{coreless_part, miscounted_part, taking_part};
use crate::counts::too_many;
use crate::guests::{misplaced_guest, overlapping_guest, repeated_guest};
use crate::managers::{own_manager, second_manager};
use crate::names::misnamed;
use crate::path::bytes_of;
use crate::spot::Spot;
use crate::window::windowless_part;
use hv_config::{Board, Config, Fault, Rule};
use std::alloc::Global;

/// The fault that the rule of that number is broken at the node.
fn fault_at(alloc: Global, number: u8, spot: Spot) -> Fault
    ensures { Says result (Some (spec.breach_at number spot.entry)) }
{
    match bytes_of(alloc, spot.path) {
        Ok(at) => Fault::Broken {
            rule: Rule {
                letter: b'C',
                number,
            },
            at,
        },
        Err(_) => Fault::NoMemory,
    }
}

/// Refuses where a node was found that breaks the rule of that number.
fn refuse(alloc: Global, number: u8, spot: Option<Spot>) -> Result<(), Fault>
    ensures { MatchResult result (λ _. spot.entry ≡ None) (λ fault. Says fault (spec.breach number spot.entry)) }
{
    match spot {
        Some(spot) => Err(fault_at(alloc, number, spot)),
        None => Ok(()),
    }
}

/// C5 and C6: names and counts.
#[tactic(auto, unfolding(crate::specs::Rules::broken_list))]
fn check_lists(alloc: Global, config: &Config) -> Result<(), Fault>
    ensures { MatchResult result
        (λ _. spec.broken_list config.now ≡ None)
        (λ fault. Says fault (spec.broken_list config.now)) }
{
    refuse(alloc, 5, misnamed(config))?;
    refuse(alloc, 6, too_many(config))
}

/// C7 to C11: areas of real memory.
#[tactic(auto, unfolding(crate::specs::Rules::broken_area))]
fn check_areas(alloc: Global, config: &Config, hw: &Board) -> Result<(), Fault>
    ensures { MatchResult result
        (λ _. spec.broken_area config.now hw.now ≡ None)
        (λ fault. Says fault (spec.broken_area config.now hw.now)) }
{
    let areas = config.areas.as_slice();
    refuse(alloc, 7, ragged_area(areas))?;
    refuse(alloc, 8, high_area(areas))?;
    refuse(alloc, 9, homeless_area(hw.memory.as_slice(), areas))?;
    refuse(alloc, 10, overlapping_area(areas))?;
    refuse(alloc, 11, large_areas(areas))
}

/// C12 to C14: areas in the memory of partitions.
#[tactic(auto, unfolding(crate::specs::Rules::broken_guest))]
fn check_guests(alloc: Global, config: &Config) -> Result<(), Fault>
    ensures { MatchResult result
        (λ _. spec.broken_guest config.now ≡ None)
        (λ fault. Says fault (spec.broken_guest config.now)) }
{
    refuse(alloc, 12, misplaced_guest(config))?;
    refuse(alloc, 13, overlapping_guest(config))?;
    refuse(alloc, 14, repeated_guest(config.parts.as_slice()))
}

/// C15 to C18: partitions.
#[tactic(auto, unfolding(crate::specs::Rules::broken_part))]
fn check_parts(alloc: Global, config: &Config, hw: &Board) -> Result<(), Fault>
    ensures { MatchResult result
        (λ _. spec.broken_part config.now hw.now ≡ None)
        (λ fault. Says fault (spec.broken_part config.now hw.now)) }
{
    let parts = config.parts.as_slice();
    refuse(alloc, 15, miscounted_part(parts))?;
    refuse(alloc, 16, coreless_part(hw.cpus.as_slice(), parts))?;
    refuse(alloc, 17, taking_part(parts))?;
    refuse(alloc, 18, windowless_part(config))
}

/// C19 to C22: channels and managers.
#[tactic(auto, unfolding(crate::specs::Rules::broken_link))]
fn check_links(alloc: Global, config: &Config) -> Result<(), Fault>
    ensures { MatchResult result
        (λ _. spec.broken_link config.now ≡ None)
        (λ fault. Says fault (spec.broken_link config.now)) }
{
    let parts = config.parts.as_slice();
    let channels = config.channels.as_slice();
    refuse(alloc, 19, loose_channel(parts, channels))?;
    refuse(alloc, 20, misprinting_channel(channels))?;
    refuse(alloc, 21, own_manager(parts))?;
    refuse(alloc, 22, second_manager(parts))
}

/// Refuses a configuration by the least number of the rules C5 to C22 that it breaks on the hardware, at the first node
/// in document order that breaks it.
#[tactic(auto, unfolding(crate::specs::Rules::first_broken))]
pub fn check(alloc: Global, config: &Config, hw: &Board) -> Result<(), Fault>
    ensures kept { OnOk result (spec.first_broken config.now hw.now ≡ None) }
    ensures broken { IfErr result (λ fault. Says fault (spec.first_broken config.now hw.now)) }
{
    check_lists(alloc, config)?;
    check_areas(alloc, config, hw)?;
    check_guests(alloc, config)?;
    check_parts(alloc, config, hw)?;
    check_links(alloc, config)
}
