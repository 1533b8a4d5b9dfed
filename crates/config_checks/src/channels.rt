//! C19 and C20: the ends of channels, and consoles.

ghost use Rattle.std.specs.Prelude.{◌≡◌, ◌^◌, ◌-◌, min, count_by, sum_by};
ghost use Rattle.std.specs.List.{list_any, list_all};
ghost use Rattle.config_checks.specs.Channels as spec;

use crate::names::is_long;
use crate::spot::{Spot, channel_spot};
use hv_config::{ChannelDef, HandleDef, Kind, PartDef};

/// Whether it is the kind of an end of a channel.
fn is_channel(kind: Kind) -> bool
    ensures { result ≡ spec.is_channel kind }
{
    matches!(kind, Kind::Channel)
}

/// Whether the handle is an end of the channel with that name.
fn is_end_of(name: &[u8], handle: &HandleDef) -> bool
    ensures { result ≡ spec.is_end_of name.now handle.now }
{
    is_channel(handle.kind) && handle.target.as_slice() == name
}

/// How many of the handles are.
fn ends_among(name: &[u8], handles: &[HandleDef]) -> usize
    ensures { result ≡ count_by (spec.is_end_of name.now) handles.now }
{
    handles
        .iter()
        .filter(|handle| is_end_of(name, handle))
        .count()
}

/// How many ends the partition has.
fn ends_in(name: &[u8], part: &PartDef) -> usize
    ensures { result ≡ spec.ends_in name.now part.now }
{
    ends_among(name, part.handles.as_slice())
}

/// How many the partitions have, or as many as a number can say.
fn ends_of(name: &[u8], parts: &[PartDef]) -> usize
    ensures { result ≡ min (sum_by (spec.ends_in name.now) parts.now) (2 ^ 64 - 1) }
{
    let mut count = 0usize;
    for part in parts {
        count = count.saturating_add(ends_in(name, part));
    }
    count
}

/// Whether the partition has two ends.
fn has_both(name: &[u8], part: &PartDef) -> bool
    ensures { result ≡ spec.has_both name.now part.now }
{
    ends_in(name, part) == 2
}

/// Whether one of the partitions has.
fn have_both(name: &[u8], parts: &[PartDef]) -> bool
    ensures { result ≡ list_any (spec.has_both name.now) parts.now }
{
    parts.iter().any(|part| has_both(name, part))
}

/// Whether the channel hasn't two ends, a console among them, or both are in one partition.
fn is_loose(parts: &[PartDef], channel: &ChannelDef) -> bool
    ensures { result ≡ spec.is_loose parts.now channel.now }
{
    let name = channel.name.as_slice();
    let wanted = if channel.console.is_some() { 1 } else { 2 };
    ends_of(name, parts) != wanted || have_both(name, parts)
}

/// C19: the first such channel.
#[tactic(auto, unfolding(crate::specs::Channels::loose_channel))]
pub fn loose_channel<'a>(parts: &[PartDef], channels: &'a [ChannelDef]) -> Option<Spot<'a>>
    ensures { result ≡ spec.loose_channel parts.now channels.now }
{
    channels
        .iter()
        .find(|channel| is_loose(parts, channel))
        .map(channel_spot)
}

/// Whether the character is one of a to z, 0 to 9, _ and -.
fn is_console_char(byte: u8) -> bool
    ensures { result ≡ spec.is_console_char byte }
{
    byte.is_ascii_lowercase() || byte.is_ascii_digit() || byte == b'_' || byte == b'-'
}

/// Whether all characters are.
fn are_console_chars(name: &[u8]) -> bool
    ensures { result ≡ list_all spec.is_console_char name.now }
{
    name.iter().all(|byte| is_console_char(*byte))
}

/// Whether the channel's console has the name.
fn has_console(name: &[u8], channel: &ChannelDef) -> bool
    ensures { result ≡ spec.has_console name.now channel.now }
{
    match &channel.console {
        Some(console) => console.as_slice() == name,
        None => false,
    }
}

/// Whether one of the channels' consoles has the name.
fn have_console(name: &[u8], channels: &[ChannelDef]) -> bool
    ensures { result ≡ list_any (spec.has_console name.now) channels.now }
{
    channels.iter().any(|channel| has_console(name, channel))
}

/// Whether the name is too long, has another character, or is that of an earlier channel's console.
fn is_bad_console(before: &[ChannelDef], name: &[u8]) -> bool
    ensures { result ≡ spec.is_bad_console before.now name.now }
{
    is_long(name) || !are_console_chars(name) || have_console(name, before)
}

/// Whether the channel has a console of such a name.
fn is_misprinting(before: &[ChannelDef], channel: &ChannelDef) -> bool
    ensures { result ≡ spec.is_misprinting before.now channel.now }
{
    match &channel.console {
        Some(console) => is_bad_console(before, console.as_slice()),
        None => false,
    }
}

/// C20: the first such channel.
#[tactic(auto, unfolding(crate::specs::Channels::misprinting_channel))]
pub fn misprinting_channel(channels: &[ChannelDef]) -> Option<Spot<'_>>
    ensures { result ≡ spec.misprinting_channel channels.now }
{
    for (i, channel) in channels.iter().enumerate() {
        if is_misprinting(&channels[..i], channel) {
            return Some(channel_spot(channel));
        }
    }
    None
}
