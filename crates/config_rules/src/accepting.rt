//! Accepting a configuration, and what it says once it is accepted.

ghost use Rattle.std.specs.Prelude.{◌≡◌, ◌<◌, None, IfErr, IfOk, OnOk, length, position, slice_index_or};
ghost use Rattle.hv_config.specs.declared.config.PartDef.{PartDef};
ghost use Rattle.hv_config.specs.Plain.{IsPlain};
ghost use Rattle.hv_config.specs.Rule.{Says};
ghost use Rattle.config_checks.specs.Found.{is_part};
ghost use Rattle.config_checks.specs.Rules.{first_broken};
ghost use Rattle.config_descs.specs.Desc as spec;
ghost use Rattle.config_descs.specs.Wired.{wiring_of as wiring_word};
ghost use Rattle.config_rules.specs.Accepted.{IsAccepted};

use config_checks::{check, part_named};
use config_descs::{desc_of, shares, wiring_of};
use hv_config::{Board, Config, Fault, PartDef};
use machine_desc::{Desc, Wiring};
use outside::NoMemory;
use std::alloc::Global;
use std::marker::Model;

/// A configuration that breaks no rule on its hardware. Partitions, areas and consoles are numbered from 0 in document
/// order.
#[derive(Debug, Drop)]
pub struct Accepted {
    config: Config,
}

impl Model for Accepted {
    ghost use Rattle.hv_config.specs.declared.config.Config.{Config as ConfigValue};
    ghost use Rattle.hv_config.specs.contracts.config.Config.{the_row};
    ghost use Rattle.config_rules.specs.Accepted.{IsAccepted};

    ghost Value = { ConfigValue };

    ghost coded = { the_row.coded };

    ghost view = { λ accepted. accepted.config };

    ghost invariant = { λ accepted. IsAccepted accepted.config };
}

/// Accepts the configuration on the hardware, or refuses it by the least number of the rules C5 to C22 that it breaks,
/// at the first node in document order that breaks it.
pub fn accept(alloc: Global, config: Config, hw: &Board) -> Result<Accepted, Fault>
    requires { IsPlain config }
    ensures kept { OnOk result (first_broken config hw.now ≡ None) }
    ensures value { IfOk result (λ accepted. accepted ≡ config) }
    ensures broken { IfErr result (λ fault. Says fault (first_broken config hw.now)) }
{
    check(alloc, &config, hw)?;
    Ok(Accepted { config })
}

impl Accepted {
    /// The configuration.
    pub fn config(&self) -> &Config
        ensures value { result.now ≡ self.now }
        ensures accepted { IsAccepted self.now }
    {
        &self.config
    }

    /// The number of the partition with the name.
    pub fn part_named(&self, name: &[u8]) -> Option<usize>
        ensures { result ≡ position (is_part name.now) self.now.parts }
    {
        part_named(self.config.parts.as_slice(), name)
    }

    /// Whether the partition of that number shares an area with another one.
    pub fn shares(&self, part: usize) -> bool
        requires { part < length self.now.parts }
        ensures { (d : PartDef) → result ≡ spec.shares self.now (slice_index_or self.now.parts part d) }
    {
        shares(&self.config, &self.config.parts.as_slice()[part])
    }

    /// What the partition of that number is, before its image and its device tree are there: its entry is 0, and it has
    /// no pieces.
    pub fn base(&self, alloc: Global, part: usize) -> Result<Desc, NoMemory>
        requires { part < length self.now.parts }
        ensures { IfOk result (λ desc. (d : PartDef) → desc ≡ spec.desc_of self.now (slice_index_or self.now.parts part d)) }
    {
        desc_of(alloc, &self.config, &self.config.parts.as_slice()[part])
    }

    /// What joins the partitions, and the real memory under them.
    pub fn wiring(&self, alloc: Global) -> Result<Wiring, NoMemory>
        ensures { IfOk result (λ wiring. wiring ≡ wiring_word self.now) }
    {
        wiring_of(alloc, &self.config)
    }
}
