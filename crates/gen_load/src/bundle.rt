//! The whole bundle.

ghost use Rattle.std.specs.Prelude.{◌≡◌, IfOk};
ghost use Rattle.gen_load.specs.Bundle.{IsBundleOf};
ghost use Rattle.gen_load.specs.Draws.{count_of as count_word};

use crate::config::config;
use crate::draws::{drawn, given, next};
use crate::files::{images, script};
use crate::hardware::hardware;
use crate::laws::{counts_are_few, orders_name_cpus, starts_are_small};
use dt_model::Tree;
use outside::{Bytes, Listed, NamedFile, NoMemory};
use std::alloc::Global;

/// What a hypervisor is loaded with.
#[derive(Debug, Drop)]
pub struct Bundle {
    /// The configuration.
    pub config: Tree,
    /// The hardware that it is for.
    pub hardware: Tree,
    /// The image of each partition, by the name that the configuration gives it.
    pub images: Listed<NamedFile>,
    /// The text of the script.
    pub script: Bytes,
}

/// How many turns the script has.
const TURNS: u32 = 64;

/// Below what number each partition begins to count.
const START_LIMIT: u32 = 32_768;

/// How many partitions there are, by the first draw.
#[tactic(auto, unfolding(crate::specs::Draws::count_of))]
fn count_of(number: u64) -> u32
    ensures { result ≡ count_word number }
{
    2 + (given(next(number)) % 7) as u32
}

/// The bundle that a number makes: 2 to 8 partitions in a ring, each with a console. Fails only where memory runs out.
pub fn generate(alloc: Global, number: u64) -> Result<Bundle, NoMemory>
    ensures { IfOk result (λ bundle. IsBundleOf number bundle) }
{
    counts_are_few();
    starts_are_small();
    orders_name_cpus();
    let count = count_of(number);
    let mut state = next(number);
    let starts = drawn(alloc, &mut state, count, START_LIMIT)?;
    let order = drawn(alloc, &mut state, TURNS, count)?;
    Ok(Bundle {
        config: config(alloc, count)?,
        hardware: hardware(alloc, count)?,
        images: images(alloc, &starts)?,
        script: script(alloc, &order)?,
    })
}
