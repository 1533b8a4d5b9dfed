//! The built-in machine.

ghost use Rattle.std.specs.Prelude.{◌≡◌, ◌≤◌, [], ◌∷◌, length, IfOk};
ghost use Rattle.topaz_run.specs.BuiltIn as spec;

use machine_desc::{Desc, End, Link, Piece, Port, PortRef, Region, Wiring};
use outside::{Bytes, Listed, NoMemory};
use script::Names;
use std::alloc::Global;

/// How many bytes of memory it has, from logical address 0.
pub const MEMORY_SIZE: u32 = 65_536;

/// A list of one element.
pub fn one<T: Drop>(alloc: Global, item: T) -> Result<Listed<T>, NoMemory>
    ensures { IfOk result (λ list. list ≡ item ∷ []) }
{
    let mut list = Vec::with_capacity(alloc, 1)?;
    list.push(item)?;
    Ok(Listed::from_vec(list))
}

/// Its description with an image, which fits the memory.
#[tactic(auto, unfolding(crate::specs::BuiltIn::built_in))]
pub fn description(alloc: Global, image: &[u8]) -> Result<Desc, NoMemory>
    requires { length image.now ≤ spec.memory_size }
    ensures { IfOk result (λ desc. desc ≡ spec.built_in image.now) }
{
    let region = Region {
        logical: 0,
        size: MEMORY_SIZE,
        extent: 0,
        real: 0,
        private: true,
    };
    let piece = Piece {
        at: 0,
        bytes: Bytes::of(alloc, image)?,
        len: image.len() as u32,
    };
    Ok(Desc {
        name: Bytes::of(alloc, b"guest")?,
        regions: one(alloc, region)?,
        cores: one(alloc, 0)?,
        ports: one(alloc, Port::Channel { rx: 0, tx: 1 })?,
        tree_at: 0,
        tree_size: 0,
        entry: 0,
        held: false,
        pieces: one(alloc, piece)?,
    })
}

/// What its channel leads to.
#[tactic(auto, unfolding(crate::specs::BuiltIn::built_in_wiring))]
pub fn wiring(alloc: Global) -> Result<Wiring, NoMemory>
    ensures { IfOk result (λ wiring. wiring ≡ spec.built_in_wiring) }
{
    let link = Link {
        a: End::Part(PortRef { part: 0, handle: 1 }),
        b: End::Console(0),
    };
    Ok(Wiring {
        sizes: one(alloc, MEMORY_SIZE)?,
        reals: one(alloc, 0)?,
        links: one(alloc, link)?,
        bells: Listed::new(alloc),
        managers: one(alloc, None)?,
        consoles: one(alloc, Bytes::of(alloc, b"con")?)?,
    })
}

/// What a script of it may name: its console, and its core.
#[tactic(auto, unfolding(crate::specs::BuiltIn::built_in_names))]
pub fn names(alloc: Global) -> Result<Names, NoMemory>
    ensures { IfOk result (λ names. names ≡ spec.built_in_names) }
{
    Ok(Names {
        consoles: one(alloc, Bytes::of(alloc, b"con")?)?,
        cpus: one(alloc, 0)?,
    })
}
