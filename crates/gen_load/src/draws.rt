//! Draws from a linear congruential generator of 64 bits.

ghost use Rattle.std.specs.Prelude.{◌≡◌, ◌<◌, ◌≤◌, ◌/◌, ◌^◌, All, IfOk, OnOk};
ghost use Rattle.gen_load.specs.Draws as spec;

use outside::NoMemory;
use std::alloc::Global;

const MULTIPLIER: u64 = 6_364_136_223_846_793_005;

const INCREMENT: u64 = 1_442_695_040_888_963_407;

/// How many low bits of a state a draw doesn't give.
const DROPPED_BITS: u32 = 33;

/// The state behind one draw.
#[tactic(auto, using(crate::proofs::Drawing::next_is))]
pub fn next(state: u64) -> u64
    ensures { result ≡ spec.next state }
{
    state.wrapping_mul(MULTIPLIER).wrapping_add(INCREMENT)
}

/// What a draw gives that leaves this state.
pub fn given(state: u64) -> u64
    ensures { result ≡ spec.given state }
{
    state >> DROPPED_BITS
}

/// So many draws below a modulus, which leave the state behind the last.
pub fn drawn(alloc: Global, state: &mut u64, many: u32, modulus: u32) -> Result<Vec<u32>, NoMemory>
    requires { 0 < modulus }
    ensures state { OnOk result (state.new ≡ spec.state_after many state.old) }
    ensures list { IfOk result (λ list. list.items ≡ spec.drawn state.old many modulus) }
{
    let mut list = Vec::new(alloc);
    for _place in 0..many {
        *state = next(*state);
        list.push((given(*state) % u64::from(modulus)) as u32)?;
    }
    Ok(list)
}
