//! What a script may name.

use outside::{Bytes, Listed};

/// What a script may name, in document order.
#[derive(Debug, Drop)]
pub struct Names {
    /// The consoles; a script's inputs are asked for by their places in this list.
    pub consoles: Listed<Bytes>,
    /// The numbers of the hardware's cpus, usable or not: the schedule of a script without an order of its own.
    pub cpus: Listed<u32>,
}
