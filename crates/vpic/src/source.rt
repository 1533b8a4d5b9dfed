//! How an interrupt source is configured.

/// How an interrupt source is configured.
#[derive(Clone, Copy, Debug, Default, PartialEq, Eq)]
pub struct Source {
    /// Polarity and sense, two bits that nothing here rests on (ePAPR 1.1, chapter 7, interrupts).
    pub config: u32,
    /// From 0 to 15, of which 15 comes first. A source of priority 0 is never taken.
    pub priority: u32,
    /// The core that takes the interrupt, of which there is one: 0.
    pub dest: u32,
}
