//! A translation of a page.

/// A translation of a page (Power ISA 2.06, Book III-E, chapter 6): whose accesses it is for, and where they go.
#[derive(Clone, Copy, Debug, PartialEq, Eq)]
pub struct Entry {
    /// Whether it translates at all.
    pub valid: bool,
    /// Whether invalidations spare it.
    pub iprot: bool,
    /// The PID whose accesses it is for, or 0 for every PID's. 14 bits.
    pub tid: u16,
    /// The address space that it is for.
    pub ts: bool,
    /// The size of its page, of 4 to this power KiB. Four bits.
    pub tsize: u8,
    /// The effective address of its page, a multiple of 4096.
    pub epn: u32,
    /// W 16, I 8, M 4, G 2 and E 1.
    pub wimge: u8,
    /// The logical address of what the page shows, a multiple of 4096. 36 bits.
    pub rpn: u64,
    /// User bits 0x3C0, UX 0x20, SX 0x10, UW 8, SW 4, UR 2 and SR 1.
    pub perms: u16,
}
