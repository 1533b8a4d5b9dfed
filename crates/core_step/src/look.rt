//! The translations that a core is lent.

ghost use Rattle.std.specs.Prelude.{◌≡◌};
ghost use Rattle.core_step.specs.Pages.{Lookup};

/// A page of translated storage (Power ISA 2.06, Book III-E, chapter 6).
#[derive(Clone, Copy, Debug, PartialEq, Eq)]
pub struct Page {
    /// The effective address of its first byte, a multiple of its size.
    pub ea: u32,
    /// Its size is 4 to the power of this, in KiB; 1 to 11.
    pub tsize: u8,
    /// The permissions, as the low bits of MAS3 have them.
    pub perms: u16,
    /// Whether its bytes are little-endian.
    pub little: bool,
    /// The extent of real memory that it lies in, by its number.
    pub extent: u32,
    /// The offset of its first byte there, in bytes.
    pub at: u32,
    /// The logical address of its first byte.
    pub logical: u64,
}

/// Translations that are looked at: at most one page for each effective address in a space and for a process.
pub trait Look {
    /// Which page that is.
    ghost lookup: { Self → Lookup };

    /// The page that covers the effective address `ea` in the space `ts` for the process `pid`, and `None`
    /// where no page does.
    fn hit(&self, ts: bool, pid: u16, ea: u32) -> Option<Page>
        ensures { result ≡ lookup self.now ts pid ea };
}
