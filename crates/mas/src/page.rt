//! A page as a range of effective addresses.

ghost use Rattle.std.specs.Prelude.{◌≡◌, ◌+◌, ◌^◌, ◌<◌, nat_lt};
ghost use Rattle.mas.specs.Page.{page_size, is_in_page};

/// A page of 4 to this power KiB is as large as the address space, or larger.
const WHOLE_SPACE: u8 = 11;

/// The size of a page in bytes: 4 to the power of `tsize` KiB (Power ISA 2.06, Book III-E, chapter 6, page size).
#[tactic(auto, using(crate::proofs::Sizes::size_is_small, crate::proofs::Sizes::size_is_positive))]
pub fn page_size(tsize: u8) -> u64
    requires { tsize < 16 }
    ensures size { result ≡ page_size tsize }
    ensures positive { 0 < result }
    ensures bound { result < 2 ^ 42 }
{
    4u64.pow(tsize as u32) * 1024
}

/// Whether an effective address lies below the end of the page of 4 to the power of `tsize` KiB at `epn`.
#[tactic(auto, using(crate::proofs::Sizes::size_is_large))]
pub fn is_below_end(epn: u32, tsize: u8, ea: u32) -> bool
    ensures { result ≡ nat_lt ea (epn + page_size tsize) }
{
    if tsize >= WHOLE_SPACE {
        return true;
    }
    (ea as u64) < epn as u64 + page_size(tsize)
}

/// Whether an effective address lies in the page of 4 to the power of `tsize` KiB at `epn`.
#[tactic(auto, unfolding(crate::specs::Page::is_in_page))]
pub fn is_in_page(epn: u32, tsize: u8, ea: u32) -> bool
    ensures { result ≡ is_in_page epn tsize ea }
{
    epn <= ea && is_below_end(epn, tsize, ea)
}
