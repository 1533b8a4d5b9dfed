//! Laws over the definitions. Each is a function with nothing to do, whose contract is the law.

ghost use Rattle.copy_lists.specs.Laws.{SpansArePrivate, GoneIsChecked, CheckedIsCopiable, BytesPutAreRead, SourceStays, CopiedIsPut, OutIsIn};

/// What a manage handle tells of the memory of its partition is what is private to it.
pub fn spans_hold_what_is_private()
    ensures { SpansArePrivate }
{}

/// A copy that goes passed each check, and its entries may be copied.
pub fn what_goes_may_be_copied()
    ensures checked { GoneIsChecked }
    ensures copiable { CheckedIsCopiable }
{}

/// Bytes that were put at an address are read there, and no other private byte changes.
pub fn bytes_put_are_read()
    ensures { BytesPutAreRead }
{}

/// A copy never changes what is private to its source.
pub fn the_source_stays()
    ensures { SourceStays }
{}

/// A copy is what goes out of the one partition, put into the other, and the bytes that are fed bring the same.
pub fn copies_are_pieces()
    ensures copied { CopiedIsPut }
    ensures pieces { OutIsIn }
{}
