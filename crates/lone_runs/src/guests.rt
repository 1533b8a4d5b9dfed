//! Guests that copy memory, and their images.

use outside::NoMemory;
use std::alloc::Global;

/// The handle of the caller itself.
pub const SELF: u32 = 0xFFFF_FFFF;

/// Where the list of a guest lies in its image.
pub const LIST: u32 = 0x400;

/// What a guest does next.
#[derive(Clone, Copy)]
pub enum Deed {
    /// Copies, by what r3 to r7 hold, in 13 steps.
    Copy([u32; 5]),
    /// Sends what the call before it answered in r3, in 6 steps.
    Answer,
    /// Stores a word at an address, in 5 steps.
    Store(u32, u32),
    /// Sends so many bytes from an address on, eight at most, in 9 steps.
    Send(u32, u32),
    /// Reserves an address, in 3 steps.
    Reserve(u32),
    /// Stores there if the reservation holds, and sends the condition register, in 7 steps.
    Conclude,
    /// Starts the partition of handle 2 at 0, and has its memory stay, in 11 steps.
    Start,
}

/// An entry of a list: the address that is read, the address that is written, and how many bytes.
pub type Entry = (u64, u64, u64);

/// What a guest does, and the list in its image.
#[derive(Clone, Copy)]
pub struct Guest {
    pub deeds: &'static [Deed],
    pub list: &'static [Entry],
}

/// One that does nothing.
pub const NOTHING: Guest = Guest {
    deeds: &[],
    list: &[],
};

/// Stores eight bytes over the edge of its regions, copies them into the partition that it manages, and sends the status.
pub const INTO: Guest = Guest {
    deeds: &[
        Deed::Store(0xFFFC, 0x4142_4344),
        Deed::Store(0x1_0000, 0x4546_4748),
        Deed::Copy([SELF, 2, LIST, 0, 1]),
        Deed::Answer,
    ],
    list: &[(0xFFFC, 0xFFFC, 8)],
};

/// Sends the eight bytes over the edge of its regions.
pub const EDGE: Guest = Guest {
    deeds: &[Deed::Send(0xFFFC, 8)],
    list: &[],
};

/// Copies eight bytes out of the partition that it manages, and sends the status and the bytes.
pub const OUT_OF: Guest = Guest {
    deeds: &[
        Deed::Copy([2, SELF, LIST, 0, 1]),
        Deed::Answer,
        Deed::Send(0xFFFC, 8),
    ],
    list: &[(0xFFFC, 0xFFFC, 8)],
};

/// Stores eight bytes over the edge of its regions.
pub const STORES: Guest = Guest {
    deeds: &[
        Deed::Store(0xFFFC, 0x4142_4344),
        Deed::Store(0x1_0000, 0x4546_4748),
    ],
    list: &[],
};

/// Copies by three entries, of which the last one writes where nothing is private, and sends the status.
pub const THREE_ENTRIES: Guest = Guest {
    deeds: &[
        Deed::Store(0x200, 0x4141_4141),
        Deed::Copy([SELF, 2, LIST, 0, 3]),
        Deed::Answer,
    ],
    list: &[(0x200, 0x300, 4), (0x204, 0x304, 4), (0x208, 0x2_0000, 4)],
};

/// Copies by the first two of them.
pub const TWO_ENTRIES: Guest = Guest {
    deeds: &[
        Deed::Store(0x200, 0x4141_4141),
        Deed::Copy([SELF, 2, LIST, 0, 2]),
        Deed::Answer,
    ],
    list: &[(0x200, 0x300, 4), (0x204, 0x304, 4), (0x208, 0x2_0000, 4)],
};

/// Copies by these handles, counts of entries and lists, and sends each status: both handles are the caller, none is, a channel,
/// none that there is, none at all; no entry, which is done, and one too many; a list behind a handle that is wrong, behind the
/// memory, across its end, above 32 bits, and too long for it.
pub const TWELVE_LISTS: Guest = Guest {
    deeds: &[
        Deed::Copy([SELF, SELF, LIST, 0, 1]),
        Deed::Answer,
        Deed::Copy([2, 2, LIST, 0, 1]),
        Deed::Answer,
        Deed::Copy([SELF, 1, LIST, 0, 1]),
        Deed::Answer,
        Deed::Copy([SELF, 3, LIST, 0, 1]),
        Deed::Answer,
        Deed::Copy([0, SELF, LIST, 0, 1]),
        Deed::Answer,
        Deed::Copy([SELF, 2, LIST, 0, 0]),
        Deed::Answer,
        Deed::Copy([2, SELF, LIST, 0, 1025]),
        Deed::Answer,
        Deed::Copy([SELF, 1, 0x2_0000, 0, 1]),
        Deed::Answer,
        Deed::Copy([SELF, 2, 0x2_0000, 0, 1]),
        Deed::Answer,
        Deed::Copy([SELF, 2, 0x1_FFF0, 0, 1]),
        Deed::Answer,
        Deed::Copy([SELF, 2, LIST, 1, 1]),
        Deed::Answer,
        Deed::Copy([SELF, 2, 0x1_8020, 0, 1024]),
        Deed::Answer,
    ],
    list: &[(0, 0, 0)],
};

/// Copies a word into the last one of the granule at 0x240, which has 64 bytes.
pub const AT_GRANULE: Guest = Guest {
    deeds: &[Deed::Copy([SELF, 2, LIST, 0, 1])],
    list: &[(0x200, 0x27C, 4)],
};

/// Copies a word behind it.
pub const BEHIND_GRANULE: Guest = Guest {
    deeds: &[Deed::Copy([SELF, 2, LIST, 0, 1])],
    list: &[(0x200, 0x280, 4)],
};

/// Sends the eight bytes at 0x300.
pub const SHOWS: Guest = Guest {
    deeds: &[Deed::Send(0x300, 8)],
    list: &[],
};

/// The guest that reserves a word, and stores there if the reservation holds.
pub const HOLDER: Guest = Guest {
    deeds: &[Deed::Reserve(0x240), Deed::Conclude],
    list: &[],
};

/// Puts a number into a general register.
fn put(words: &mut Vec<u32>, register: u32, number: u32) -> Result<(), NoMemory> {
    words.push(0x3C00_0000 | register << 21 | number >> 16)?; // lis
    words.push(0x6000_0000 | register << 21 | register << 16 | number & 0xFFFF)?; // ori
    Ok(())
}

/// Puts these into r3 and those behind it, and calls by a token.
fn put_call(words: &mut Vec<u32>, token: u32, args: &[u32]) -> Result<(), NoMemory> {
    put(words, 11, token)?;
    let mut register = 3u32;
    for number in args {
        put(words, register, *number)?;
        register = register.wrapping_add(1);
    }
    words.push(0x4400_0022)?; // sc 1
    Ok(())
}

/// The instructions of a deed.
fn put_deed(words: &mut Vec<u32>, deed: Deed) -> Result<(), NoMemory> {
    match deed {
        Deed::Copy(args) => put_call(words, 0x2_0008, &args)?,
        Deed::Answer => {
            words.push(0x7C65_1B78)?; // mr r5,r3
            put_sent(words, 4)?;
        }
        Deed::Store(at, word) => {
            put(words, 9, at)?;
            put(words, 10, word)?;
            words.push(0x9149_0000)?; // stw r10,0(r9)
        }
        Deed::Send(at, count) => {
            put(words, 9, at)?;
            words.push(0x80A9_0000)?; // lwz r5,0(r9)
            words.push(0x80C9_0004)?; // lwz r6,4(r9)
            put_sent(words, count)?;
        }
        Deed::Reserve(at) => {
            put(words, 9, at)?;
            words.push(0x7D40_4828)?; // lwarx r10,0,r9
        }
        Deed::Conclude => {
            words.push(0x7D40_492D)?; // stwcx. r10,0,r9
            words.push(0x7CA0_0026)?; // mfcr r5
            put_sent(words, 4)?;
        }
        Deed::Start => put_call(words, 0x2_0006, &[2, 0, 0, 0])?,
    }
    Ok(())
}

/// Sends so many bytes of r5 and r6 on handle 1.
fn put_sent(words: &mut Vec<u32>, count: u32) -> Result<(), NoMemory> {
    words.push(0x3D60_0001)?; // lis r11,1
    words.push(0x616B_0001)?; // ori r11,r11,1
    words.push(0x3860_0001)?; // li r3,1
    words.push(0x3880_0000 | count)?; // li r4
    words.push(0x4400_0022)?; // sc 1
    Ok(())
}

/// The two words of a number.
fn put_long(words: &mut Vec<u32>, number: u64) -> Result<(), NoMemory> {
    words.push((number >> 32) as u32)?;
    words.push((number & 0xFFFF_FFFF) as u32)?;
    Ok(())
}

/// The image of a guest: its instructions, of which the last one is a branch to itself, and its list.
pub fn image_of(alloc: Global, guest: Guest) -> Result<Vec<u32>, NoMemory> {
    let mut words = Vec::new(alloc);
    for deed in guest.deeds {
        put_deed(&mut words, *deed)?;
    }
    words.push(0x4800_0000)?; // b .
    for _word in words.len()..0x100 {
        words.push(0u32)?;
    }
    for &(source, target, size) in guest.list {
        put_long(&mut words, source)?;
        put_long(&mut words, target)?;
        put_long(&mut words, size)?;
        // what isn't looked at
        put_long(&mut words, 0xA5A5_A5A5_5A5A_5A5A)?;
    }
    Ok(words)
}
