//! The header of an ELF file, and which files are no images for the machine.

ghost use Rattle.std.specs.Prelude.{◌≡◌, ◌≤◌, ◌+◌, length, drop};
ghost use Rattle.byteorder.specs.Endian.{big_number};
ghost use Rattle.elf_image.specs.Header as spec;

use byteorder::{BigEndian, ByteOrder};

/// Bytes of a file's header.
pub const HEADER_SIZE: usize = 52;

/// Bytes of a program header.
pub const ROW_SIZE: usize = 32;

const MOST_ROWS: u16 = 64;

/// What of the header counts (System V ABI, chapter 4, "ELF Header").
#[derive(Clone, Copy)]
pub struct Header {
    /// Of e_ident: 1 for 32 bits.
    pub class: u8,
    /// Of e_ident: 2 for the highest byte first.
    pub order: u8,
    /// e_type: 2 for an executable, 3 for a shared object.
    pub kind: u16,
    /// e_machine: 20 for PowerPC.
    pub machine: u16,
    /// e_entry: a virtual address.
    pub entry: u32,
    /// e_phoff: where the program headers begin in the file.
    pub table_at: u32,
    /// e_phentsize: the bytes of a program header.
    pub row_size: u16,
    /// e_phnum: how many program headers there are.
    pub count: u16,
}

/// Whether the file says that it is ELF.
#[tactic(auto, unfolding(crate::specs::Header::is_elf))]
pub fn is_elf(file: &[u8]) -> bool
    ensures { result ≡ spec.is_elf file.now }
{
    file.starts_with(&[0x7f, b'E', b'L', b'F'])
}

/// Whether the file is a uImage, or what gzip makes.
#[tactic(auto, unfolding(crate::specs::Header::is_packed))]
pub fn is_packed(file: &[u8]) -> bool
    ensures { result ≡ spec.is_packed file.now }
{
    file.starts_with(&[0x27, 0x05, 0x19, 0x56]) || file.starts_with(&[0x1f, 0x8b])
}

/// The number of two bytes at this place.
fn half_at(file: &[u8], at: usize) -> u16
    requires { at + 2 ≤ length file.now }
    ensures { result ≡ big_number 2 (drop at file.now) }
{
    BigEndian::read_u16(&file[at..])
}

/// The number of four bytes at this place.
pub fn word_at(file: &[u8], at: usize) -> u32
    requires { at + 4 ≤ length file.now }
    ensures { result ≡ big_number 4 (drop at file.now) }
{
    BigEndian::read_u32(&file[at..])
}

/// The header at the front of a file that has all of it.
#[tactic(auto, unfolding(crate::specs::Header::header_of))]
pub fn header_of(file: &[u8]) -> Header
    requires { 52 ≤ length file.now }
    ensures { result ≡ spec.header_of file.now }
{
    Header {
        class: file[4],
        order: file[5],
        kind: half_at(file, 16),
        machine: half_at(file, 18),
        entry: word_at(file, 24),
        table_at: word_at(file, 28),
        row_size: half_at(file, 42),
        count: half_at(file, 44),
    }
}

/// Whether the header isn't that of an image for the machine.
#[tactic(auto, unfolding(crate::specs::Header::is_for_others))]
pub fn is_for_others(header: &Header) -> bool
    ensures { result ≡ spec.is_for_others header.now }
{
    header.class != 1
        || header.order != 2
        || !(header.kind == 2 || header.kind == 3)
        || header.machine != 20
        || header.row_size as usize != ROW_SIZE
        || header.count == 0
        || header.count > MOST_ROWS
}
