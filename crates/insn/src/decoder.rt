//! Which instruction a word is. The extended opcodes are looked up one width after the other, since the rows of a width leave other
//! bits open.

ghost use Rattle.std.specs.Prelude.{◌≡◌, ℕ};
ghost use Rattle.insn.specs.Table.{op_of, AtMostOneFits};
ghost use Rattle.insn.specs.Keys.{op_by_fields, by_19, by_31, by_sums, by_high_products, by_products, by_selections, by_system_rows, by_indexed_rows};

use crate::instruction::{Insn, Op};

/// Decodes an instruction word. Each word has an answer: one that fits no row of the table is `Op::Illegal`.
pub fn decode(word: u32) -> Insn
    ensures op { result.op ≡ op_of word }
    ensures word { result.word ≡ word }
{
    Insn {
        op: op_of_word(word),
        word,
    }
}

/// The rows of the table exclude one another: no word fits two of them, so their order means nothing.
pub fn at_most_one_row_fits()
    ensures { AtMostOneFits }
{}

/// What a word asks for.
fn op_of_word(word: u32) -> Op
    ensures { result ≡ op_of word }
{
    op_of_opcode(word >> 26, word)
}

/// The rows by the primary opcode, of six bits.
#[tactic(auto, unfolding(crate::specs::Keys::op_by_fields, crate::specs::Keys::primary_keys))]
fn op_of_opcode(opcode: u32, word: u32) -> Op
    ensures { result ≡ op_by_fields opcode word }
{
    match opcode {
        3 => Op::Twi,
        7 => Op::Mulli,
        8 => Op::Subfic,
        10 => Op::Cmpli,
        11 => Op::Cmpi,
        12 => Op::Addic,
        13 => Op::AddicRecord,
        14 => Op::Addi,
        15 => Op::Addis,
        16 => Op::Bc,
        17 => system_call(word),
        18 => Op::B,
        19 => extended_19(word),
        20 => Op::Rlwimi,
        21 => Op::Rlwinm,
        23 => Op::Rlwnm,
        24 => Op::Ori,
        25 => Op::Oris,
        26 => Op::Xori,
        27 => Op::Xoris,
        28 => Op::Andi,
        29 => Op::Andis,
        31 => extended_31(word),
        32 => Op::Lwz,
        33 => Op::Lwzu,
        34 => Op::Lbz,
        35 => Op::Lbzu,
        36 => Op::Stw,
        37 => Op::Stwu,
        38 => Op::Stb,
        39 => Op::Stbu,
        40 => Op::Lhz,
        41 => Op::Lhzu,
        42 => Op::Lha,
        43 => Op::Lhau,
        44 => Op::Sth,
        45 => Op::Sthu,
        46 => Op::Lmw,
        47 => Op::Stmw,
        48 | 49 | 50 | 51 | 52 | 53 | 54 | 55 | 59 | 63 => Op::FloatingPoint,
        _ => Op::Illegal,
    }
}

/// The rows of opcode 17: the system calls, by their level.
#[tactic(auto, unfolding(crate::specs::Keys::op_by_fields, crate::specs::Keys::primary_keys))]
fn system_call(word: u32) -> Op
    ensures { result ≡ op_by_fields 17 word }
{
    let is_system_call = word >> 1 & 1 == 1;
    let level = word >> 5 & 0x7F;
    match level {
        0 if is_system_call => Op::Sc,
        1 if is_system_call => Op::Hypercall,
        _ => Op::Illegal,
    }
}

/// The rows of opcode 19, by the extended opcode, of ten bits.
#[tactic(auto, unfolding(crate::specs::Keys::by_19, crate::specs::Keys::keys_19))]
fn extended_19(word: u32) -> Op
    ensures { result ≡ by_19 word }
{
    match word >> 1 & 0x3FF {
        0 => Op::Mcrf,
        33 => Op::Crnor,
        129 => Op::Crandc,
        193 => Op::Crxor,
        225 => Op::Crnand,
        257 => Op::Crand,
        289 => Op::Creqv,
        417 => Op::Crorc,
        449 => Op::Cror,
        38 => Op::Rfmci,
        16 => Op::Bclr,
        528 => Op::Bcctr,
        50 => Op::Rfi,
        51 => Op::Rfci,
        150 => Op::Isync,
        _ => Op::Illegal,
    }
}

/// The rows of opcode 31: comparisons and the first others here, whose extended opcode has ten bits.
#[tactic(auto, unfolding(crate::specs::Keys::by_31, crate::specs::Keys::comparisons))]
fn extended_31(word: u32) -> Op
    ensures { result ≡ by_31 word }
{
    match word >> 1 & 0x3FF {
        0 => Op::Cmp,
        32 => Op::Cmpl,
        131 => Op::Wrtee,
        163 => Op::Wrteei,
        4 => Op::Tw,
        _ => sums(word),
    }
}

/// Rows that leave OE open: the extended opcode has nine bits there.
#[tactic(auto, unfolding(crate::specs::Keys::by_sums, crate::specs::Keys::sums))]
fn sums(word: u32) -> Op
    ensures { result ≡ by_sums word }
{
    match word >> 1 & 0x1FF {
        8 => Op::Subfc,
        40 => Op::Subf,
        104 => Op::Neg,
        136 => Op::Subfe,
        200 => Op::Subfze,
        232 => Op::Subfme,
        10 => Op::Addc,
        138 => Op::Adde,
        202 => Op::Addze,
        234 => Op::Addme,
        266 => Op::Add,
        _ => high_products(word),
    }
}

/// The high products, whose extended opcode has ten bits.
#[tactic(auto, unfolding(crate::specs::Keys::by_high_products, crate::specs::Keys::high_products))]
fn high_products(word: u32) -> Op
    ensures { result ≡ by_high_products word }
{
    match word >> 1 & 0x3FF {
        11 => Op::Mulhwu,
        75 => Op::Mulhw,
        _ => products(word),
    }
}

/// The other rows that leave OE open.
#[tactic(auto, unfolding(crate::specs::Keys::by_products, crate::specs::Keys::products))]
fn products(word: u32) -> Op
    ensures { result ≡ by_products word }
{
    match word >> 1 & 0x1FF {
        235 => Op::Mullw,
        459 => Op::Divwu,
        491 => Op::Divw,
        _ => selections(word),
    }
}

/// `isel`, whose extended opcode has five bits.
#[tactic(auto, unfolding(crate::specs::Keys::by_selections, crate::specs::Keys::selections))]
fn selections(word: u32) -> Op
    ensures { result ≡ by_selections word }
{
    match word >> 1 & 0x1F {
        15 => Op::Isel,
        _ => system_rows(word),
    }
}

/// Moves of system registers, instructions on translations and caches, and the loads and stores among them: ten bits.
#[tactic(auto, unfolding(crate::specs::Keys::by_system_rows, crate::specs::Keys::system_rows))]
fn system_rows(word: u32) -> Op
    ensures { result ≡ by_system_rows word }
{
    let records = word & 1 == 1;
    match word >> 1 & 0x3FF {
        144 => Op::Mtcrf,
        18 => Op::Tlbilx,
        146 => Op::Mtmsr,
        786 => Op::Tlbivax,
        914 => Op::Tlbsx,
        946 => Op::Tlbre,
        978 => Op::Tlbwe,
        19 => Op::Mfcr,
        83 => Op::Mfmsr,
        339 => Op::Mfspr,
        371 => Op::Mftb,
        467 => Op::Mtspr,
        20 => Op::Lwarx,
        22 => Op::Icbt,
        54 => Op::Dcbst,
        86 => Op::Dcbf,
        150 if records => Op::Stwcx,
        246 => Op::Dcbtst,
        278 => Op::Dcbt,
        470 => Op::Dcbi,
        534 => Op::Lwbrx,
        566 => Op::Tlbsync,
        598 => Op::Sync,
        662 => Op::Stwbrx,
        758 => Op::Dcba,
        790 => Op::Lhbrx,
        854 => Op::Mbar,
        918 => Op::Sthbrx,
        982 => Op::Icbi,
        1014 => Op::Dcbz,
        _ => indexed_rows(word),
    }
}

/// The other rows: indexed loads and stores, shifts and logic. Their extended opcode has ten bits.
#[tactic(auto, unfolding(crate::specs::Keys::by_indexed_rows, crate::specs::Keys::indexed_rows))]
fn indexed_rows(word: u32) -> Op
    ensures { result ≡ by_indexed_rows word }
{
    match word >> 1 & 0x3FF {
        23 => Op::Lwzx,
        55 => Op::Lwzux,
        87 => Op::Lbzx,
        119 => Op::Lbzux,
        151 => Op::Stwx,
        183 => Op::Stwux,
        215 => Op::Stbx,
        247 => Op::Stbux,
        279 => Op::Lhzx,
        311 => Op::Lhzux,
        343 => Op::Lhax,
        375 => Op::Lhaux,
        407 => Op::Sthx,
        439 => Op::Sthux,
        535 => Op::FloatingPoint,
        567 => Op::FloatingPoint,
        599 => Op::FloatingPoint,
        631 => Op::FloatingPoint,
        663 => Op::FloatingPoint,
        695 => Op::FloatingPoint,
        727 => Op::FloatingPoint,
        759 => Op::FloatingPoint,
        983 => Op::FloatingPoint,
        24 => Op::Slw,
        536 => Op::Srw,
        792 => Op::Sraw,
        824 => Op::Srawi,
        26 => Op::Cntlzw,
        922 => Op::Extsh,
        954 => Op::Extsb,
        28 => Op::And,
        60 => Op::Andc,
        124 => Op::Nor,
        284 => Op::Eqv,
        316 => Op::Xor,
        412 => Op::Orc,
        444 => Op::Or,
        476 => Op::Nand,
        62 => Op::Wait,
        _ => Op::Illegal,
    }
}
