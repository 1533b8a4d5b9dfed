//! Loads and stores: their access, what completes them, and what they store.

use super::*;
use arrayvec::ArrayVec;
use guest_regs::{Regs, boot};
use insn::decode;
use std::test::*;

/// A load, as an assembler writes it, its access, and r5 and r3 after the bytes 81, 82, .. came.
#[derive(Clone, Copy)]
struct Load {
    text: &'static str,
    word: u32,
    ea: u32,
    len: u8,
    form: Form,
    /// (r5) after it.
    result: u32,
    /// (r3) after it.
    base: u32,
}

/// A load of a word that leaves (r3) 0x1000.
const LOAD: Load = Load {
    text: "",
    word: 0,
    ea: 0,
    len: 4,
    form: Form::Load,
    result: 0,
    base: 0x1000,
};

const LOADS: [Load; 23] = [
    Load {
        text: "lwz r5, 8(r3)",
        word: 0x80A3_0008,
        ea: 0x1008,
        result: 0x8182_8384,
        ..LOAD
    },
    Load {
        text: "lwz r5, -4(0)",
        word: 0x80A0_FFFC,
        ea: 0xFFFF_FFFC,
        result: 0x8182_8384,
        ..LOAD
    },
    Load {
        text: "lwzu r5, -4(r3)",
        word: 0x84A3_FFFC,
        ea: 0xFFC,
        result: 0x8182_8384,
        base: 0xFFC,
        ..LOAD
    },
    Load {
        text: "lbz r5, 1(r3)",
        word: 0x88A3_0001,
        ea: 0x1001,
        len: 1,
        result: 0x81,
        ..LOAD
    },
    Load {
        text: "lbzu r5, 1(r3)",
        word: 0x8CA3_0001,
        ea: 0x1001,
        len: 1,
        result: 0x81,
        base: 0x1001,
        ..LOAD
    },
    Load {
        text: "lhz r5, 2(r3)",
        word: 0xA0A3_0002,
        ea: 0x1002,
        len: 2,
        result: 0x8182,
        ..LOAD
    },
    Load {
        text: "lhzu r5, 2(r3)",
        word: 0xA4A3_0002,
        ea: 0x1002,
        len: 2,
        result: 0x8182,
        base: 0x1002,
        ..LOAD
    },
    Load {
        text: "lha r5, 2(r3)",
        word: 0xA8A3_0002,
        ea: 0x1002,
        len: 2,
        result: 0xFFFF_8182,
        ..LOAD
    },
    Load {
        text: "lhau r5, 2(r3)",
        word: 0xACA3_0002,
        ea: 0x1002,
        len: 2,
        result: 0xFFFF_8182,
        base: 0x1002,
        ..LOAD
    },
    Load {
        text: "lwzx r5, r3, r4",
        word: 0x7CA3_202E,
        ea: 0x1010,
        result: 0x8182_8384,
        ..LOAD
    },
    Load {
        text: "lwzx r5, 0, r4",
        word: 0x7CA0_202E,
        ea: 0x10,
        result: 0x8182_8384,
        ..LOAD
    },
    Load {
        text: "lwzux r5, r3, r4",
        word: 0x7CA3_206E,
        ea: 0x1010,
        result: 0x8182_8384,
        base: 0x1010,
        ..LOAD
    },
    Load {
        text: "lbzx r5, r3, r4",
        word: 0x7CA3_20AE,
        ea: 0x1010,
        len: 1,
        result: 0x81,
        ..LOAD
    },
    Load {
        text: "lbzux r5, r3, r4",
        word: 0x7CA3_20EE,
        ea: 0x1010,
        len: 1,
        result: 0x81,
        base: 0x1010,
        ..LOAD
    },
    Load {
        text: "lhzx r5, r3, r4",
        word: 0x7CA3_222E,
        ea: 0x1010,
        len: 2,
        result: 0x8182,
        ..LOAD
    },
    Load {
        text: "lhzux r5, r3, r4",
        word: 0x7CA3_226E,
        ea: 0x1010,
        len: 2,
        result: 0x8182,
        base: 0x1010,
        ..LOAD
    },
    Load {
        text: "lhax r5, r3, r4",
        word: 0x7CA3_22AE,
        ea: 0x1010,
        len: 2,
        result: 0xFFFF_8182,
        ..LOAD
    },
    Load {
        text: "lhaux r5, r3, r4",
        word: 0x7CA3_22EE,
        ea: 0x1010,
        len: 2,
        result: 0xFFFF_8182,
        base: 0x1010,
        ..LOAD
    },
    Load {
        text: "lwbrx r5, r3, r4",
        word: 0x7CA3_242C,
        ea: 0x1010,
        result: 0x8483_8281,
        ..LOAD
    },
    Load {
        text: "lhbrx r5, r3, r4",
        word: 0x7CA3_262C,
        ea: 0x1010,
        len: 2,
        result: 0x8281,
        ..LOAD
    },
    Load {
        text: "lwarx r5, r3, r4",
        word: 0x7CA3_2028,
        ea: 0x1010,
        form: Form::Reserve,
        result: 0x8182_8384,
        ..LOAD
    },
    // the address comes last
    Load {
        text: "lwzu r3, 4(r3)",
        word: 0x8463_0004,
        ea: 0x1004,
        result: 0x1111_1111,
        base: 0x1004,
        ..LOAD
    },
    // (r0) is 77
    Load {
        text: "lwzu r5, 16(r0)",
        word: 0x84A0_0010,
        ea: 0x5D,
        result: 0x8182_8384,
        ..LOAD
    },
];

/// A store, as an assembler writes it, its access, what it stores, and r3 after it. (r5) is 0x12345678.
#[derive(Clone, Copy)]
struct Store {
    text: &'static str,
    word: u32,
    ea: u32,
    form: Form,
    bytes: &'static [u8],
    /// (r3) after it.
    base: u32,
}

/// A store that leaves (r3) 0x1000.
const STORE: Store = Store {
    text: "",
    word: 0,
    ea: 0,
    form: Form::Store,
    bytes: &[],
    base: 0x1000,
};

const STORES: [Store; 16] = [
    Store {
        text: "stw r5, 8(r3)",
        word: 0x90A3_0008,
        ea: 0x1008,
        bytes: &[0x12, 0x34, 0x56, 0x78],
        ..STORE
    },
    Store {
        text: "stwu r5, -16(r3)",
        word: 0x94A3_FFF0,
        ea: 0xFF0,
        bytes: &[0x12, 0x34, 0x56, 0x78],
        base: 0xFF0,
        ..STORE
    },
    Store {
        text: "stb r5, 1(r3)",
        word: 0x98A3_0001,
        ea: 0x1001,
        bytes: &[0x78],
        ..STORE
    },
    Store {
        text: "stbu r5, 1(r3)",
        word: 0x9CA3_0001,
        ea: 0x1001,
        bytes: &[0x78],
        base: 0x1001,
        ..STORE
    },
    Store {
        text: "sth r5, 2(r3)",
        word: 0xB0A3_0002,
        ea: 0x1002,
        bytes: &[0x56, 0x78],
        ..STORE
    },
    Store {
        text: "sthu r5, 2(r3)",
        word: 0xB4A3_0002,
        ea: 0x1002,
        bytes: &[0x56, 0x78],
        base: 0x1002,
        ..STORE
    },
    Store {
        text: "stwx r5, r3, r4",
        word: 0x7CA3_212E,
        ea: 0x1010,
        bytes: &[0x12, 0x34, 0x56, 0x78],
        ..STORE
    },
    Store {
        text: "stwux r5, r3, r4",
        word: 0x7CA3_216E,
        ea: 0x1010,
        bytes: &[0x12, 0x34, 0x56, 0x78],
        base: 0x1010,
        ..STORE
    },
    Store {
        text: "stbx r5, r3, r4",
        word: 0x7CA3_21AE,
        ea: 0x1010,
        bytes: &[0x78],
        ..STORE
    },
    Store {
        text: "stbux r5, r3, r4",
        word: 0x7CA3_21EE,
        ea: 0x1010,
        bytes: &[0x78],
        base: 0x1010,
        ..STORE
    },
    Store {
        text: "sthx r5, r3, r4",
        word: 0x7CA3_232E,
        ea: 0x1010,
        bytes: &[0x56, 0x78],
        ..STORE
    },
    Store {
        text: "sthux r5, r3, r4",
        word: 0x7CA3_236E,
        ea: 0x1010,
        bytes: &[0x56, 0x78],
        base: 0x1010,
        ..STORE
    },
    Store {
        text: "stwbrx r5, r3, r4",
        word: 0x7CA3_252C,
        ea: 0x1010,
        bytes: &[0x78, 0x56, 0x34, 0x12],
        ..STORE
    },
    Store {
        text: "sthbrx r5, r3, r4",
        word: 0x7CA3_272C,
        ea: 0x1010,
        bytes: &[0x78, 0x56],
        ..STORE
    },
    Store {
        text: "stwcx. r5, r3, r4",
        word: 0x7CA3_212D,
        ea: 0x1010,
        form: Form::Conditional,
        bytes: &[0x12, 0x34, 0x56, 0x78],
        ..STORE
    },
    Store {
        text: "stmw r30, 0(r3)",
        word: 0xBFC3_0000,
        ea: 0x1000,
        form: Form::Many,
        bytes: &[0xA0, 0, 0, 1, 0xB0, 0, 0, 2],
        ..STORE
    },
];

/// What loads find.
const BYTES: [u8; 8] = [0x81, 0x82, 0x83, 0x84, 0x85, 0x86, 0x87, 0x88];

/// (r3) is 0x1000, and (r4) is 0x10.
fn registers() -> Regs {
    let mut regs = boot(0x100, 0, 0);
    regs.set_gpr(0, 77);
    regs.set_gpr(3, 0x1000);
    regs.set_gpr(4, 0x10);
    regs.set_gpr(30, 0xA000_0001);
    regs.set_gpr(31, 0xB000_0002);
    regs
}

/// Makes a load, and finishes it by the bytes.
fn complete_load(word: u32, regs: &mut Regs, bytes: &[u8]) -> Option<Access> {
    let insn = decode(word);
    match exec(&insn, regs) {
        Effect::Memory(access) => {
            if !access.store && bytes.len() == access.len as usize {
                finish_load(&insn, regs, bytes);
            }
            Some(access)
        }
        _ => None,
    }
}

/// Makes a store, and finishes it by a byte that tells whether it was made.
fn complete_store(word: u32, regs: &mut Regs, made: u8) -> Option<(Access, ArrayVec<u8, 128>)> {
    let insn = decode(word);
    match exec(&insn, regs) {
        Effect::Memory(access) => {
            if access.store && made < 2 {
                let bytes = stored(&insn, regs);
                finish_load(&insn, regs, &[made]);
                Some((access, bytes))
            } else {
                None
            }
        }
        _ => None,
    }
}

#[test]
fn loads(rt: HostRuntime) {
    for sample in LOADS.iter() {
        let text = sample.text;
        let mut regs = registers();
        regs.set_gpr(5, 0x1111_1111);
        let access = Access {
            ea: sample.ea,
            len: sample.len,
            form: sample.form,
            store: false,
        };
        let bytes = &BYTES[..(sample.len % 9) as usize];
        assert_eq!(rt;
            complete_load(sample.word, &mut regs, bytes),
            Some(access),
            "{text}"
        );
        assert_eq!(rt;
            (regs.gpr(5), regs.gpr(3), regs.pc()),
            (sample.result, sample.base, 0x104),
            "{text}"
        );
    }
    // lmw r30, 0(r3), and lmw r31, 0(r31), whose base is filled too
    let mut regs = registers();
    assert_eq!(rt;
        complete_load(0xBBC3_0000, &mut regs, &BYTES).is_some(),
        true
    );
    assert_eq!(rt;
        (regs.gpr(29), regs.gpr(30), regs.gpr(31)),
        (0, 0x8182_8384, 0x8586_8788)
    );
    assert_eq!(rt;
        complete_load(0xBBFF_0000, &mut regs, &BYTES[..4]).is_some(),
        true
    );
    assert_eq!(rt; (regs.gpr(30), regs.gpr(31)), (0x8182_8384, 0x8182_8384));
}

#[test]
fn stores(rt: HostRuntime) -> Result<(), Fail> {
    for sample in STORES.iter() {
        let text = sample.text;
        let mut regs = registers();
        regs.set_gpr(5, 0x1234_5678);
        let (access, piece) = complete_store(sample.word, &mut regs, 1).ok_or("no store")?;
        assert_eq!(rt;
            (access.ea, access.form, access.store),
            (sample.ea, sample.form, true),
            "{text}"
        );
        assert_eq!(rt; access.len as usize, sample.bytes.len(), "{text}");
        assert_eq!(rt; piece.as_slice(), sample.bytes, "{text}");
        assert_eq!(rt; (regs.gpr(3), regs.pc()), (sample.base, 0x104), "{text}");
    }
    // stmw r0, 0(r3) has all registers
    let (access, piece) = complete_store(0xBC03_0000, &mut registers(), 1).ok_or("no store")?;
    assert_eq!(rt; (access.len, piece.len()), (128, 128));
    // dcbz r3, r4 has the block of 0x1010
    let (access, piece) = complete_store(0x7C03_27EC, &mut registers(), 1).ok_or("no store")?;
    assert_eq!(rt;
        (access.ea, access.len, access.form),
        (0x1000, 64, Form::Zero)
    );
    assert_eq!(rt; piece.as_slice(), [0; 64].as_slice());
    // stwcx. reports in CR0 whether it stored, with SO
    for (made, xer, cr) in [
        (0, 0, 0x0FFF_FFFF),
        (1, 0, 0x2FFF_FFFF),
        (0, 0x8000_0000, 0x1FFF_FFFF),
        (1, 0x8000_0000, 0x3FFF_FFFF),
    ] {
        let mut regs = registers();
        regs.set_cr(0xFFFF_FFFF);
        regs.set_xer(xer);
        assert_eq!(rt;
            complete_store(0x7CA3_212D, &mut regs, made).is_some(),
            true
        );
        assert_eq!(rt; (regs.cr(), regs.gpr(3)), (cr, 0x1000));
    }
    Ok(())
}
