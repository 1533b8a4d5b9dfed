//! Values that were worked out by hand.

use super::{Entry, Mas, from_mas, is_below_end, is_in_page, miss_mas, page_size, to_mas};

const NONE: Mas = Mas {
    m0: 0,
    m1: 0,
    m2: 0,
    m3: 0,
    m4: 0,
    m6: 0,
    m7: 0,
};

#[test]
fn fields_stand_at_their_masks(rt: HostRuntime) {
    let mas = Mas {
        m1: 0xEABC_1A00,
        m2: 0xDEAD_B01D,
        m3: 0x8765_4AB5,
        m7: 0x9,
        ..NONE
    };
    let entry = Entry {
        valid: true,
        iprot: true,
        tid: 0x2ABC,
        ts: true,
        tsize: 10,
        epn: 0xDEAD_B000,
        wimge: 0x1D,
        rpn: 0x9_8765_4000,
        perms: 0x2B5,
    };
    assert_eq!(rt; from_mas(&mas), entry);
    let want = Mas {
        m0: 0x1001_0000,
        m3: 0x8765_42B5,
        ..mas
    };
    assert_eq!(rt;
        to_mas(
            &entry,
            &Mas {
                m0: 0x1001_0000,
                ..NONE
            }
        ),
        want
    );
}

#[test]
fn places_and_searches(rt: HostRuntime) {
    let mas = Mas {
        m0: 0x1ABC_0123,
        m6: 0x3FFE_0001,
        ..NONE
    };
    assert_eq!(rt; mas.tlbsel(), 1);
    assert_eq!(rt; mas.esel(), 0xABC);
    assert_eq!(rt; mas.nv(), 0x123);
    assert_eq!(rt; mas.spid(), 0x3FFE);
    assert!(rt; mas.sas());
    assert_eq!(rt; mas.with_nv(2).m0, 0x1ABC_0002);
    assert_eq!(rt; mas.with_tlbsel_esel(0, 3).m0, 0x0003_0123);
}

#[test]
fn misses(rt: HostRuntime) {
    let cases = [
        // MAS4, the counter; MAS0, MAS1, MAS2
        (0x0000_0100, 0, 0x0000_0001, 0x8007_1100, 0x0400_1000),
        (0x0000_0102, 3, 0x0003_0000, 0x8007_1100, 0x0400_1002),
        (0x1000_0B1F, 3, 0x1000_0000, 0x8007_1B00, 0x0400_101F),
    ];
    for (m4, nv, m0, m1, m2) in cases {
        let mas = Mas {
            m0: 0x3FFF_0FFF,
            m3: 0xFFFF_FFFF,
            m4,
            m6: 0x1234_0000,
            m7: 0xF,
            ..NONE
        };
        let want = Mas {
            m0,
            m1,
            m2,
            m3: 0,
            m4,
            m6: 0x0007_0001,
            m7: 0,
        };
        assert_eq!(rt; miss_mas(&mas, 7, true, 0x0400_1ABC, nv), want, "{m4}");
    }
}

#[test]
fn pages_have_their_addresses(rt: HostRuntime) {
    let cases = [
        // EPN, TSIZE, the address
        (0x0400_1000, 1, 0x0400_1000, true),
        (0x0400_1000, 1, 0x0400_1FFF, true),
        (0x0400_1000, 1, 0x0400_2000, false),
        (0x0400_4000, 2, 0x0400_3FFF, false),
        (0x0400_4000, 2, 0x0400_7FFF, true),
        (0xFFFF_F000, 1, 0xFFFF_FFFF, true),
        (0x0000_0000, 11, 0xFFFF_FFFF, true),
    ];
    for (epn, tsize, ea, want) in cases {
        assert_eq!(rt; is_in_page(epn, tsize, ea), want, "{ea}");
    }
    assert!(rt; is_below_end(0x0400_4000, 2, 0x0400_3FFF));
    assert_eq!(rt; page_size(1), 0x1000);
    assert_eq!(rt; page_size(11), 0x1_0000_0000);
}
