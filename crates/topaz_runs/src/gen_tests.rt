//! What no clause says of `gen`: what is written of bundles that numbers make.

use outside::{MemSink, SureFiles};
use std::alloc::Global;
use std::test::Fail;
use topaz_run::{Status, topaz};

/// Numbers, the least and the largest among them, and how many partitions their bundles have: each size once.
const SIZES: [(&str, u32); 7] = [
    ("5", 2),
    ("1", 3),
    ("0", 4),
    ("3", 5),
    ("6", 6),
    ("18446744073709551615", 7),
    ("2", 8),
];

/// What is written of the bundle of 1 behind 100,000 turns, by a model of the ring that was written apart from this program.
const RING: &str = "gen 1 100000 lines 9516 sent 38064
end p0 running 32814
end p1 running 39060
end p2 running 28126
console c0 6560 0 0
console c1 7812 0 0
console c2 5624 0 0
";

/// How `gen` ends, and what it writes.
fn gen_of(alloc: Global, number: &str, turns: &str) -> Result<(Status, MemSink), Fail> {
    let mut words = Vec::new(alloc);
    for word in ["gen", number, turns] {
        words.push(String::from_str(alloc, word)?)?;
    }
    let mut files = SureFiles::new(Vec::new(alloc));
    let mut out = MemSink::new(alloc, 2000, Vec::new(alloc))?;
    let status = topaz(alloc, words.as_slice(), &mut files, &mut out);
    Ok((status, out))
}

/// What is written before the first turn of a bundle with so many partitions.
fn opening(alloc: Global, number: &str, count: u32) -> Result<String, Fail> {
    let mut text = format!(in alloc; "gen {number} 0 lines 0 sent 0\n")?;
    for part in 0..count {
        text.push_str(&format!(in alloc; "end p{part} running 0\n")?)?;
    }
    for console in 0..count {
        text.push_str(&format!(in alloc; "console c{console} 0 0 0\n")?)?;
    }
    Ok(text)
}

/// Whether all is done, and this is written.
fn writes(alloc: Global, number: &str, turns: &str, text: &str) -> Result<bool, Fail> {
    let (status, out) = gen_of(alloc, number, turns)?;
    Ok(status == Status::Ok && out.bytes() == text.as_bytes())
}

#[test]
fn bundles_of_each_size_begin(rt: HostRuntime) -> Result<(), Fail> {
    let alloc = rt.alloc();
    for (number, count) in SIZES {
        let text = opening(alloc, number, count)?;
        assert!(rt; writes(alloc, number, "0", &text)?, "{number}");
    }
    Ok(())
}

#[test]
fn rings_run_alike(rt: HostRuntime) -> Result<(), Fail> {
    let alloc = rt.alloc();
    assert!(rt; writes(alloc, "1", "100000", RING)?);
    assert!(rt; writes(alloc, "1", "100000", RING)?);
    Ok(())
}
