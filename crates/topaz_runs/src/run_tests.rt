//! What no clause says of `run`: what is written of bundles that were worked out by hand.

use crate::bundles::blob;
use crate::check_tests::{answer, hardware, two};
use lone_runs::images::{
    CLOCK, ECHO, FILL, HEAR, HELLO, HOLD, LOOK, PASS, RING, START, TAKE, UNBACKED,
};
use lone_runs::reports::{BOTH_SEND, ECHOED, FILLED, HEARD, ONE_SENDS, UNHEARD};
use outside::{Bytes, MemFiles, MemSink, NamedFile, NoMemory};
use std::alloc::Global;
use std::test::Fail;
use topaz_run::{Status, topaz};

/// An ELF file up to the end of its header: the entry, then a table of one row right behind the header.
const HEADER: [u32; 13] = [
    0x7F45_4C46,
    0x0102_0100,
    0,
    0,
    0x0002_0014,
    1,
    0x02,
    52,
    0,
    0,
    0x0034_0020,
    0x0001_0000,
    0,
];

/// What the row of a segment says: its bytes of the file, where they begin in it, its addresses and its size.
const ROW: [u32; 8] = [1, 84, 0, 0, 4, 64, 7, 4];

/// Three cpus, and memory from 0 on.
const HARDWARE: &str = " #address-cells:2 #size-cells:2
.cpus #address-cells:1 #size-cells:0
..cpu@0 device_type=cpu reg:0
..cpu@1 device_type=cpu reg:1
..cpu@2 device_type=cpu reg:2
.memory@0 device_type=memory reg:0,0,0,100000";

/// What configurations in short begin with: the areas.
const AREAS: &str = " compatible=topaz,config
.areas
..a base:0,0 size:0,10000
..b base:0,10000 size:0,10000
..c base:0,20000 size:0,10000
..s base:0,30000 size:0,1000
";

/// The configuration with a channel of `p` and `q`, and one of `p` to a console.
const JOINED: &str = ".channels
..x
..y console=cp
.partitions
..p cpus:0 image=a tree-at:0,8000 tree-size:0,4000
...areas
....m area=a at:0,0
...handles
....c kind=channel target=x
....d kind=channel target=y
..q cpus:1 image=b tree-at:0,8000 tree-size:0,4000
...areas
....m area=b at:0,0
...handles
....c kind=channel target=x";

/// Three partitions, each with a channel from the one before it and one to the one behind it.
const ROUND: &str = ".channels
..x
..y
..z
.partitions
..p cpus:0 image=a tree-at:0,8000 tree-size:0,4000
...areas
....m area=a at:0,0
...handles
....c kind=channel target=z
....d kind=channel target=x
..q cpus:1 image=b tree-at:0,8000 tree-size:0,4000
...areas
....m area=b at:0,0
...handles
....c kind=channel target=x
....d kind=channel target=y
..r cpus:2 image=c tree-at:0,8000 tree-size:0,4000
...areas
....m area=c at:0,0
...handles
....c kind=channel target=y
....d kind=channel target=z";

/// Three partitions that map one area at three addresses, and print.
const SHARED: &str = ".channels
..x console=cp
..y console=cr
.partitions
..p cpus:0 image=a tree-at:0,8000 tree-size:0,4000
...areas
....m area=a at:0,0
....s area=s at:0,20000
...handles
....c kind=channel target=x
..q cpus:1 image=b tree-at:0,8000 tree-size:0,4000
...areas
....m area=b at:0,0
....s area=s at:0,30000
..r cpus:2 image=c tree-at:0,8000 tree-size:0,4000
...areas
....m area=c at:0,0
....s area=s at:0,50000
...handles
....c kind=channel target=y";

/// Two partitions with consoles, of which the first rings a doorbell and the second hears it.
const RUNG: &str = ".channels
..x console=cp
..y console=cq
.doorbells
..d
.partitions
..p cpus:0 image=a tree-at:0,8000 tree-size:0,4000
...areas
....m area=a at:0,0
...handles
....c kind=channel target=x
....s kind=send target=d
..q cpus:1 image=b tree-at:0,8000 tree-size:0,4000
...areas
....m area=b at:0,0
...handles
....c kind=channel target=y
....r kind=receive target=d";

/// A partition with a console beside two that share an area, a channel and a doorbell.
const BESIDE: &str = ".channels
..x console=cp
..y
.doorbells
..d
.partitions
..p cpus:0 image=a tree-at:0,8000 tree-size:0,4000
...areas
....m area=a at:0,0
...handles
....c kind=channel target=x
..q cpus:1 image=b tree-at:0,8000 tree-size:0,4000
...areas
....m area=b at:0,0
....s area=s at:0,20000
...handles
....c kind=channel target=y
....s kind=send target=d
..r cpus:2 image=c tree-at:0,8000 tree-size:0,4000
...areas
....m area=c at:0,0
....s area=s at:0,20000
...handles
....c kind=channel target=y
....r kind=receive target=d";

/// Eight cpus, and 4 GiB of memory in two ranges.
const LARGE_HARDWARE: &str = " #address-cells:2 #size-cells:2
.cpus #address-cells:1 #size-cells:0
..cpu@0 device_type=cpu reg:0
..cpu@1 device_type=cpu reg:1
..cpu@2 device_type=cpu reg:2
..cpu@3 device_type=cpu reg:3
..cpu@4 device_type=cpu reg:4
..cpu@5 device_type=cpu reg:5
..cpu@6 device_type=cpu reg:6
..cpu@7 device_type=cpu reg:7
.memory@0 device_type=memory reg:0,0,0,80000000,1,0,0,80000000";

/// Partitions of 256, 64 and 16 MiB with a console each, of which the last manages the others.
const LARGE: &str = " compatible=topaz,config
.areas
..a base:0,0 size:0,10000000
..b base:0,10000000 size:0,4000000
..c base:1,0 size:0,1000000
.channels
..x console=cp
..y console=cq
..z console=cr
.partitions
..p cpus:0 image=hi tree-at:0,8000 tree-size:0,4000
...areas
....m area=a at:0,0
...handles
....c kind=channel target=x
..q cpus:1 image=hi tree-at:0,8000 tree-size:0,4000
...areas
....m area=b at:0,0
...handles
....c kind=channel target=y
..r cpus:2 image=hi tree-at:0,8000 tree-size:0,4000
...areas
....m area=c at:0,0
...handles
....c kind=channel target=z
....p kind=manage target=p
....q kind=manage target=q";

/// What the images of the partitions beside are made of: calls, stores, loads, branches and what is no instruction.
const SCRAPS: [u32; 16] = [
    0x3D60_0001,
    0x616B_0001,
    0x616B_0002,
    0x616B_000E,
    0x3860_0001,
    0x3860_0002,
    0x3880_0004,
    0x4400_0022,
    0x3D20_0002,
    0x9129_0044,
    0x80A9_0044,
    0x7D40_4828,
    0x7D40_492D,
    0x4BFF_FFF0,
    0x4BFF_FFC0,
    0,
];

fn bytes_of(alloc: Global, words: &[u32]) -> Result<Vec<u8>, NoMemory> {
    let mut bytes = Vec::new(alloc);
    for word in words {
        bytes.extend_from_slice(&word.to_be_bytes())?;
    }
    Ok(bytes)
}

/// An ELF file of one segment of four bytes, with this entry, this number of bytes that it takes of the file, and this many in all.
fn elf(alloc: Global, entry: u32, taken: u32, total: u32) -> Result<Vec<u8>, NoMemory> {
    let mut header = HEADER;
    header[6] = entry;
    let mut row = ROW;
    row[4] = taken;
    row[5] = total;
    let mut file = bytes_of(alloc, &header)?;
    file.extend_from_slice(&bytes_of(alloc, &row)?)?;
    file.extend_from_slice(&[0x48, 0, 0, 0])?;
    Ok(file)
}

fn named(alloc: Global, name: &str, bytes: Bytes) -> Result<NamedFile, NoMemory> {
    Ok(NamedFile {
        name: Bytes::of(alloc, name.as_bytes())?,
        bytes,
    })
}

/// The files `c`, `h`, `hi` and `s` of the configuration of two partitions, but for the one of the name that is left out.
fn bundle(
    alloc: Global,
    image: Vec<u8>,
    script: &[u8],
    left_out: &str,
) -> Result<Vec<NamedFile>, NoMemory> {
    let mut list = Vec::new(alloc);
    for file in [
        named(alloc, "c", two(alloc, &[])?)?,
        named(alloc, "h", hardware(alloc, &[])?)?,
        named(alloc, "hi", Bytes::from_vec(image))?,
        named(alloc, "s", Bytes::of(alloc, script)?)?,
    ] {
        if file.name.as_slice() != left_out.as_bytes() {
            list.push(file)?;
        }
    }
    Ok(list)
}

/// The files `c`, `h`, `a`, `b`, `c` and `s` of a configuration in short.
pub fn short_bundle(
    alloc: Global,
    config: &str,
    images: [&[u32]; 3],
    script: Bytes,
) -> Result<Vec<NamedFile>, NoMemory> {
    let mut whole = String::from_str(alloc, AREAS)?;
    whole.push_str(config)?;
    let [first, second, third] = images;
    let mut list = Vec::new(alloc);
    list.push(named(alloc, "config", blob(alloc, &whole)?)?)?;
    list.push(named(alloc, "h", blob(alloc, HARDWARE)?)?)?;
    list.push(named(alloc, "a", Bytes::from_vec(bytes_of(alloc, first)?))?)?;
    list.push(named(alloc, "b", Bytes::from_vec(bytes_of(alloc, second)?))?)?;
    list.push(named(alloc, "c", Bytes::from_vec(bytes_of(alloc, third)?))?)?;
    list.push(named(alloc, "s", script)?)?;
    Ok(list)
}

/// The order in which each core has so many turns, one behind the other.
pub fn order(alloc: Global, turns: &[(u8, usize)]) -> Result<Bytes, NoMemory> {
    let mut script = Vec::from_slice(alloc, b"order")?;
    for (core, count) in turns {
        for _turn in 0..*count {
            script.push(b' ')?;
            script.push(*core)?;
        }
    }
    Ok(Bytes::from_vec(script))
}

/// Whether the words write the text, and are done or refused as the text says.
pub fn writes(
    alloc: Global,
    config: &str,
    list: Vec<NamedFile>,
    turns: &str,
    text: &str,
) -> Result<bool, NoMemory> {
    let (status, out) = answer(alloc, &["run", config, "h", "s", turns], list)?;
    let expected = if text.starts_with("refused") {
        Status::Refused
    } else {
        Status::Ok
    };
    Ok(status == expected && out.bytes() == text.as_bytes())
}

#[test]
fn scripts_give_turns_and_bytes(rt: HostRuntime) -> Result<(), Fail> {
    let alloc = rt.alloc();
    let line =
        "at 1 cp 00000000000000000000000000000000000000000000000000000000000000000000000000000000000000000000000000000000000000000000000000000000\n";
    let mut much = String::new(alloc);
    for _line in 0..5 {
        much.push_str(line)?;
    }
    for (image, script, turns, text) in [
        (HELLO.as_slice(), "order 0 1", "12", BOTH_SEND),
        (&HELLO, "", "12", BOTH_SEND),
        (&HELLO, "order 0 0 1\n", "12", ONE_SENDS),
        // nobody owns the core
        (
            &HELLO,
            "order 31 0",
            "12",
            "p 6 sent 1 4869\nend p running 6\nend q running 0\nconsole cp 2 0 0\nconsole cq 0 0 0\n",
        ),
        (
            &HELLO,
            "",
            "0",
            "end p running 0\nend q running 0\nconsole cp 0 0 0\nconsole cq 0 0 0\n",
        ),
        (
            &HELLO,
            "order 0 1\nat 1 cp 4142",
            "12",
            "p 6 sent 1 4869\nq 6 sent 1 4869\nend p running 6\nend q running 6\nconsole cp 2 2 0\nconsole cq 2 0 0\n",
        ),
        // more than there is room for
        (
            &HELLO,
            &much,
            "12",
            "p 6 sent 1 4869\nq 6 sent 1 4869\nend p running 6\nend q running 6\nconsole cp 2 256 64\nconsole cq 2 0 0\n",
        ),
        // at the last turn, and behind it
        (
            &HELLO,
            "at 12 cp 41\nat 13 cq 41",
            "12",
            "p 6 sent 1 4869\nq 6 sent 1 4869\nend p running 6\nend q running 6\nconsole cp 2 1 0\nconsole cq 2 0 0\n",
        ),
        // each partition has its own time
        (
            &CLOCK,
            "order 0 1",
            "12",
            "p 6 sent 1 00000005\nq 6 sent 1 00000005\nend p running 6\nend q running 6\nconsole cp 4 0 0\nconsole cq 4 0 0\n",
        ),
        (
            &CLOCK,
            "order 0 0 1",
            "12",
            "p 6 sent 1 00000005\nend p running 8\nend q running 4\nconsole cp 4 0 0\nconsole cq 0 0 0\n",
        ),
        // where none runs, turns pass
        (
            &UNBACKED,
            "order 0 1",
            "1000000000000",
            "p 2 faulted\nq 2 faulted\nend p faulted 2\nend q faulted 2\nconsole cp 0 0 0\nconsole cq 0 0 0\n",
        ),
        (
            &HELLO,
            "at 5 cp 41\nat 4 cp 42",
            "12",
            "refused S4 at line 2\n",
        ),
        (&HELLO, "at 1 zz 41", "12", "refused S2 at line 1\n"),
        (&HELLO, "order 32", "12", "refused S6 at line 1\n"),
        (
            &HELLO,
            "\nat 1 cp 41\norder 0",
            "12",
            "refused S3 at line 3\n",
        ),
        (&HELLO, "at 1 cp 4", "12", "refused S1 at line 1\n"),
    ] {
        let list = bundle(alloc, bytes_of(alloc, image)?, script.as_bytes(), "")?;
        assert!(rt; writes(alloc, "c", list, turns, text)?, "{script}");
    }
    Ok(())
}

#[test]
fn partitions_reach_each_other_as_they_are_joined(rt: HostRuntime) -> Result<(), Fail> {
    let alloc = rt.alloc();
    for (config, images, turns, total, text) in [
        // a full channel, and then room for what was taken
        (
            JOINED,
            [FILL.as_slice(), &TAKE, &[]],
            [(b'0', 80), (b'1', 5), (b'0', 8)].as_slice(),
            "93",
            FILLED,
        ),
        // what one sends another has in the same turn
        (
            ROUND,
            [&START, &PASS, &PASS],
            &[(b'0', 1), (b'1', 1), (b'2', 1)],
            "159",
            "p 6 sent 2 41\nq 14 sent 2 42\nr 22 sent 2 43\np 36 sent 2 44\nq 45 sent 2 45\nr 53 sent 2 46\nend p running 53\nend q running 53\nend r running 53\n",
        ),
        // one faults, and the other goes on
        (
            RUNG,
            [&UNBACKED, &HELLO, &[]],
            &[(b'0', 1), (b'1', 1)],
            "12",
            "p 2 faulted\nq 6 sent 1 4869\nend p faulted 2\nend q running 6\nconsole cp 0 0 0\nconsole cq 2 0 0\n",
        ),
        (
            RUNG,
            [&RING, &HEAR, &[]],
            &[(b'0', 1), (b'1', 1)],
            "30",
            HEARD,
        ),
        (RUNG, [&RING, &HEAR, &[]], &[(b'1', 1)], "15", UNHEARD),
    ] {
        let list = short_bundle(alloc, config, images, order(alloc, turns)?)?;
        assert!(rt; writes(alloc, "config", list, total, text)?, "{text}");
    }
    Ok(())
}

#[test]
fn shared_areas_are_one(rt: HostRuntime) -> Result<(), Fail> {
    let alloc = rt.alloc();
    // a store to the reserved block, at its first and its last word, and beside it on both sides
    for (store, seen, stored) in [
        (0x9129_0044u32, "r 9 sent 1 00030000\n", "00000000"),
        (0x9129_0040, "", "00000000"),
        (0x9129_007C, "", "00000000"),
        (0x9129_003C, "", "20000000"),
        (0x9129_0080, "", "20000000"),
    ] {
        let writer = [0x3D20_0003, store, 0x4800_0000];
        let turns = [(b'0', 3), (b'1', 2), (b'2', 9), (b'0', 7)];
        let list = short_bundle(
            alloc,
            SHARED,
            [&HOLD, &writer, &LOOK],
            order(alloc, &turns)?,
        )?;
        let mut text = String::from_str(alloc, seen)?;
        text.push_str("p 10 sent 1 ")?;
        text.push_str(stored)?;
        text.push_str(
            "\nend p running 10\nend q running 2\nend r running 9\nconsole cp 4 0 0\nconsole cr ",
        )?;
        text.push_str(if seen.is_empty() { "0" } else { "4" })?;
        text.push_str(" 0 0\n")?;
        assert!(rt; writes(alloc, "config", list, "21", &text)?, "{text}");
    }
    Ok(())
}

/// An image that a seed makes of the scraps.
fn scrap_image(alloc: Global, seed: u64) -> Result<Vec<u32>, NoMemory> {
    let mut image = Vec::new(alloc);
    let mut state = seed;
    for _word in 0..64 {
        state = state
            .wrapping_mul(6_364_136_223_846_793_005)
            .wrapping_add(1_442_695_040_888_963_407);
        image.push(SCRAPS.get((state >> 60) as usize).copied().unwrap_or(0))?;
    }
    Ok(image)
}

#[test]
fn one_partition_is_not_reached_by_others(rt: HostRuntime) -> Result<(), Fail> {
    let alloc = rt.alloc();
    for seed in [1u64, 2, 3, 5, 8, 13, 21, 34, 55, 89, 144, 233] {
        let second = scrap_image(alloc, seed)?;
        let third = scrap_image(alloc, seed.wrapping_add(1))?;
        let script = Bytes::of(alloc, b"order 0 1 2\nat 1 cp 4142434445")?;
        let list = short_bundle(alloc, BESIDE, [&ECHO, &second, &third], script)?;
        let (status, out) = answer(alloc, &["run", "config", "h", "s", "300"], list)?;
        assert_eq!(rt; status, Status::Ok, "{seed}");
        let mut own = Vec::new(alloc);
        for line in out.bytes().split(|byte| *byte == b'\n') {
            if line.starts_with(b"p ")
                || line.starts_with(b"end p ")
                || line.starts_with(b"console cp ")
            {
                own.extend_from_slice(line)?;
                own.push(b'\n')?;
            }
        }
        assert_eq!(rt; own.as_slice(), ECHOED.as_bytes(), "{seed}");
    }
    Ok(())
}

/// For each of sixteen digits the template, with the digit in place of each `#`.
fn put_for_each(text: &mut String, template: &str) -> Result<(), NoMemory> {
    for digit in [
        "0", "1", "2", "3", "4", "5", "6", "7", "8", "9", "a", "b", "c", "d", "e", "f",
    ] {
        let mut is_first = true;
        for piece in template.split('#') {
            if !is_first {
                text.push_str(digit)?;
            }
            text.push_str(piece)?;
            is_first = false;
        }
    }
    Ok(())
}

/// The configuration of sixteen partitions with a console each.
fn sixteen(alloc: Global) -> Result<Bytes, NoMemory> {
    let mut text = String::from_str(alloc, " compatible=topaz,config\n.areas")?;
    put_for_each(&mut text, "\n..m# base:0,#0000 size:0,10000")?;
    text.push_str("\n.channels")?;
    put_for_each(&mut text, "\n..x# console=#")?;
    text.push_str("\n.partitions")?;
    put_for_each(
        &mut text,
        "\n..p# cpus:# image=hi tree-at:0,8000 tree-size:0,4000\n...areas\n....m area=m# at:0,0\n...handles\n....c kind=channel target=x#",
    )?;
    blob(alloc, &text)
}

/// Hardware with sixteen cpus.
fn sixteen_cpus(alloc: Global) -> Result<Bytes, NoMemory> {
    let mut text = String::from_str(
        alloc,
        " #address-cells:2 #size-cells:2\n.memory@0 device_type=memory reg:0,0,0,100000\n.cpus #address-cells:1 #size-cells:0",
    )?;
    put_for_each(&mut text, "\n..cpu@# device_type=cpu reg:#")?;
    blob(alloc, &text)
}

#[test]
fn sixteen_partitions_print(rt: HostRuntime) -> Result<(), Fail> {
    let alloc = rt.alloc();
    let mut text = String::new(alloc);
    put_for_each(&mut text, "p# 6 sent 1 4869\n")?;
    put_for_each(&mut text, "end p# running 7\n")?;
    put_for_each(&mut text, "console # 2 0 0\n")?;
    let mut list = Vec::new(alloc);
    list.push(named(alloc, "config", sixteen(alloc)?)?)?;
    list.push(named(alloc, "h", sixteen_cpus(alloc)?)?)?;
    list.push(named(alloc, "hi", Bytes::from_vec(bytes_of(alloc, &HELLO)?))?)?;
    list.push(named(alloc, "s", Bytes::of(alloc, b"")?)?)?;
    assert!(rt; writes(alloc, "config", list, "112", &text)?);
    Ok(())
}

#[test]
fn large_partitions_are_loaded(rt: HostRuntime) -> Result<(), Fail> {
    let alloc = rt.alloc();
    let mut list = Vec::new(alloc);
    list.push(named(alloc, "config", blob(alloc, LARGE)?)?)?;
    list.push(named(alloc, "h", blob(alloc, LARGE_HARDWARE)?)?)?;
    list.push(named(alloc, "hi", Bytes::from_vec(elf(alloc, 0, 4, 0x8000)?))?)?;
    list.push(named(alloc, "s", Bytes::of(alloc, b"order 0 1 2")?)?)?;
    let text =
        "end p running 3334\nend q running 3333\nend r running 3333\nconsole cp 0 0 0\nconsole cq 0 0 0\nconsole cr 0 0 0\n";
    assert!(rt; writes(alloc, "config", list, "10000", text)?);
    Ok(())
}

#[test]
fn images_are_refused_at_their_partitions(rt: HostRuntime) -> Result<(), Fail> {
    let alloc = rt.alloc();
    for (image, text) in [
        (vec![in alloc; 0x1F, 0x8B]?, "refused I1 at /partitions/p\n"),
        (elf(alloc, 0, 5, 64)?, "refused I2 at /partitions/p\n"),
        (elf(alloc, 64, 4, 64)?, "refused I3 at /partitions/p\n"),
        (elf(alloc, 0, 4, 65_537)?, "refused I4 at /partitions/p\n"),
        (elf(alloc, 2, 4, 64)?, "refused I5 at /partitions/p\n"),
        (elf(alloc, 0, 4, 0x8001)?, "refused I7 at /partitions/p\n"),
        (
            elf(alloc, 0, 4, 0x8000)?,
            "end p running 6\nend q running 6\nconsole cp 0 0 0\nconsole cq 0 0 0\n",
        ),
        (
            Vec::from_elem(alloc, 0u8, 67_108_865)?,
            "refused F1 at /partitions/p\n",
        ),
    ] {
        let list = bundle(alloc, image, b"", "")?;
        assert!(rt; writes(alloc, "c", list, "12", text)?, "{text}");
    }
    // what is wrong with an image comes before what is wrong with the script
    let list = bundle(alloc, vec![in alloc; 0x1F, 0x8B]?, b"?", "")?;
    assert!(rt; writes(alloc, "c", list, "12", "refused I1 at /partitions/p\n")?);
    Ok(())
}

#[test]
fn files_and_room_are_needed(rt: HostRuntime) -> Result<(), Fail> {
    let alloc = rt.alloc();
    for name in ["c", "h", "hi", "s"] {
        let list = bundle(alloc, bytes_of(alloc, &HELLO)?, b"", name)?;
        let (status, out) = answer(alloc, &["run", "c", "h", "s", "12"], list)?;
        assert_eq!(rt; status, Status::ReadFault, "{name}");
        assert_eq!(rt; out.bytes().len(), 0);
    }
    // each of the four files is opened and read at least once
    let mut words = Vec::new(alloc);
    for word in ["run", "c", "h", "s", "12"] {
        words.push(String::from_str(alloc, word)?)?;
    }
    for call in 1..9u64 {
        let list = bundle(alloc, bytes_of(alloc, &HELLO)?, b"", "")?;
        let mut files = MemFiles::new(list, vec![in alloc; call]?);
        let mut out = MemSink::new(alloc, 100, Vec::new(alloc))?;
        let status = topaz(alloc, &words, &mut files, &mut out);
        assert_eq!(rt; status, Status::ReadFault, "{call}");
        assert_eq!(rt; out.bytes().len(), 0);
    }
    // a sink with room for twenty bytes has the front of the text
    let list = bundle(alloc, bytes_of(alloc, &HELLO)?, b"order 0 1", "")?;
    let mut files = MemFiles::new(list, Vec::new(alloc));
    let mut out = MemSink::new(alloc, 20, Vec::new(alloc))?;
    assert_eq!(rt;
        topaz(alloc, &words, &mut files, &mut out),
        Status::WriteFault
    );
    assert!(rt; b"p 6 sent 1 4869\nq 6 ".starts_with(out.bytes()));
    Ok(())
}
