//! What no clause says: that the texts are those that were worked out by hand, and that a call succeeds
//! where memory is ample.
use lone_runs::images::*;
use outside::{Bytes, MemFiles, MemSink, NamedFile, NoMemory, SureFiles};
use std::alloc::{AllocError, Global};
use std::test::Fail;
use topaz_run::{Status, topaz};

const HELLO_TEXT: &str = "guest 6 sent 1 4869\nend guest running 7\nconsole con 2 0 0\n";

/// Lists of words that are of no form, with bars between the words.
const OUT_OF_FORM: [&str; 33] = [
    "gen",
    "gen|1",
    "gen|1|0|0",
    "gen|18446744073709551616|0",
    "gen|01|0",
    "gen|1|1000000000001",
    "check|image",
    "check|image|image|image",
    "Check|image|image",
    "dtb",
    "dtb|image|7",
    "DTB|image",
    "bare",
    "bare|image",
    "bare|image|7|7",
    "Bare|image|7",
    "bare |image|7",
    "|image|7",
    "--help",
    "bare|image|",
    "bare|image|+7",
    "bare|image|-7",
    "bare|image|-0",
    "bare|image|07",
    "bare|image|00",
    "bare|image| 7",
    "bare|image|7 ",
    "bare|image|7a",
    "bare|image|0x7",
    "bare|image|1000000000001",
    "bare|image|18446744073709551616",
    "bare|image|18446744073709551623",
    "bare|image|99999999999999999999999999999999999999999",
];

fn image_of(alloc: Global, words: &[u32]) -> Result<Vec<u8>, AllocError> {
    let mut image = Vec::new(alloc);
    for word in words {
        image.extend_from_slice(&word.to_be_bytes())?;
    }
    Ok(image)
}

fn files_with(alloc: Global, image: Vec<u8>, fail: u64) -> Result<MemFiles, NoMemory> {
    let mut list = Vec::new(alloc);
    list.push(NamedFile {
        name: Bytes::of(alloc, b"image")?,
        bytes: Bytes::from_vec(image),
    })?;
    Ok(MemFiles::new(list, vec![in alloc; fail]?))
}

fn words_of(alloc: Global, words: &[&str]) -> Result<Vec<String>, AllocError> {
    let mut all = Vec::new(alloc);
    for word in words {
        all.push(String::from_str(alloc, word)?)?;
    }
    Ok(all)
}

fn split_words(alloc: Global, line: &str) -> Result<Vec<String>, AllocError> {
    let mut all = Vec::new(alloc);
    for word in line.split('|') {
        all.push(String::from_str(alloc, word)?)?;
    }
    Ok(all)
}

#[test]
fn no_words_write_nothing(rt: HostRuntime) -> Result<(), Fail> {
    let alloc = rt.alloc();
    let mut files = files_with(alloc, image_of(alloc, &HELLO)?, 0)?;
    let mut out = MemSink::new(alloc, 100, Vec::new(alloc))?;
    assert_eq!(rt; topaz(alloc, &[], &mut files, &mut out), Status::Usage);
    assert_eq!(rt; out.bytes().len(), 0);
    Ok(())
}

#[test]
fn images_write_what_was_worked_out(rt: HostRuntime) -> Result<(), Fail> {
    let alloc = rt.alloc();
    for (image, turns, status, text) in [
        (HELLO.as_slice(), "7", Status::Ok, HELLO_TEXT),
        (
            HELLO.as_slice(),
            "0",
            Status::Ok,
            "end guest running 0\nconsole con 0 0 0\n",
        ),
        (
            TOO_MANY.as_slice(),
            "9",
            Status::Ok,
            "guest 9 sent 1 00000008\nend guest running 9\nconsole con 4 0 0\n",
        ),
        (
            UNLISTED.as_slice(),
            "9",
            Status::Ok,
            "guest 8 sent 1 0000000c\nend guest running 9\nconsole con 4 0 0\n",
        ),
        (
            DIVISION.as_slice(),
            "9",
            Status::Ok,
            "guest 8 sent 1 00000000\nend guest running 9\nconsole con 4 0 0\n",
        ),
        (
            CLOCK.as_slice(),
            "7",
            Status::Ok,
            "guest 6 sent 1 00000005\nend guest running 7\nconsole con 4 0 0\n",
        ),
        // a word that is no instruction goes round through the handler at 0
        (
            [0u32].as_slice(),
            "3",
            Status::Ok,
            "end guest running 3\nconsole con 0 0 0\n",
        ),
        (
            UNBACKED.as_slice(),
            "5",
            Status::Ok,
            "guest 2 faulted\nend guest faulted 2\nconsole con 0 0 0\n",
        ),
        (
            UNBACKED.as_slice(),
            "1000000000000",
            Status::Ok,
            "guest 2 faulted\nend guest faulted 2\nconsole con 0 0 0\n",
        ),
        (
            USER.as_slice(),
            "50",
            Status::Ok,
            "guest 42 sent 1 4869\nend guest running 50\nconsole con 2 0 0\n",
        ),
        (
            REFUSED.as_slice(),
            "210",
            Status::Ok,
            "guest 209 sent 1 0000001200000000\nend guest running 210\nconsole con 8 0 0\n",
        ),
        (
            POLL.as_slice(),
            "9",
            Status::Ok,
            "guest 9 sent 1 00000100\nend guest running 9\nconsole con 4 0 0\n",
        ),
        (
            RECEIVE.as_slice(),
            "14",
            Status::Ok,
            "guest 14 sent 1 000000000000000000000000\nend guest running 14\nconsole con 12 0 0\n",
        ),
        (
            COPY.as_slice(),
            "9",
            Status::Ok,
            "guest 9 sent 1 00000008\nend guest running 9\nconsole con 4 0 0\n",
        ),
        (
            [].as_slice(),
            "3",
            Status::Ok,
            "end guest running 3\nconsole con 0 0 0\n",
        ),
    ] {
        let mut files = files_with(alloc, image_of(alloc, image)?, 0)?;
        let mut out = MemSink::new(alloc, 100, Vec::new(alloc))?;
        let words = words_of(alloc, &["bare", "image", turns])?;
        assert_eq!(rt;
            topaz(alloc, &words, &mut files, &mut out),
            status,
            "{text}"
        );
        assert_eq!(rt; out.bytes(), text.as_bytes(), "{text}");
    }
    Ok(())
}

#[test]
fn long_images_are_refused_at_their_word(rt: HostRuntime) -> Result<(), Fail> {
    let alloc = rt.alloc();
    for (length, status, text) in [
        (
            65_536,
            Status::Ok,
            "end guest running 1\nconsole con 0 0 0\n",
        ),
        (65_537, Status::Refused, "refused I4 at image\n"),
        (67_108_864, Status::Refused, "refused I4 at image\n"),
        (67_108_865, Status::Refused, "refused F1 at image\n"),
    ] {
        let mut files = files_with(alloc, vec![in alloc; 0u8; length]?, 0)?;
        let mut out = MemSink::new(alloc, 100, Vec::new(alloc))?;
        let words = words_of(alloc, &["bare", "image", "1"])?;
        assert_eq!(rt;
            topaz(alloc, &words, &mut files, &mut out),
            status,
            "{length}"
        );
        assert_eq!(rt; out.bytes(), text.as_bytes(), "{length}");
    }
    Ok(())
}

#[test]
fn words_out_of_form_write_nothing(rt: HostRuntime) -> Result<(), Fail> {
    let alloc = rt.alloc();
    for line in OUT_OF_FORM.iter() {
        let mut files = files_with(alloc, image_of(alloc, &HELLO)?, 0)?;
        let mut out = MemSink::new(alloc, 100, Vec::new(alloc))?;
        let words = split_words(alloc, line)?;
        assert_eq!(rt;
            topaz(alloc, &words, &mut files, &mut out),
            Status::Usage,
            "{line}"
        );
        assert_eq!(rt; out.bytes().len(), 0, "{line}");
    }
    Ok(())
}

#[test]
fn a_failing_file_stops_the_call_unwritten(rt: HostRuntime) -> Result<(), Fail> {
    let alloc = rt.alloc();
    // The calls are the opening, the read of the bytes and the read at the end.
    for (fail, name, status) in [
        (1, "image", Status::ReadFault),
        (2, "image", Status::ReadFault),
        (3, "image", Status::ReadFault),
        (4, "image", Status::Ok),
        (9, "another", Status::ReadFault),
    ] {
        let mut files = files_with(alloc, image_of(alloc, &HELLO)?, fail)?;
        let mut out = MemSink::new(alloc, 100, Vec::new(alloc))?;
        let words = words_of(alloc, &["bare", name, "7"])?;
        assert_eq!(rt;
            topaz(alloc, &words, &mut files, &mut out),
            status,
            "{fail}"
        );
        assert_eq!(rt; out.bytes().is_empty(), status != Status::Ok, "{fail}");
    }
    Ok(())
}

#[test]
fn a_failing_sink_takes_a_front_of_the_text(rt: HostRuntime) -> Result<(), Fail> {
    let alloc = rt.alloc();
    let text = HELLO_TEXT.as_bytes();
    for room in 0..=text.len() {
        let mut files = files_with(alloc, image_of(alloc, &HELLO)?, 0)?;
        let mut out = MemSink::new(alloc, room, Vec::new(alloc))?;
        let words = words_of(alloc, &["bare", "image", "7"])?;
        let status = topaz(alloc, &words, &mut files, &mut out);
        assert_eq!(rt; status == Status::Ok, room == text.len(), "{room}");
        assert_eq!(rt; status == Status::WriteFault, room < text.len(), "{room}");
        assert!(rt; text.starts_with(out.bytes()), "{room}");
    }
    // The one write of the text, and the flush.
    for (fail, status) in [
        (1, Status::WriteFault),
        (2, Status::WriteFault),
        (3, Status::Ok),
    ] {
        let mut files = files_with(alloc, image_of(alloc, &HELLO)?, 0)?;
        let mut out = MemSink::new(alloc, 100, vec![in alloc; fail]?)?;
        let words = words_of(alloc, &["bare", "image", "7"])?;
        assert_eq!(rt;
            topaz(alloc, &words, &mut files, &mut out),
            status,
            "{fail}"
        );
        assert!(rt; text.starts_with(out.bytes()), "{fail}");
    }
    Ok(())
}

#[test]
fn an_unknown_image_is_surely_empty(rt: HostRuntime) -> Result<(), Fail> {
    let alloc = rt.alloc();
    let mut files = SureFiles::new(Vec::new(alloc));
    let mut out = MemSink::new(alloc, 100, Vec::new(alloc))?;
    let words = words_of(alloc, &["bare", "image", "3"])?;
    assert_eq!(rt; topaz(alloc, &words, &mut files, &mut out), Status::Ok);
    assert_eq!(rt;
        out.bytes(),
        b"end guest running 3\nconsole con 0 0 0\n".as_slice()
    );
    Ok(())
}
