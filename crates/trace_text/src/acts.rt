//! The lines of acts.

ghost use Rattle.std.specs.Prelude.{◌≡◌, ◌≤◌, ◌*◌, length, take};
ghost use Rattle.hex.specs.Hex.{encode_lower};
ghost use Rattle.outside.specs.Pieces.{Writes};
ghost use Rattle.trace_text.specs.Acts as spec;

use itoa::Buffer;
use machine_desc::Act;
use outside::{Failed, Sink, write_pieces};

/// Appends the line of what the partition of that name did in that own step of it. An act that nobody else sees
/// (`None`), a take and a step that couldn't be done have no line, and then nothing is appended.
///
/// Fails only where the sink does, which then has taken a front of the line.
pub fn act_line<S: Sink>(out: &mut S, name: &[u8], step: u64, act: &Act) -> Result<(), Failed>
    ensures { Writes result (S.taken out.old) (S.taken out.new) (S.faults out.old) (S.faults out.new)
        (spec.act_text name.now step act.now) }
{
    match act {
        Act::None | Act::Took { h: _, count: _ } => Ok(()),
        Act::Sent { h, bytes } => sent_line(out, name, step, *h, bytes.as_slice()),
        Act::Rang { h } => handle_line(out, name, step, b"ring", *h),
        Act::Start { h, entry, load } => start_line(out, name, step, *h, *entry, *load),
        Act::Stop { h } => handle_line(out, name, step, b"stop", *h),
        Act::Restart { h } => handle_line(out, name, step, b"restart", *h),
        Act::CopyTo { h, total } => copy_line(out, name, step, b"to", *h, *total),
        Act::CopyFrom { h, total } => copy_line(out, name, step, b"from", *h, *total),
        Act::SelfStop => own_line(out, name, step, b"stop self"),
        Act::SelfRestart => own_line(out, name, step, b"restart self"),
        Act::Faulted => own_line(out, name, step, b"faulted"),
    }
}

/// The line of bytes that were sent on a handle, at most sixteen.
fn sent_line<S: Sink>(
    out: &mut S,
    name: &[u8],
    step: u64,
    handle: u32,
    bytes: &[u8],
) -> Result<(), Failed>
    requires { length bytes.now ≤ 16 }
    ensures { Writes result (S.taken out.old) (S.taken out.new) (S.faults out.old) (S.faults out.new)
        (spec.sent_line name.now step handle bytes.now) }
{
    let mut step_digits = Buffer::new();
    let mut handle_digits = Buffer::new();
    let byte_digits = hex_of(bytes);
    write_pieces(
        out,
        &[
            name,
            b" ",
            step_digits.format(step).as_bytes(),
            b" sent ",
            handle_digits.format(handle).as_bytes(),
            b" ",
            &byte_digits[..2 * bytes.len()],
            b"\n",
        ],
    )
}

/// The bytes in hexadecimal, at the front.
fn hex_of(bytes: &[u8]) -> [u8; 32]
    requires { length bytes.now ≤ 16 }
    ensures { take (2 * length bytes.now) result ≡ encode_lower bytes.now }
{
    let mut digits = [0u8; 32];
    let _fits = hex::encode_to_slice(bytes, &mut digits[..2 * bytes.len()]);
    digits
}

/// The line of a deed by a handle.
fn handle_line<S: Sink>(
    out: &mut S,
    name: &[u8],
    step: u64,
    deed: &[u8],
    handle: u32,
) -> Result<(), Failed>
    ensures { Writes result (S.taken out.old) (S.taken out.new) (S.faults out.old) (S.faults out.new)
        (spec.handle_line name.now step deed.now handle) }
{
    let mut step_digits = Buffer::new();
    let mut handle_digits = Buffer::new();
    write_pieces(
        out,
        &[
            name,
            b" ",
            step_digits.format(step).as_bytes(),
            b" ",
            deed,
            b" ",
            handle_digits.format(handle).as_bytes(),
            b"\n",
        ],
    )
}

/// The line of a start.
fn start_line<S: Sink>(
    out: &mut S,
    name: &[u8],
    step: u64,
    handle: u32,
    entry: u32,
    load: bool,
) -> Result<(), Failed>
    ensures { Writes result (S.taken out.old) (S.taken out.new) (S.faults out.old) (S.faults out.new)
        (spec.start_line name.now step handle entry load) }
{
    let mut step_digits = Buffer::new();
    let mut handle_digits = Buffer::new();
    let entry_digits = address_digits(entry);
    let load_digits = load_digit(load);
    write_pieces(
        out,
        &[
            name,
            b" ",
            step_digits.format(step).as_bytes(),
            b" start ",
            handle_digits.format(handle).as_bytes(),
            b" ",
            &entry_digits,
            b" ",
            &load_digits,
            b"\n",
        ],
    )
}

/// The eight digits of an effective address.
fn address_digits(address: u32) -> [u8; 8]
    ensures { result ≡ spec.address_digits address }
{
    let mut digits = [0u8; 8];
    let _fits = hex::encode_to_slice(address.to_be_bytes(), &mut digits);
    digits
}

/// The digit of whether memory is loaded anew.
fn load_digit(load: bool) -> [u8; 1]
    ensures { result ≡ spec.load_digit load }
{
    if load { *b"1" } else { *b"0" }
}

/// The line of bytes that were copied, to or from the partition that the handle manages.
fn copy_line<S: Sink>(
    out: &mut S,
    name: &[u8],
    step: u64,
    way: &[u8],
    handle: u32,
    total: u32,
) -> Result<(), Failed>
    ensures { Writes result (S.taken out.old) (S.taken out.new) (S.faults out.old) (S.faults out.new)
        (spec.copy_line name.now step way.now handle total) }
{
    let mut step_digits = Buffer::new();
    let mut handle_digits = Buffer::new();
    let mut total_digits = Buffer::new();
    write_pieces(
        out,
        &[
            name,
            b" ",
            step_digits.format(step).as_bytes(),
            b" copy ",
            way,
            b" ",
            handle_digits.format(handle).as_bytes(),
            b" ",
            total_digits.format(total).as_bytes(),
            b"\n",
        ],
    )
}

/// The line of a deed that needs no handle.
fn own_line<S: Sink>(out: &mut S, name: &[u8], step: u64, deed: &[u8]) -> Result<(), Failed>
    ensures { Writes result (S.taken out.old) (S.taken out.new) (S.faults out.old) (S.faults out.new)
        (spec.own_line name.now step deed.now) }
{
    let mut digits = Buffer::new();
    write_pieces(
        out,
        &[
            name,
            b" ",
            digits.format(step).as_bytes(),
            b" ",
            deed,
            b"\n",
        ],
    )
}
