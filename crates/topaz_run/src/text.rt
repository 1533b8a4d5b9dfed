//! The lines of commands, beside those of the report. Each writer appends one line to a sink, and takes no memory.

ghost use Rattle.std.specs.Prelude.{◌≡◌, codes};
ghost use Rattle.outside.specs.Pieces.{Writes};
ghost use Rattle.trace_text.specs.Refusals.{refused_line};
ghost use Rattle.topaz_run.specs.Outcome.{blob_rule, rule_text, script_rule};
ghost use Rattle.topaz_run.specs.Text.{accepted_line, gen_line, line_place};

use hv_config::Rule;
use itoa::Buffer;
use outside::{Failed, Sink, write_pieces};

/// The blob in the file breaks its rule of that number.
pub fn write_refused_blob<S: Sink>(out: &mut S, rule: u8, file: &[u8]) -> Result<(), Failed>
    ensures { Writes result (S.taken out.old) (S.taken out.new) (S.faults out.old) (S.faults out.new)
        (refused_line (blob_rule rule) file.now) }
{
    let mut digits = Buffer::new();
    write_pieces(
        out,
        &[
            b"refused ",
            b"B",
            digits.format(rule).as_bytes(),
            b" at ",
            file,
            b"\n",
        ],
    )
}

/// The rule of that letter and number is broken at the place.
pub fn write_refused_rule<S: Sink>(out: &mut S, rule: Rule, place: &[u8]) -> Result<(), Failed>
    ensures { Writes result (S.taken out.old) (S.taken out.new) (S.faults out.old) (S.faults out.new)
        (refused_line (rule_text rule) place.now) }
{
    let mut digits = Buffer::new();
    let letter = [rule.letter];
    write_pieces(
        out,
        &[
            b"refused ",
            &letter,
            digits.format(rule.number).as_bytes(),
            b" at ",
            place,
            b"\n",
        ],
    )
}

/// The script breaks its rule of that number at the line, counted from 1.
pub fn write_refused_script<S: Sink>(out: &mut S, rule: u8, line: u32) -> Result<(), Failed>
    ensures { Writes result (S.taken out.old) (S.taken out.new) (S.faults out.old) (S.faults out.new)
        (refused_line (script_rule rule) (line_place line)) }
{
    let mut rule_digits = Buffer::new();
    let mut line_digits = Buffer::new();
    write_pieces(
        out,
        &[
            b"refused ",
            b"S",
            rule_digits.format(rule).as_bytes(),
            b" at ",
            b"line ",
            line_digits.format(line).as_bytes(),
            b"\n",
        ],
    )
}

/// How many partitions, areas, channels and doorbells the accepted configuration has.
pub fn write_accepted<S: Sink>(
    out: &mut S,
    parts: usize,
    areas: usize,
    channels: usize,
    bells: usize,
) -> Result<(), Failed>
    ensures { Writes result (S.taken out.old) (S.taken out.new) (S.faults out.old) (S.faults out.new)
        (accepted_line parts areas channels bells) }
{
    let mut parts_digits = Buffer::new();
    let mut areas_digits = Buffer::new();
    let mut channels_digits = Buffer::new();
    let mut bells_digits = Buffer::new();
    write_pieces(
        out,
        &[
            b"accepted ",
            parts_digits.format(parts).as_bytes(),
            b" ",
            areas_digits.format(areas).as_bytes(),
            b" ",
            channels_digits.format(channels).as_bytes(),
            b" ",
            bells_digits.format(bells).as_bytes(),
            b"\n",
        ],
    )
}

/// Of a generated run its number, how many turns it had, how many lines its steps have, and how many bytes they sent.
pub fn write_gen<S: Sink>(
    out: &mut S,
    number: u64,
    turns: u64,
    lines: u64,
    sent: u64,
) -> Result<(), Failed>
    ensures { Writes result (S.taken out.old) (S.taken out.new) (S.faults out.old) (S.faults out.new)
        (gen_line number turns lines sent) }
{
    let mut number_digits = Buffer::new();
    let mut turns_digits = Buffer::new();
    let mut lines_digits = Buffer::new();
    let mut sent_digits = Buffer::new();
    write_pieces(
        out,
        &[
            b"gen ",
            number_digits.format(number).as_bytes(),
            b" ",
            turns_digits.format(turns).as_bytes(),
            b" lines ",
            lines_digits.format(lines).as_bytes(),
            b" sent ",
            sent_digits.format(sent).as_bytes(),
            b"\n",
        ],
    )
}
