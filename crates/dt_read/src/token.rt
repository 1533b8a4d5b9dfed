//! Reading one token.

ghost use Rattle.std.specs.Prelude.{◌≡◌, ◌==◌, position};
ghost use Rattle.dt_model.specs.Spelling as spelling;
ghost use Rattle.dt_model.specs.Token.{is_end};
ghost use Rattle.dt_model.specs.Fault as spec;
ghost use Rattle.dt_read.specs.Given.{Gives, token_view};

use crate::fault::BlobFault;
use byteorder::{BigEndian, ByteOrder};

const BEGIN_NODE: u32 = 1;

const END_NODE: u32 = 2;

const PROP: u32 = 3;

const NOP: u32 = 4;

const END: u32 = 9;

/// A token of the structure block (ePAPR 1.1, 8.4.1).
#[derive(Clone, Copy)]
pub enum Token<'a> {
    BeginNode(&'a [u8]),
    Prop(&'a [u8], &'a [u8]),
    EndNode,
    Nop,
    Finish,
}

impl Token<'_> {
    /// Whether nothing of the tree comes behind the token.
    pub fn is_end(&self) -> bool
        ensures { result ≡ is_end (token_view self.now) }
    {
        match self {
            Token::Finish => true,
            Token::BeginNode(_) | Token::Prop(_, _) | Token::EndNode | Token::Nop => false,
        }
    }
}

/// A word, and what follows it.
fn word_at(bytes: &[u8]) -> Result<(u32, &[u8]), BlobFault>
    ensures { Gives (λ x. (x.0, x.1.now)) result (spec.word_at bytes.now) }
{
    if bytes.len() < 4 {
        return Err(BlobFault::Rule(7));
    }
    Ok((BigEndian::read_u32(bytes), &bytes[4..]))
}

/// Whether all of the bytes are 0.
fn are_zeros(bytes: &[u8]) -> bool
    ensures { result ≡ spec.are_zeros bytes.now }
{
    bytes.iter().all(|byte| *byte == 0)
}

/// How many bytes follow so many up to a multiple of 4.
fn padding(count: usize) -> usize
    ensures { result ≡ spelling.padding count }
{
    (4 - count % 4) % 4
}

/// So many bytes, and what stands behind them and their padding.
#[tactic(auto, unfolding(dt_model::specs::Fault::padded_at))]
fn padded_at(rule: u8, count: usize, bytes: &[u8]) -> Result<(&[u8], &[u8]), BlobFault>
    ensures { Gives (λ x. (x.0.now, x.1.now)) result (spec.padded_at rule count bytes.now) }
{
    let padding = padding(count);
    if bytes.len() < count || bytes.len() - count < padding {
        return Err(BlobFault::Rule(7));
    }
    let (front, behind) = bytes.split_at(count);
    let (zeros, rest) = behind.split_at(padding);
    if are_zeros(zeros) {
        Ok((front, rest))
    } else {
        Err(BlobFault::Rule(rule))
    }
}

/// Where the first NUL is.
fn nul_at(bytes: &[u8]) -> Option<usize>
    ensures { result ≡ position (λ byte. byte == 0) bytes.now }
{
    bytes.iter().position(|byte| *byte == 0)
}

/// The string at a place of the strings block, without its NUL.
#[tactic(auto, unfolding(dt_model::specs::Fault::string_at))]
fn string_at(strings: &[u8], offset: u32) -> Result<&[u8], BlobFault>
    ensures { Gives (λ x. x.now) result (spec.string_at strings.now offset) }
{
    let offset = offset as usize;
    if strings.len() <= offset {
        return Err(BlobFault::Rule(8));
    }
    let tail = &strings[offset..];
    match nul_at(tail) {
        Some(end) => Ok(&tail[..end]),
        None => Err(BlobFault::Rule(8)),
    }
}

/// The beginning of a node, behind its word.
#[tactic(auto, unfolding(dt_model::specs::Fault::begin_at))]
fn begin_at(bytes: &[u8]) -> Result<(Token<'_>, &[u8]), BlobFault>
    ensures { Gives (λ x. (token_view x.0, x.1.now)) result (spec.begin_at bytes.now) }
{
    let Some(end) = nul_at(bytes) else {
        return Err(BlobFault::Rule(9));
    };
    let (_, rest) = padded_at(9, end + 1, bytes)?;
    Ok((Token::BeginNode(&bytes[..end]), rest))
}

/// A property, behind its word.
#[tactic(auto, unfolding(dt_model::specs::Fault::property_at))]
fn property_at<'a>(strings: &'a [u8], bytes: &'a [u8]) -> Result<(Token<'a>, &'a [u8]), BlobFault>
    ensures { Gives (λ x. (token_view x.0, x.1.now)) result (spec.property_at strings.now bytes.now) }
{
    let (count, rest) = word_at(bytes)?;
    let (offset, rest) = word_at(rest)?;
    let (value, rest) = padded_at(7, count as usize, rest)?;
    let name = string_at(strings, offset)?;
    Ok((Token::Prop(name, value), rest))
}

/// The token of a word, and what follows it.
#[tactic(auto, unfolding(dt_model::specs::Fault::token_of))]
fn token_of<'a>(
    strings: &'a [u8],
    kind: u32,
    bytes: &'a [u8],
) -> Result<(Token<'a>, &'a [u8]), BlobFault>
    ensures { Gives (λ x. (token_view x.0, x.1.now)) result (spec.token_of strings.now kind bytes.now) }
{
    match kind {
        BEGIN_NODE => begin_at(bytes),
        END_NODE => Ok((Token::EndNode, bytes)),
        PROP => property_at(strings, bytes),
        NOP => Ok((Token::Nop, bytes)),
        END => Ok((Token::Finish, bytes)),
        _ => Err(BlobFault::Rule(7)),
    }
}

/// The token at the front, and the bytes behind it.
#[tactic(auto, unfolding(dt_model::specs::Fault::token_at))]
pub fn token_at<'a>(strings: &'a [u8], bytes: &'a [u8]) -> Result<(Token<'a>, &'a [u8]), BlobFault>
    ensures { Gives (λ x. (token_view x.0, x.1.now)) result (spec.token_at strings.now bytes.now) }
{
    let (kind, rest) = word_at(bytes)?;
    token_of(strings, kind, rest)
}
