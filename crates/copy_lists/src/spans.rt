//! Ranges in the spans of a managed partition.

ghost use Rattle.std.specs.Prelude.{◌≡◌, find};
ghost use Rattle.std.specs.Option.{option_copied, option_map};
ghost use Rattle.copy_lists.specs.Spans as spec;

use machine_desc::Span;

/// The first address behind the span.
fn span_end(span: &Span) -> u128
    ensures { result ≡ spec.span_end span.now }
{
    u128::from(span.at) + u128::from(span.size)
}

/// Whether the span has the address.
fn has_address(span: &Span, address: u128) -> bool
    ensures { result ≡ spec.has_address address span.now }
{
    u128::from(span.at) <= address && address < span_end(span)
}

/// The first span that has the address.
fn span_at(spans: &[Span], address: u128) -> Option<&Span>
    ensures { option_copied result ≡ find (spec.has_address address) spans.now }
{
    spans.iter().find(|span| has_address(span, address))
}

/// Where the first span ends that has the address.
fn end_at(spans: &[Span], address: u128) -> Option<u128>
    ensures { result ≡ option_map spec.span_end (find (spec.has_address address) spans.now) }
{
    span_at(spans, address).map(|span| span_end(span))
}

/// Whether each of `size` bytes from the logical address `at` on is in a span. The range may go over several spans that
/// lie side by side, in whatever order they stand. A range without bytes is, wherever it is. The sums never wrap.
#[tactic(auto, using(crate::proofs::Walking::walking))]
pub fn is_in_spans(spans: &[Span], at: u64, size: u64) -> bool
    ensures { result ≡ spec.is_in_spans spans.now at size }
{
    let end = u128::from(at) + u128::from(size);
    let mut next = u128::from(at);
    while next < end {
        match end_at(spans, next) {
            Some(behind) => next = behind,
            None => return false,
        }
    }
    true
}
