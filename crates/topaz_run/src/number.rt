//! Numbers as words of the command line.

ghost use Rattle.std.specs.Prelude.{◌≡◌, ◌≤◌, IfSome, decimal};
ghost use Rattle.std.specs.Str.{bytes_eq};
ghost use Rattle.topaz_run.specs.Number.{number_of};

use itoa::Buffer;

/// The number that the text spells, without a sign or a leading zero, where it is at most that large.
pub fn number(text: &str, most: u64) -> Option<u64>
    ensures meant { result ≡ number_of most text.now }
    ensures limit { IfSome result (λ number. number ≤ most) }
{
    let Ok(value) = text.parse::<u64>() else {
        return None;
    };
    if value <= most && is_spelled(text, value) {
        Some(value)
    } else {
        None
    }
}

/// Whether the text is the decimal spelling of the value.
fn is_spelled(text: &str, value: u64) -> bool
    ensures { result ≡ bytes_eq text.now (decimal value) }
{
    let mut digits = Buffer::new();
    text == digits.format(value)
}
