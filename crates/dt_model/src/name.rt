//! Which names nodes and properties may have.

ghost use Rattle.std.specs.Prelude.{◌≡◌, ◌&&◌, nat_le, length};
ghost use Rattle.std.specs.List.{list_all};
ghost use Rattle.dt_model.specs.Name as spec;

/// Whether names of both kinds may have the byte.
fn is_common_char(byte: u8) -> bool
    ensures { result ≡ spec.is_common_char byte }
{
    byte.is_ascii_alphanumeric() || matches!(byte, b',' | b'.' | b'_' | b'+' | b'-')
}

/// Whether a node's name may have the byte.
fn is_node_char(byte: u8) -> bool
    ensures { result ≡ spec.is_node_char byte }
{
    is_common_char(byte) || byte == b'@'
}

/// Whether a property's name may have the byte.
fn is_property_char(byte: u8) -> bool
    ensures { result ≡ spec.is_property_char byte }
{
    is_common_char(byte) || byte == b'?' || byte == b'#'
}

/// Whether a node's name may have all of the bytes.
fn are_node_chars(bytes: &[u8]) -> bool
    ensures { result ≡ list_all spec.is_node_char bytes.now }
{
    bytes.iter().all(|byte| is_node_char(*byte))
}

/// Whether a property's name may have all of the bytes.
fn are_property_chars(bytes: &[u8]) -> bool
    ensures { result ≡ list_all spec.is_property_char bytes.now }
{
    bytes.iter().all(|byte| is_property_char(*byte))
}

/// Whether a comma comes first.
fn begins_with_comma(bytes: &[u8]) -> bool
    ensures { result ≡ spec.begins_with_comma bytes.now }
{
    match bytes {
        [first, ..] => *first == b',',
        [] => false,
    }
}

/// Whether a name may be so long.
fn has_name_length(bytes: &[u8]) -> bool
    ensures { result ≡ (nat_le 1 (length bytes.now) && nat_le (length bytes.now) 255) }
{
    1 <= bytes.len() && bytes.len() <= 255
}

/// Whether a node other than the root may have the name: 1 to 255 digits, letters and `, . _ + - @`, with no comma at the
/// front (ePAPR 1.1, 2.2.1.1).
#[tactic(auto, unfolding(crate::specs::Name::is_name_of))]
pub fn is_node_name(name: &[u8]) -> bool
    ensures { result ≡ spec.is_node_name name.now }
{
    has_name_length(name) && are_node_chars(name) && !begins_with_comma(name)
}

/// Whether a property may have the name: 1 to 255 digits, letters and `, . _ + - ? #`, with no comma at the front
/// (ePAPR 1.1, 2.2.4.1).
#[tactic(auto, unfolding(crate::specs::Name::is_name_of))]
pub fn is_property_name(name: &[u8]) -> bool
    ensures { result ≡ spec.is_property_name name.now }
{
    has_name_length(name) && are_property_chars(name) && !begins_with_comma(name)
}
