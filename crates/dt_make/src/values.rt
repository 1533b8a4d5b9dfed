//! Values of properties, and lists of properties.

ghost use Rattle.std.specs.Prelude.{◌≡◌, [], ◌∷◌, ◌++◌, IfOk, OnOk};
ghost use Rattle.dt_make.specs.Values as spec;

use byteorder::{BigEndian, ByteOrder};
use dt_model::Property;
use outside::{Bytes, NoMemory};
use std::alloc::Global;

/// Appends a number of 32 bits.
pub fn push_cell(value: &mut Vec<u8>, number: u32) -> Result<(), NoMemory>
    ensures { OnOk result (value.new.items ≡ value.old.items ++ spec.cell number) }
{
    let mut bytes = [0u8; 4];
    BigEndian::write_u32(&mut bytes, number);
    value.extend_from_slice(&bytes)?;
    Ok(())
}

/// Appends a number of 64 bits.
pub fn push_double(value: &mut Vec<u8>, number: u64) -> Result<(), NoMemory>
    ensures { OnOk result (value.new.items ≡ value.old.items ++ spec.double number) }
{
    let mut bytes = [0u8; 8];
    BigEndian::write_u64(&mut bytes, number);
    value.extend_from_slice(&bytes)?;
    Ok(())
}

/// Appends a property with this value.
pub fn push(
    alloc: Global,
    properties: &mut Vec<Property>,
    name: &[u8],
    value: Vec<u8>,
) -> Result<(), NoMemory>
    ensures { OnOk result (properties.new.items ≡ properties.old.items ++ spec.property name.now value.items ∷ []) }
{
    let name = Bytes::of(alloc, name)?;
    properties.push(Property {
        name,
        value: Bytes::from_vec(value),
    })?;
    Ok(())
}

/// Appends a property without a value.
pub fn push_empty(
    alloc: Global,
    properties: &mut Vec<Property>,
    name: &[u8],
) -> Result<(), NoMemory>
    ensures { OnOk result (properties.new.items ≡ properties.old.items ++ spec.property name.now [] ∷ []) }
{
    push(alloc, properties, name, Vec::new(alloc))
}

/// Appends a property that is a number.
pub fn push_number(
    alloc: Global,
    properties: &mut Vec<Property>,
    name: &[u8],
    number: u32,
) -> Result<(), NoMemory>
    ensures { OnOk result (properties.new.items ≡ properties.old.items ++ spec.property name.now (spec.cell number) ∷ []) }
{
    let mut value = Vec::new(alloc);
    push_cell(&mut value, number)?;
    push(alloc, properties, name, value)
}

/// Appends a property that is a text.
pub fn push_text(
    alloc: Global,
    properties: &mut Vec<Property>,
    name: &[u8],
    text: &[u8],
) -> Result<(), NoMemory>
    ensures { OnOk result (properties.new.items ≡ properties.old.items ++ spec.property name.now (spec.text text.now) ∷ []) }
{
    let mut value = Vec::from_slice(alloc, text)?;
    value.push(0)?;
    push(alloc, properties, name, value)
}

/// Appends a property that is a number of 64 bits.
pub fn push_address(
    alloc: Global,
    properties: &mut Vec<Property>,
    name: &[u8],
    number: u64,
) -> Result<(), NoMemory>
    ensures { OnOk result (properties.new.items ≡ properties.old.items ++ spec.property name.now (spec.double number) ∷ []) }
{
    let mut value = Vec::new(alloc);
    push_double(&mut value, number)?;
    push(alloc, properties, name, value)
}

/// Appends a property that is several numbers.
pub fn push_numbers(
    alloc: Global,
    properties: &mut Vec<Property>,
    name: &[u8],
    numbers: &[u32],
) -> Result<(), NoMemory>
    ensures { OnOk result (properties.new.items ≡ properties.old.items ++ spec.property name.now (spec.cells numbers.now) ∷ []) }
{
    let mut value = Vec::new(alloc);
    for number in numbers {
        push_cell(&mut value, *number)?;
    }
    push(alloc, properties, name, value)
}
