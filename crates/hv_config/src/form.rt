//! The forms of values, and which property has which.

ghost use Rattle.std.specs.Prelude.{◌≡◌, IfOk, ◌+◌, ◌≤◌, length, drop};
ghost use Rattle.byteorder.specs.Endian.{big_number};
ghost use Rattle.hv_config.specs.Form as spec;

use crate::role::Role;
use byteorder::{BigEndian, ByteOrder};
use dt_model::text_of;
use outside::NoMemory;
use std::alloc::Global;

/// The form of a value.
#[derive(Clone, Copy)]
pub enum Form {
    /// A number of eight bytes.
    Number,
    /// One or more numbers of four bytes.
    Cores,
    /// 1 to 255 bytes that can be printed, and a NUL.
    Text,
    /// No bytes.
    Nothing,
    /// The text `topaz,config`.
    Mark,
    /// A text that names a kind of handle.
    Sort,
}

/// What a handle stands for.
#[derive(Clone, Copy, Debug, PartialEq, Eq)]
pub enum Kind {
    /// An end of a byte channel.
    Channel,
    /// The sending end of a doorbell.
    Send,
    /// The receiving end of a doorbell.
    Receive,
    /// The management of another partition.
    Manage,
}

/// The number of four bytes at the place.
fn word_at(value: &[u8], at: usize) -> u32
    requires { at + 4 ≤ length value.now }
    ensures { result ≡ big_number 4 (drop at value.now) }
{
    BigEndian::read_u32(&value[at..])
}

/// The numbers of four bytes in a value.
pub fn cores_in(alloc: Global, value: &[u8]) -> Result<Vec<u32>, NoMemory>
    ensures { IfOk result (λ cores. cores.items ≡ spec.cores_in value.now) }
{
    let mut cores = Vec::new(alloc);
    for k in 0..value.len() / 4 {
        cores.push(word_at(value, k * 4))?;
    }
    Ok(cores)
}

/// The kind with the name.
fn kind_named(name: &[u8]) -> Option<Kind>
    ensures { result ≡ spec.kind_named name.now }
{
    if name == b"channel".as_slice() {
        Some(Kind::Channel)
    } else if name == b"send".as_slice() {
        Some(Kind::Send)
    } else if name == b"receive".as_slice() {
        Some(Kind::Receive)
    } else if name == b"manage".as_slice() {
        Some(Kind::Manage)
    } else {
        None
    }
}

/// The kind that a value names.
pub fn kind_in(value: &[u8]) -> Option<Kind>
    ensures { result ≡ spec.kind_in value.now }
{
    kind_named(text_of(value)?)
}

/// Whether the value says that the tree is a configuration.
#[tactic(auto, unfolding(crate::specs::Form::has_form))]
fn is_mark(value: &[u8]) -> bool
    ensures { result ≡ spec.has_form Form.Mark value.now }
{
    match text_of(value) {
        Some(text) => text == b"topaz,config".as_slice(),
        None => false,
    }
}

/// Whether the value has the form.
#[tactic(auto, unfolding(crate::specs::Form::has_form))]
pub fn has_form(form: Form, value: &[u8]) -> bool
    ensures { result ≡ spec.has_form form value.now }
{
    match form {
        Form::Number => value.len() == 8,
        Form::Cores => 0 < value.len() && value.len() % 4 == 0,
        Form::Text => text_of(value).is_some(),
        Form::Nothing => value.is_empty(),
        Form::Mark => is_mark(value),
        Form::Sort => kind_in(value).is_some(),
    }
}

/// The form of the root's property with the name.
fn form_in_root(name: &[u8]) -> Option<Form>
    ensures { result ≡ spec.form_in_root name.now }
{
    if name == b"compatible".as_slice() {
        Some(Form::Mark)
    } else {
        None
    }
}

/// Likewise an area's.
fn form_in_area(name: &[u8]) -> Option<Form>
    ensures { result ≡ spec.form_in_area name.now }
{
    if name == b"base".as_slice() {
        Some(Form::Number)
    } else if name == b"size".as_slice() {
        Some(Form::Number)
    } else {
        None
    }
}

/// Likewise a channel's.
fn form_in_channel(name: &[u8]) -> Option<Form>
    ensures { result ≡ spec.form_in_channel name.now }
{
    if name == b"console".as_slice() {
        Some(Form::Text)
    } else {
        None
    }
}

/// Likewise a partition's.
fn form_in_partition(name: &[u8]) -> Option<Form>
    ensures { result ≡ spec.form_in_partition name.now }
{
    if name == b"cpus".as_slice() {
        Some(Form::Cores)
    } else if name == b"image".as_slice() {
        Some(Form::Text)
    } else if name == b"tree-at".as_slice() {
        Some(Form::Number)
    } else if name == b"tree-size".as_slice() {
        Some(Form::Number)
    } else if name == b"image-at".as_slice() {
        Some(Form::Number)
    } else if name == b"held".as_slice() {
        Some(Form::Nothing)
    } else if name == b"bootargs".as_slice() {
        Some(Form::Text)
    } else {
        None
    }
}

/// Likewise a guest area's.
fn form_in_guest_area(name: &[u8]) -> Option<Form>
    ensures { result ≡ spec.form_in_guest_area name.now }
{
    if name == b"area".as_slice() {
        Some(Form::Text)
    } else if name == b"at".as_slice() {
        Some(Form::Number)
    } else {
        None
    }
}

/// Likewise a handle's.
fn form_in_handle(name: &[u8]) -> Option<Form>
    ensures { result ≡ spec.form_in_handle name.now }
{
    if name == b"kind".as_slice() {
        Some(Form::Sort)
    } else if name == b"target".as_slice() {
        Some(Form::Text)
    } else {
        None
    }
}

/// The form of a node's property with the name.
#[tactic(auto, unfolding(crate::specs::Form::form_of))]
pub fn form_of(role: Role, name: &[u8]) -> Option<Form>
    ensures { result ≡ spec.form_of role name.now }
{
    match role {
        Role::Root => form_in_root(name),
        Role::Area => form_in_area(name),
        Role::Channel => form_in_channel(name),
        Role::Partition => form_in_partition(name),
        Role::GuestArea => form_in_guest_area(name),
        Role::Handle => form_in_handle(name),
        _ => None,
    }
}
