//! What a node of a configuration is.

ghost use Rattle.std.specs.Prelude.{◌≡◌};
ghost use Rattle.hv_config.specs.Role as spec;

/// What a node is. `specs/Role.antt` has the table.
#[derive(Clone, Copy, Debug, PartialEq, Eq)]
pub enum Role {
    Root,
    Areas,
    Area,
    Channels,
    Channel,
    Doorbells,
    Doorbell,
    Partitions,
    Partition,
    GuestAreas,
    GuestArea,
    Handles,
    Handle,
    Stranger,
}

/// What a child of the root with the name is.
fn role_in_root(name: &[u8]) -> Role
    ensures { result ≡ spec.role_in_root name.now }
{
    if name == b"areas".as_slice() {
        Role::Areas
    } else if name == b"channels".as_slice() {
        Role::Channels
    } else if name == b"doorbells".as_slice() {
        Role::Doorbells
    } else if name == b"partitions".as_slice() {
        Role::Partitions
    } else {
        Role::Stranger
    }
}

/// What a child of a partition with the name is.
fn role_in_partition(name: &[u8]) -> Role
    ensures { result ≡ spec.role_in_partition name.now }
{
    if name == b"areas".as_slice() {
        Role::GuestAreas
    } else if name == b"handles".as_slice() {
        Role::Handles
    } else {
        Role::Stranger
    }
}

/// What a child with the name is.
pub fn child_role(role: Role, name: &[u8]) -> Role
    ensures { result ≡ spec.child_role role name.now }
{
    match role {
        Role::Root => role_in_root(name),
        Role::Areas => Role::Area,
        Role::Channels => Role::Channel,
        Role::Doorbells => Role::Doorbell,
        Role::Partitions => Role::Partition,
        Role::Partition => role_in_partition(name),
        Role::GuestAreas => Role::GuestArea,
        Role::Handles => Role::Handle,
        _ => Role::Stranger,
    }
}

/// Whether it has no place in the table.
pub fn is_stranger(role: Role) -> bool
    ensures { result ≡ spec.is_stranger role }
{
    matches!(role, Role::Stranger)
}
