//! The exit status.

ghost use Rattle.std.specs.Prelude.{◌≡◌};
ghost use Rattle.topaz.specs.Exit.{exit_status_of};

use topaz_run::Status;

/// The exit status of the program.
pub fn exit_status(status: Status) -> u8
    ensures { result ≡ exit_status_of status }
{
    match status {
        Status::Ok => 0,
        Status::Usage => 1,
        Status::Refused => 2,
        Status::ReadFault => 3,
        Status::WriteFault => 4,
        Status::NoMemory => 5,
    }
}
