//! The reply to a hypercall, and where the caller finds it.

ghost use Rattle.std.specs.Prelude.{◌≡◌, ◌≤◌, [], length};
ghost use Rattle.arrayvec.specs.ArrayVec.{array_vec_len};
ghost use Rattle.hcall_abi.specs.Reply.{reply_of, replied};
ghost use Rattle.hcall_abi.specs.Status.{code_of};

use crate::status::Status;
use arrayvec::ArrayVec;
use guest_regs::Regs;

/// The general register of the status.
const STATUS: u8 = 3;

/// What a service answers (ePAPR 1.1, chapter 7): the number of its status for r3, and the values for r4 and the
/// registers behind it.
#[derive(Debug, Drop)]
pub struct Reply {
    pub status: u32,
    pub outs: ArrayVec<u32, 5>,
}

impl Reply {
    /// A status alone.
    pub fn new(status: Status) -> Reply
        ensures value { reply_of result ≡ record { status = code_of status; outs = [] } }
        ensures length { array_vec_len result.outs ≡ 0 }
    {
        Reply {
            status: status.code(),
            outs: ArrayVec::new(),
        }
    }

    /// A status with values, at most five.
    pub fn with(status: Status, values: &[u32]) -> Reply
        requires { length values.now ≤ 5 }
        ensures { reply_of result ≡ record { status = code_of status; outs = values.now } }
    {
        let mut reply = Reply::new(status);
        for &value in values {
            reply.outs.push(value);
        }
        reply
    }
}

/// Writes the status to r3 and the values to r4 and on, and no other register.
#[tactic(auto, unfolding(crate::specs::Reply::replied))]
pub fn set_reply(regs: &mut Regs, reply: &Reply)
    ensures { regs.new ≡ replied (reply_of reply.now) regs.old }
{
    regs.set_gpr(STATUS, reply.status);
    let mut register = STATUS;
    for &value in reply.outs.iter() {
        register += 1;
        regs.set_gpr(register, value);
    }
}
