//! What a hypercall answers.

use hcall_abi::Reply;
use machine_desc::Act;

/// The reply to the caller, and what others see.
#[derive(Debug, Drop)]
pub struct Served {
    pub reply: Reply,
    pub act: Act,
}
