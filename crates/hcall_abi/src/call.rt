//! The services, and their tokens.

ghost use Rattle.std.specs.Prelude.{◌≡◌};
ghost use Rattle.guest_regs.specs.Registers.{gpr_of};
ghost use Rattle.hcall_abi.specs.Call.{call_of};

use guest_regs::Regs;

/// A service of the hypervisor.
///
/// Those from `Send` to `Idle` have the tokens and registers of ePAPR 1.1, chapter 7. Those for partitions, from `Restart`
/// to `Memcpy`, have the tokens of Freescale's hypercalls, vendor 2; their registers, checks and statuses are our own.
#[derive(Clone, Copy, Debug, PartialEq, Eq)]
pub enum Call {
    /// Sends bytes on a byte channel.
    Send,
    /// Takes bytes that came on a byte channel.
    Receive,
    /// How many bytes wait on a byte channel, and how many more may be sent.
    Poll,
    /// Configures an interrupt.
    SetConfig,
    /// How an interrupt is configured.
    GetConfig,
    /// Masks an interrupt, or unmasks it.
    SetMask,
    /// Whether an interrupt is masked.
    GetMask,
    /// Takes the pending interrupt that comes first into service.
    Iack,
    /// Ends the service of an interrupt.
    Eoi,
    /// Sets the priority that an interrupt has to exceed.
    SetTaskPriority,
    /// Which priority that is.
    GetTaskPriority,
    /// Rings a doorbell.
    DoorbellSend,
    /// Waits for an interrupt.
    Idle,
    /// Starts a running partition anew.
    Restart,
    /// Whether a partition runs.
    GetStatus,
    /// Starts a partition that doesn't run.
    Start,
    /// Stops a partition.
    Stop,
    /// Copies memory from a managed partition or to it.
    Memcpy,
    /// No service has the token.
    Unlisted,
}

impl Call {
    /// The service that the token in r11 asks for (ePAPR 1.1, chapter 7).
    pub fn of(regs: &Regs) -> Call
        ensures { result ≡ call_of (gpr_of regs.now 11) }
    {
        call_of_token(regs.gpr(11))
    }
}

/// The service that a token asks for.
#[tactic(auto, unfolding(crate::specs::Call::call_of, crate::specs::Call::services))]
fn call_of_token(token: u32) -> Call
    ensures { result ≡ call_of token }
{
    match token {
        0x1_0001 => Call::Send,
        0x1_0002 => Call::Receive,
        0x1_0003 => Call::Poll,
        0x1_0004 => Call::SetConfig,
        0x1_0005 => Call::GetConfig,
        0x1_0006 => Call::SetMask,
        0x1_0007 => Call::GetMask,
        0x1_0009 => Call::Iack,
        0x1_000A => Call::Eoi,
        0x1_000C => Call::SetTaskPriority,
        0x1_000D => Call::GetTaskPriority,
        0x1_000E => Call::DoorbellSend,
        0x1_0010 => Call::Idle,
        0x2_0004 => Call::Restart,
        0x2_0005 => Call::GetStatus,
        0x2_0006 => Call::Start,
        0x2_0007 => Call::Stop,
        0x2_0008 => Call::Memcpy,
        _ => Call::Unlisted,
    }
}
