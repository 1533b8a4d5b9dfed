//! What a command begins with that has a configuration.

use config_rules::Accepted;
use hv_config::Board;

/// A configuration, and the hardware that it was accepted on.
#[derive(Drop)]
pub struct Setup {
    pub accepted: Accepted,
    pub board: Board,
}
