//! What the steps of a run came to.

ghost use Rattle.std.specs.Prelude.{◌≡◌, ◌+◌, ◌≤◌, []};
ghost use Rattle.partition.specs.Act.{act_of};
ghost use Rattle.network.specs.Tally.{after_act, no_tally, sent_count};

use machine_desc::Act;
use std::marker::Model;

/// How many lines the steps of a run have, and how many bytes they sent.
#[derive(Drop)]
pub struct Tally {
    lines: u64,
    sent: u64,
}

impl Model for Tally {
    ghost use Rattle.network.specs.Tally.{Tally};

    ghost Value = { Tally };

    ghost view = { λ tally. record { lines = tally.lines; sent = tally.sent } };
}

impl Tally {
    /// Before the first turn.
    pub fn new() -> Tally
        ensures { result ≡ no_tally }
    {
        Tally { lines: 0, sent: 0 }
    }

    /// How many lines there are.
    pub fn lines(&self) -> u64
        ensures { result ≡ self.now.lines }
    {
        self.lines
    }

    /// How many bytes were sent.
    pub fn sent(&self) -> u64
        ensures { result ≡ self.now.sent }
    {
        self.sent
    }

    /// A step did this.
    pub fn count(&mut self, act: &Act)
        requires lines { self.old.lines + 1 ≤ 18446744073709551615 }
        requires sent { self.old.sent + sent_count (act_of [] act.now) ≤ 18446744073709551615 }
        ensures { self.new ≡ after_act (act_of [] act.now) self.old }
    {
        match act {
            Act::None | Act::Took { .. } => {}
            Act::Sent { bytes, .. } => {
                self.lines += 1;
                self.sent += bytes.len() as u64;
            }
            _ => self.lines += 1,
        }
    }
}
