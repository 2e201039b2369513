ghost use Rattle.std.specs.Prelude.{◌≡◌, ℕ, IsTrue, Some};
ghost use Rattle.share_members.specs.Expiry.{session_timeout};
ghost use Rattle.share_members.specs.Heartbeats.{no_member, member_after};
ghost use Rattle.std.specs.Prelude.{nat_le, ◌+◌};

use crate::places::Places;
use std::alloc::Global;

/// How long a member may be silent, in milliseconds.
const SESSION_TIMEOUT: u64 = 45000;

/// What a group keeps of a member.
///
/// `topics` are the places of the hosted topics that it subscribes to, rising; `heartbeat` is the moment of its last
/// accepted heartbeat.
#[derive(Drop)]
pub struct Member {
    pub epoch: i32,
    pub previous_epoch: i32,
    pub topics: Places,
    pub heartbeat: u64,
}

impl Member {
    // One that is in no epoch yet.
    pub(crate) fn new(alloc: Global) -> Member
        ensures { result ≡ no_member }
    {
        Member {
            epoch: 0,
            previous_epoch: 0,
            topics: Places::none(alloc),
            heartbeat: 0,
        }
    }

    // Takes an accepted heartbeat, in a group of this epoch. `None` leaves its subscription.
    pub(crate) fn renew(&mut self, epoch: i32, topics: Option<Places>, moment: u64)
        ensures { self.new ≡ member_after epoch topics moment self.old }
    {
        if self.epoch != epoch {
            self.previous_epoch = self.epoch;
            self.epoch = epoch;
        }
        if let Some(topics) = topics {
            self.topics = topics;
        }
        self.heartbeat = moment;
    }

    // Whether its session has ended.
    pub(crate) fn is_due(&self, moment: u64) -> bool
        ensures { result ≡ nat_le (self.now.heartbeat + session_timeout) moment }
    {
        moment.saturating_sub(self.heartbeat) >= SESSION_TIMEOUT
    }
}
