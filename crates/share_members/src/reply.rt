ghost use Rattle.std.specs.Prelude.{◌≡◌};
ghost use Rattle.share_members.specs.Heartbeats.{refused, accepted};

use flex_fields::Text;
use msgs_group::{Assignment, HeartbeatReply};
use share_model::Code;

/// The reply to a heartbeat that is refused.
pub fn refused(code: Code) -> HeartbeatReply
    ensures { result ≡ refused code }
{
    HeartbeatReply {
        throttle_time_ms: 0,
        error_code: code.0,
        error_message: None,
        member_id: None,
        member_epoch: 0,
        heartbeat_interval_ms: 0,
        assignment: None,
    }
}

/// The reply to a heartbeat that is accepted.
pub fn accepted(id: Text, epoch: i32, interval: i32, assigned: Option<Assignment>) -> HeartbeatReply
    ensures { result ≡ accepted id epoch interval assigned }
{
    HeartbeatReply {
        throttle_time_ms: 0,
        error_code: 0,
        error_message: None,
        member_id: Some(id),
        member_epoch: epoch,
        heartbeat_interval_ms: interval,
        assignment: assigned,
    }
}
