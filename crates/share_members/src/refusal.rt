ghost use Rattle.std.specs.Prelude.{◌≡◌, ℕ, Some, None, if◌then◌else◌};
ghost use Rattle.std.specs.Option.{option_copied};
ghost use Rattle.share_members.specs.Groups.{member_at};
ghost use Rattle.share_members.specs.Heartbeats.{is_id, has_invalid_epoch, is_fenced, member_refusal};

use crate::member::Member;
use flex_fields::Text;
use msgs_group::HeartbeatRequest;
use share_model::{Code, Name};

/// The most members that a group has.
const MOST_MEMBERS: usize = 200;

/// The id of a group or of a member: 1 to 255 bytes.
pub fn id_of(text: &Text) -> Option<Name>
    ensures { result ≡ (if is_id text.now then Some text.now else None) }
{
    Name::new(text.as_str())
}

/// Whether it is one that no member may send, whatever its ids.
pub fn has_invalid_epoch(request: &HeartbeatRequest) -> bool
    ensures { result ≡ has_invalid_epoch request.now }
{
    request.member_epoch < -1
        || request.member_epoch == 0 && request.subscribed_topic_names.is_none()
}

fn is_fenced(epoch: i32, member: &Member) -> bool
    ensures { result ≡ is_fenced epoch member.now }
{
    epoch > member.epoch || epoch > 0 && epoch < member.epoch && epoch != member.previous_epoch
}

/// Why a valid heartbeat of this epoch is refused, by its member, where it is there, and how many members there are.
pub fn member_refusal(epoch: i32, member: Option<&Member>, members: usize) -> Option<Code>
    ensures { result ≡ member_refusal epoch (option_copied member.entry) members }
{
    match member {
        Some(member) => is_fenced(epoch, member).then_some(Code::FENCED_MEMBER_EPOCH),
        None => {
            if epoch != 0 {
                return Some(Code::UNKNOWN_MEMBER_ID);
            }
            (members >= MOST_MEMBERS).then_some(Code::GROUP_MAX_SIZE_REACHED)
        }
    }
}
