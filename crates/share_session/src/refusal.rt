// Whether a request is refused as a whole.
ghost use Rattle.std.specs.Prelude.{◌≡◌, length, true, false, None, IfOk, IfErr, IfSome, IfNone};
ghost use Rattle.std.specs.Option.{option_copied};
ghost use Rattle.share_session.specs.Sessions.{session_of};
ghost use Rattle.share_session.specs.Requests.{text_of, is_name, entries, has_repeat};
ghost use Rattle.share_session.specs.Refusals.{first_row, standing_rows, request_rows, refusal, IsRefusedBy};
ghost use Rattle.share_session.specs.Plans.{caller_of};

use crate::fault::SessionFault;
use crate::repeats::{has_batches, has_repeat};
use crate::session::Session;
use crate::step::Caller;
use flex_fields::Text;
use msgs_share::{SharePartition, ShareTopic};
use share_model::{Name, NoMemory};
use std::alloc::Global;

/// How many sessions a connection has at most.
pub const MAX_SESSIONS: usize = 100;

// The group or member with this text.
fn name_of(text: &Option<Text>) -> Option<Name>
    ensures some { IfSome result (λ name. (name ≡ text_of text.now) × (is_name (text_of text.now) ≡ true)) }
    ensures none { IfNone result (is_name (text_of text.now) ≡ false) }
{
    match text {
        Some(text) => Name::new(text.as_str()),
        None => None,
    }
}

/// The member's session.
pub fn session_of<'a>(sessions: &'a [Session], caller: &Caller) -> Option<&'a Session>
    ensures { option_copied result ≡ session_of caller.now.group caller.now.member sessions.now }
{
    sessions
        .iter()
        .find(|session| session.is_of(&caller.group, &caller.member))
}

// How the epoch stands to the member's session.
fn standing(session: Option<&Session>, count: usize, epoch: i32) -> Option<SessionFault>
    ensures { result ≡ first_row (standing_rows (option_copied session.entry) count epoch) }
{
    match session {
        None if epoch != 0 => Some(SessionFault::NotFound),
        None if count >= MAX_SESSIONS => Some(SessionFault::Limit),
        None => None,
        Some(session) if epoch > 0 && epoch != session.epoch() => Some(SessionFault::BadEpoch),
        Some(_) => None,
    }
}

fn request_refusal(
    alloc: Global,
    sessions: &[Session],
    caller: &Caller,
    may_open: bool,
    epoch: i32,
    topics: &[ShareTopic<SharePartition>],
) -> Result<Option<SessionFault>, NoMemory>
    ensures why { IfOk result (λ why. why ≡ first_row (request_rows may_open epoch topics.now
        (session_of caller.now.group caller.now.member sessions.now) (length sessions.now))) }
    ensures once { IfOk result (λ why. why ≡ None → has_repeat (entries topics.now) ≡ false) }
{
    if epoch < -1 || (epoch == 0 && !may_open) {
        return Ok(Some(SessionFault::BadEpoch));
    }
    let repeats = has_repeat(alloc, topics)?;
    if repeats || (epoch == 0 && has_batches(topics)) {
        return Ok(Some(SessionFault::Invalid));
    }
    let session = session_of(sessions, caller);
    Ok(standing(session, sessions.len(), epoch))
}

/// The member that the request comes from, where it isn't refused.
pub fn admit(
    alloc: Global,
    sessions: &[Session],
    may_open: bool,
    group: &Option<Text>,
    member: &Option<Text>,
    epoch: i32,
    topics: &[ShareTopic<SharePartition>],
) -> Result<Caller, SessionFault>
    ensures refused { IfErr result (IsRefusedBy (refusal may_open sessions.now (text_of group.now) (text_of member.now) epoch topics.now)) }
    ensures granted { IfOk result (λ _. refusal may_open sessions.now (text_of group.now) (text_of member.now) epoch topics.now ≡ None) }
    ensures caller { IfOk result (λ caller. caller ≡ caller_of group.now member.now) }
    ensures once { IfOk result (λ _. has_repeat (entries topics.now) ≡ false) }
{
    let Some(group) = name_of(group) else {
        return Err(SessionFault::BadGroup);
    };
    let Some(member) = name_of(member) else {
        return Err(SessionFault::BadMember);
    };
    let caller = Caller { group, member };
    match request_refusal(alloc, sessions, &caller, may_open, epoch, topics)? {
        Some(fault) => Err(fault),
        None => Ok(caller),
    }
}
