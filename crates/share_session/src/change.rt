ghost use Rattle.std.specs.Prelude.{◌≡◌, ◌<◌, ◌≤◌, length, vec_len, IfSome, OnOk, OnErr};
ghost use Rattle.std.specs.List.{position};
ghost use Rattle.std.specs.Vec.{vec_capacity};
ghost use Rattle.share_session.specs.Sessions.{is_of, without, with_session, applied};

use crate::session::Session;
use share_model::{Name, NoMemory};

/// What a request does to the sessions of its connection. It is about one session alone.
#[derive(Drop)]
pub enum SessionChange {
    /// The session of this member of this group is no more.
    Leave { group: Name, member: Name },
    /// This session stands in the place of its member's.
    Put(Session),
    /// This session is the last that was opened, and the one that its member had before is no more.
    Open(Session),
}

fn leave(list: &mut Vec<Session>, group: &Name, member: &Name)
    ensures list { list.new.items ≡ without group.now member.now list.old.items }
    ensures few { vec_len list.new ≤ vec_len list.old }
    ensures room { vec_capacity list.new ≡ vec_capacity list.old }
{
    list.retain(|session| !session.is_of(group, member));
}

fn place_of(list: &[Session], session: &Session) -> Option<usize>
    ensures place { result ≡ position (is_of session.now.group session.now.member) list.now }
    ensures within { IfSome result (λ place. place < length list.now) }
{
    list.iter()
        .position(|other| other.is_of(session.group(), session.member()))
}

fn put(list: &mut Vec<Session>, session: Session)
    ensures { list.new.items ≡ with_session session list.old.items }
{
    if let Some(place) = place_of(list, &session) {
        list[place] = session;
    }
}

fn open_last(list: &mut Vec<Session>, session: Session) -> Result<(), NoMemory>
    ensures done { OnOk result (list.new.items ≡ applied (SessionChange.Open session) list.old.items) }
    ensures kept { OnErr result (list.new.items ≡ list.old.items) }
{
    list.reserve(1)?;
    leave(list, session.group(), session.member());
    list.push(session)?;
    Ok(())
}

/// Makes the change. Where there is no memory for it, the list is as it was.
pub fn apply(list: &mut Vec<Session>, change: SessionChange) -> Result<(), NoMemory>
    ensures done { OnOk result (list.new.items ≡ applied change list.old.items) }
    ensures kept { OnErr result (list.new.items ≡ list.old.items) }
{
    match change {
        SessionChange::Leave { group, member } => {
            leave(list, &group, &member);
            Ok(())
        }
        SessionChange::Put(session) => {
            put(list, session);
            Ok(())
        }
        SessionChange::Open(session) => open_last(list, session),
    }
}
