ghost use Rattle.std.specs.Prelude.{◌≡◌};
ghost use Rattle.share_session.specs.declared.fault.SessionFault.{SessionFault};
ghost use Rattle.share_session.specs.declared.fault.SessionFault.TheVariants.{NoMemory as no_memory};

use share_model::{Code, NoMemory};

/// Why a share request is refused as a whole. Each fault but want of memory has its error code.
#[derive(Clone, Copy)]
pub enum SessionFault {
    /// The group is null, empty or longer than 255 bytes: 24.
    BadGroup,
    /// The member is null, empty or longer than 255 bytes: 42.
    BadMember,
    /// The epoch is below -1, is 0 in an acknowledgement, or isn't the session's next one: 123.
    BadEpoch,
    /// A partition stands twice, or a request that opens a session has acknowledgements: 42.
    Invalid,
    /// The connection has 100 sessions: 133.
    Limit,
    /// The member has no session: 122.
    NotFound,
    /// There was no memory for the request.
    NoMemory,
}

impl From<NoMemory> for SessionFault {
    ghost from_gives = { λ _ e. e ≡ no_memory };

    fn from(_: NoMemory) -> Self {
        SessionFault::NoMemory
    }
}

impl SessionFault {
    ghost use Rattle.share_session.specs.Refusals.{code_of};

    /// The error code. `None` for want of memory.
    pub fn code(self) -> Option<Code>
        ensures { result ≡ code_of self }
    {
        match self {
            SessionFault::BadGroup => Some(Code::INVALID_GROUP_ID),
            SessionFault::BadMember | SessionFault::Invalid => Some(Code::INVALID_REQUEST),
            SessionFault::BadEpoch => Some(Code::INVALID_SHARE_SESSION_EPOCH),
            SessionFault::Limit => Some(Code::SHARE_SESSION_LIMIT_REACHED),
            SessionFault::NotFound => Some(Code::SHARE_SESSION_NOT_FOUND),
            SessionFault::NoMemory => None,
        }
    }
}
