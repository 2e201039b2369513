use std::fmt;

/// Why the broker closes a connection.
#[derive(Clone, Copy)]
pub enum CloseReason {
    /// The size of a frame is above what is taken.
    TooLong { size: u32 },
    /// A frame's header can't be read.
    BadHeader,
    /// No such version of such a call is served.
    UnknownApi { key: i16, version: i16 },
    /// The body can't be read as the call's. The place is of the first byte that doesn't fit, from the first one after
    /// the size.
    BadBody { place: u64 },
    /// The reply would be too long.
    LongReply,
    /// No memory was found.
    NoMemory,
}

impl fmt::Display for CloseReason {
    fn fmt<W: fmt::Write>(&self, f: &mut fmt::Formatter<W>) -> fmt::Result {
        match self {
            CloseReason::TooLong { size } => {
                write!(
                    f,
                    "a request of {size} bytes is longer than any that is taken"
                )
            }
            CloseReason::BadHeader => f.write_str("the header of a request can't be read"),
            CloseReason::UnknownApi { key, version } => {
                write!(
                    f,
                    "version {version} of the call with key {key} isn't served"
                )
            }
            CloseReason::BadBody { place } => {
                write!(
                    f,
                    "the body of a request can't be read from its byte {place} on"
                )
            }
            CloseReason::LongReply => f.write_str(
                "its reply would be longer than any that is sent",
            ),
            CloseReason::NoMemory => f.write_str("no memory was found"),
        }
    }
}
