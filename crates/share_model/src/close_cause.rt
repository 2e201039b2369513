/// Why the broker closed a connection.
#[derive(Clone, Copy)]
pub enum CloseCause {
    /// The size of a frame, as an unsigned number, is above 16777216.
    TooLong { size: u32 },
    /// A frame's header isn't a request header of version 2.
    BadHeader,
    /// No such version of such a call is served.
    UnknownApi { key: i16, version: i16 },
    /// The body isn't the message's, and this is the first byte of the field that can't be read, or the
    /// first byte behind the message. Places count from the first byte after the size.
    BadBody { place: u64 },
    /// The reply would have more than 2147483647 bytes after its size.
    LongReply,
}
