ghost use Rattle.std.specs.Prelude.{◌≡◌};
ghost use Rattle.consume_run.specs.Ends.{end_of};

use share_client::ClientFault;

/// How a consumer's program ended.
#[derive(Clone, Copy, Debug)]
pub enum ConsumeEnd {
    /// As many records as were asked for were written, the last acknowledgement was answered, and the member has left
    /// its group.
    Done,
    /// A reply has this error code.
    Refused { code: i16 },
    /// A reply isn't one. The place is that of the first byte of what can't be, counted from behind the frame's size.
    Strange { place: u32 },
    /// The link for fetches was lost when all records were written, and before the reply to the last acknowledgement.
    Unacknowledged,
    /// The listener has no more links.
    NoLink,
    /// The output failed.
    Output,
    /// The listener failed.
    Listener,
    /// A job was refused. No link was taken.
    Spawner,
    /// No memory was found.
    NoMemory,
}

/// How a fault of the core ends the program.
pub fn end_of(fault: ClientFault) -> ConsumeEnd
    ensures { result ≡ end_of fault }
{
    match fault {
        ClientFault::Refused { code } => ConsumeEnd::Refused { code },
        ClientFault::Strange { place } => ConsumeEnd::Strange { place },
        ClientFault::NoMemory => ConsumeEnd::NoMemory,
    }
}
