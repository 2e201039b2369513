ghost use Rattle.std.specs.Prelude.{◌≡◌};
ghost use Rattle.share_client.specs.declared.fault.ClientFault.TheVariants.{Strange};
ghost use Rattle.share_client.specs.Frames.{fault_of, within};

use flex_fields::WireFault;

/// Why a consumer ends.
#[derive(Clone, Copy, Debug)]
pub enum ClientFault {
    /// A reply has this error code.
    Refused { code: i16 },
    /// A reply isn't one. The place is that of the first byte of what can't be, counted from behind the frame's size.
    Strange { place: u32 },
    /// No memory was found for what a reply says.
    NoMemory,
}

// A place within a frame.
fn within(place: u64) -> u32
    ensures { result ≡ within place }
{
    if place < 4294967295 {
        place as u32
    } else {
        4294967295
    }
}

/// A reply isn't one, at this place.
pub fn strange(place: u64) -> ClientFault
    ensures { result ≡ Strange (within place) }
{
    ClientFault::Strange {
        place: within(place),
    }
}

/// What a fault of reading says of a reply.
pub fn fault_of(fault: WireFault) -> ClientFault
    ensures { result ≡ fault_of fault }
{
    match fault {
        WireFault::Short { place } => strange(place),
        WireFault::BadVarint { place } => strange(place),
        WireFault::BadLength { place } => strange(place),
        WireFault::NotUtf8 { place } => strange(place),
        WireFault::Trailing { place } => strange(place),
        WireFault::NoMemory => ClientFault::NoMemory,
    }
}
