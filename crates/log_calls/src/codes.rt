// The error codes of Produce.
ghost use Rattle.std.specs.Prelude.{◌≡◌};
ghost use Rattle.log_calls.specs.Codes.{batch_code, is_acks, wants_reply, request_refusal};

use flex_fields::Text;
use share_model::{BatchFault, Code};

/// The error code of a batch that was refused.
pub fn batch_code(fault: BatchFault) -> Code
    ensures { result ≡ batch_code fault }
{
    match fault {
        BatchFault::TooLarge => Code::MESSAGE_TOO_LARGE,
        BatchFault::Short | BatchFault::BadCrc => Code::CORRUPT_MESSAGE,
        BatchFault::Compressed => Code::UNSUPPORTED_COMPRESSION_TYPE,
        BatchFault::BadMagic
        | BatchFault::Transactional
        | BatchFault::Control
        | BatchFault::HasProducer
        | BatchFault::BadRecord { .. }
        | BatchFault::BadDeltas => Code::INVALID_RECORD,
    }
}

fn is_acks(acks: i16) -> bool
    ensures { result ≡ is_acks acks }
{
    acks >= -1 && acks <= 1
}

/// Whether a reply is wanted.
pub fn wants_reply(acks: i16) -> bool
    ensures { result ≡ wants_reply acks }
{
    acks != 0
}

/// The code that all partitions of a request have, if there is one.
pub fn request_refusal(acks: i16, transaction: &Option<Text>) -> Option<Code>
    ensures { result ≡ request_refusal acks transaction.now }
{
    if !is_acks(acks) {
        return Some(Code::INVALID_REQUIRED_ACKS);
    }
    if transaction.is_some() {
        return Some(Code::INVALID_REQUEST);
    }
    None
}
