ghost use Rattle.std.specs.Prelude.{◌≡◌};
ghost use Rattle.share_model.specs.ErrorCodes as kafka;
ghost use Rattle.share_model.specs.declared.fault.TheConstants.Code as program;

/// An error code of the Kafka protocol. The constants have the names of Kafka's own list.
#[derive(Clone, Copy)]
pub struct Code(pub i16);

impl Code {
    pub const NONE: Code = Code(0);

    pub const OFFSET_OUT_OF_RANGE: Code = Code(1);

    pub const CORRUPT_MESSAGE: Code = Code(2);

    pub const UNKNOWN_TOPIC_OR_PARTITION: Code = Code(3);

    pub const MESSAGE_TOO_LARGE: Code = Code(10);

    pub const INVALID_REQUIRED_ACKS: Code = Code(21);

    pub const INVALID_GROUP_ID: Code = Code(24);

    pub const UNKNOWN_MEMBER_ID: Code = Code(25);

    pub const UNSUPPORTED_VERSION: Code = Code(35);

    pub const INVALID_REQUEST: Code = Code(42);

    pub const KAFKA_STORAGE_ERROR: Code = Code(56);

    pub const FENCED_LEADER_EPOCH: Code = Code(74);

    pub const UNSUPPORTED_COMPRESSION_TYPE: Code = Code(76);

    pub const GROUP_MAX_SIZE_REACHED: Code = Code(81);

    pub const INVALID_RECORD: Code = Code(87);

    pub const UNKNOWN_TOPIC_ID: Code = Code(100);

    pub const FENCED_MEMBER_EPOCH: Code = Code(110);

    pub const INVALID_RECORD_STATE: Code = Code(121);

    pub const SHARE_SESSION_NOT_FOUND: Code = Code(122);

    pub const INVALID_SHARE_SESSION_EPOCH: Code = Code(123);

    pub const FENCED_STATE_EPOCH: Code = Code(124);

    pub const SHARE_SESSION_LIMIT_REACHED: Code = Code(133);
}

/// The constants of `Code` have the numbers of Kafka's list.
pub fn codes_have_their_numbers()
    ensures none { program.NONE ≡ kafka.NONE }
    ensures offset_out_of_range { program.OFFSET_OUT_OF_RANGE ≡ kafka.OFFSET_OUT_OF_RANGE }
    ensures corrupt_message { program.CORRUPT_MESSAGE ≡ kafka.CORRUPT_MESSAGE }
    ensures unknown_topic_or_partition { program.UNKNOWN_TOPIC_OR_PARTITION ≡ kafka.UNKNOWN_TOPIC_OR_PARTITION }
    ensures message_too_large { program.MESSAGE_TOO_LARGE ≡ kafka.MESSAGE_TOO_LARGE }
    ensures invalid_required_acks { program.INVALID_REQUIRED_ACKS ≡ kafka.INVALID_REQUIRED_ACKS }
    ensures invalid_group_id { program.INVALID_GROUP_ID ≡ kafka.INVALID_GROUP_ID }
    ensures unknown_member_id { program.UNKNOWN_MEMBER_ID ≡ kafka.UNKNOWN_MEMBER_ID }
    ensures unsupported_version { program.UNSUPPORTED_VERSION ≡ kafka.UNSUPPORTED_VERSION }
    ensures invalid_request { program.INVALID_REQUEST ≡ kafka.INVALID_REQUEST }
    ensures kafka_storage_error { program.KAFKA_STORAGE_ERROR ≡ kafka.KAFKA_STORAGE_ERROR }
    ensures fenced_leader_epoch { program.FENCED_LEADER_EPOCH ≡ kafka.FENCED_LEADER_EPOCH }
    ensures unsupported_compression_type { program.UNSUPPORTED_COMPRESSION_TYPE ≡ kafka.UNSUPPORTED_COMPRESSION_TYPE }
    ensures group_max_size_reached { program.GROUP_MAX_SIZE_REACHED ≡ kafka.GROUP_MAX_SIZE_REACHED }
    ensures invalid_record { program.INVALID_RECORD ≡ kafka.INVALID_RECORD }
    ensures unknown_topic_id { program.UNKNOWN_TOPIC_ID ≡ kafka.UNKNOWN_TOPIC_ID }
    ensures fenced_member_epoch { program.FENCED_MEMBER_EPOCH ≡ kafka.FENCED_MEMBER_EPOCH }
    ensures invalid_record_state { program.INVALID_RECORD_STATE ≡ kafka.INVALID_RECORD_STATE }
    ensures share_session_not_found { program.SHARE_SESSION_NOT_FOUND ≡ kafka.SHARE_SESSION_NOT_FOUND }
    ensures invalid_share_session_epoch { program.INVALID_SHARE_SESSION_EPOCH ≡ kafka.INVALID_SHARE_SESSION_EPOCH }
    ensures fenced_state_epoch { program.FENCED_STATE_EPOCH ≡ kafka.FENCED_STATE_EPOCH }
    ensures share_session_limit_reached { program.SHARE_SESSION_LIMIT_REACHED ≡ kafka.SHARE_SESSION_LIMIT_REACHED }
{}

/// Why a write to a store was refused.
#[derive(Clone, Copy, Debug)]
pub enum StoreFault {
    /// A device call failed. The write is then pending, or the one that was pending still is.
    Device,
    /// The journal, whose last gate ends at `end`, has no room for the frame below 2^62. Nothing was changed.
    Full { end: u64 },
}

/// Why bytes aren't a record batch of version 2 in the form that was asked for.
#[derive(Clone, Copy, Debug)]
pub enum BatchFault {
    /// It is longer than 1048588 bytes.
    TooLarge,
    /// It is shorter than a header, or its length field and its length disagree.
    Short,
    /// The magic byte isn't 2.
    BadMagic,
    /// The checksum doesn't agree with the bytes.
    BadCrc,
    /// The records are compressed.
    Compressed,
    /// The batch belongs to a transaction.
    Transactional,
    /// It is a control batch.
    Control,
    /// It has a producer id.
    HasProducer,
    /// The record with this index, counted from 0, isn't a record; it is the count of records where
    /// bytes follow the last one, and 0 where the count is negative.
    BadRecord { index: u32 },
    /// The offsets of its records aren't those that the form asks for.
    BadDeltas,
}

/// Why a log took no batch. The log is unchanged.
#[derive(Clone, Copy)]
pub enum LogFault {
    /// The bytes aren't a record batch in the form that was asked for.
    Batch(BatchFault),
    /// The batch begins below the log's end.
    Behind { end: u64 },
    /// It couldn't be stored. At `Full` either its last offset would be 2^62 or more, and `end` is the log's end; or
    /// the journal has no room.
    Store(StoreFault),
    /// There was no memory for it. Nothing was written.
    NoMemory,
}

/// Why bytes that stand on a disk were not given. What they were to be appended to has the bytes that it had.
#[derive(Clone, Copy, Debug)]
pub enum BatchRead {
    /// A device call failed.
    Device,
    /// There was no memory for the bytes.
    NoMemory,
}
