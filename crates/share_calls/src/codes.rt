// The error codes of share requests.
ghost use Rattle.std.specs.Prelude.{◌≡◌};
ghost use Rattle.share_calls.specs.Codes.{ack_code, then_code, fetch_code, unhosted_code};

use share_model::{AckOutcome, Code, ThenOutcome};
use share_session::Purpose;
use topic_conf::Config;
use uuid::Uuid;

/// The code of a partition's acknowledgements.
pub fn ack_code(outcome: AckOutcome) -> Code
    ensures { result ≡ ack_code outcome }
{
    match outcome {
        AckOutcome::Done => Code::NONE,
        AckOutcome::Malformed(_) => Code::INVALID_REQUEST,
        AckOutcome::NotHeld { .. } => Code::INVALID_RECORD_STATE,
        AckOutcome::Store(_) => Code::KAFKA_STORAGE_ERROR,
    }
}

// The code of a fetch behind them.
fn then_code(outcome: ThenOutcome) -> Code
    ensures { result ≡ then_code outcome }
{
    match outcome {
        ThenOutcome::Done => Code::NONE,
        ThenOutcome::Store(_) => Code::KAFKA_STORAGE_ERROR,
    }
}

/// The error code of a visit. A release that couldn't be stored isn't told by the reply.
pub fn fetch_code(purpose: Purpose, outcome: ThenOutcome) -> Code
    ensures { result ≡ fetch_code purpose outcome }
{
    match purpose {
        Purpose::Fetch => then_code(outcome),
        Purpose::Nothing | Purpose::Release => Code::NONE,
    }
}

/// The code of a partition that isn't hosted, by its topic.
pub fn unhosted_code(conf: &Config, topic_id: Uuid) -> Code
    ensures { result ≡ unhosted_code conf.now.topics topic_id }
{
    if conf.by_id(topic_id).is_some() {
        Code::UNKNOWN_TOPIC_OR_PARTITION
    } else {
        Code::UNKNOWN_TOPIC_ID
    }
}
