// How many bytes a record has.
ghost use Rattle.std.specs.Prelude.{◌≡◌, ◌≤◌, length};
ghost use Rattle.state_records.specs.Spelling.{complete_bytes, key_bytes, state_bytes, record_bytes};
ghost use Rattle.state_records.specs.declared.record.StateRecord.TheVariants.{Snapshot as snapshot_record, Update as update_record};

use crate::lent::LentState;
use crate::record::StateRecord;
use share_model::Key;
use uuid::Uuid;

fn sixteen(bytes: [u8; 16]) -> usize
    ensures len { result ≡ length bytes }
    ensures is { length bytes ≡ 16 }
{
    bytes.len()
}

fn topic_len(topic: &Uuid) -> u64
    ensures len { result ≡ length topic.now }
    ensures few { result ≤ 16 }
{
    sixteen(*topic.as_bytes()) as u64
}

#[tactic(auto, using(crate::proofs::Sizes::key_length))]
fn key_len(key: &Key) -> u64
    ensures len { result ≡ length (key_bytes key.now) }
    ensures few { result ≤ 277 }
{
    key.group.as_bytes().len() as u64 + topic_len(&key.topic) + 6
}

fn complete_len(complete: Option<u64>) -> u64
    ensures len { result ≡ length (complete_bytes complete) }
    ensures few { result ≤ 8 }
{
    match complete {
        None => 0,
        Some(_) => 8,
    }
}

// Beside the key, the number of complete rows and the runs there are 28 bytes of numbers, and a run has 19.
fn state_len(state: &LentState<'_>) -> u64
    ensures len { result ≡ length (state_bytes state.now) }
    ensures fits { result ≤ 100000000000 }
{
    key_len(state.key) + 28 + complete_len(state.complete) + 19 * state.runs.len() as u64
}

impl LentState<'_> {
    /// The number of bytes of its snapshot, which is that of its update.
    pub fn record_len(&self) -> u64
        ensures snapshot { result ≡ length (record_bytes (snapshot_record self.now)) }
        ensures update { result ≡ length (record_bytes (update_record self.now)) }
    {
        2 + state_len(self)
    }
}

/// The number of bytes of a record.
pub fn record_len(record: &StateRecord) -> u64
    ensures { result ≡ length (record_bytes «record».now) }
{
    match record {
        StateRecord::Snapshot(state) => state.lend().record_len(),
        StateRecord::Update(state) => state.lend().record_len(),
        StateRecord::Removal { key } => 2 + key_len(key),
        StateRecord::Head { .. } => 10,
        StateRecord::Seal => 2,
    }
}
