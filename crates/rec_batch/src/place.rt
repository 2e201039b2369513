ghost use Rattle.std.specs.Prelude.{◌≡◌, ◌≤◌, ◌<◌, ◌^◌, ◌+ℤ◌, ◌<ℤ◌, pos, length, List};
ghost use Rattle.rec_batch.specs.Fields.{last_offset_delta};
ghost use Rattle.rec_batch.specs.Grammar.{Record};
ghost use Rattle.rec_batch.specs.Batches.{IsBatch};
ghost use Rattle.rec_batch.specs.Placing.{placed};

use crate::form::Form;

#[tactic(auto, unfolding(crate::specs::Placing::placed))]
fn set_place(bytes: &mut [u8], base: u64)
    requires { 61 ≤ length bytes.old }
    ensures { bytes.new ≡ placed base bytes.old }
{
    let (offset, behind) = bytes.split_at_mut(8);
    offset.copy_from_slice(&base.to_be_bytes());
    let (_, behind) = behind.split_at_mut(4);
    let (epoch, _) = behind.split_at_mut(4);
    epoch.copy_from_slice(&[0; 4]);
}

/// Gives a batch of at least 61 bytes its place in a log: sets its base offset, which is below 2^62,
/// and its leader epoch to 0.
///
/// The checksum is over neither field, so it stands as it is.
pub fn place_batch(bytes: &mut [u8], base: u64)
    requires size { 61 ≤ length bytes.old }
    requires below { base < 2 ^ 62 }
    ensures value { bytes.new ≡ placed base bytes.old }
    // A batch whose last offset is below 2^62 is one that a log keeps, with the same records.
    ensures stands { (form : Form) (records : List Record) → IsBatch form bytes.old records
        → (pos base +ℤ last_offset_delta bytes.old) <ℤ pos (2 ^ 62)
        → IsBatch Form.Stored bytes.new records }
{
    set_place(bytes, base);
}
