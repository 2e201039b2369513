// The snapshots of a checkpoint, handed over one by one.
ghost use Rattle.std.specs.Prelude.{◌≡◌, ◌<◌, List, ℕ, length, OnOk};
ghost use Rattle.gate_journal.specs.Frames.{frame_in};
ghost use Rattle.checkpoint_journal.specs.Checkpoints.{IsNext};

use share_model::NoMemory;

/// Who hands over the snapshots of a checkpoint: one of each key, in order.
pub trait Snapshots {
    /// The frames that are still to be handed over.
    ghost rest: { Self → List (List ℕ) };

    /// How many there are still.
    fn count(&self) -> u64
        ensures { result ≡ length (rest self.now) };

    /// Sets the buffer to the next one, behind four bytes of any value and before one.
    fn next(&mut self, buffer: &mut Vec<u8>) -> Result<(), NoMemory>
        requires { 0 < length (rest self.old) }
        ensures { OnOk result (IsNext (rest self.old) (frame_in buffer.new.items) (rest self.new)) };
}
