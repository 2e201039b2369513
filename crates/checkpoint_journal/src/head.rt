// The frames that begin and end a checkpoint, each in the buffer of an append.
ghost use Rattle.std.specs.Prelude.{◌≡◌};
ghost use Rattle.gate_journal.specs.Frames.{frame_in};
ghost use Rattle.checkpoint_journal.specs.Generations.{head_frame, seal_frame};

// The head of this generation.
pub(crate) fn head_buffer(generation: u64) -> [u8; 15]
    ensures { frame_in result ≡ head_frame generation }
{
    let n = generation.to_be_bytes();
    [
        0, 0, 0, 0, 3, 0, n[0], n[1], n[2], n[3], n[4], n[5], n[6], n[7], 0,
    ]
}

// The seal.
pub(crate) fn seal_buffer() -> [u8; 7]
    ensures { frame_in result ≡ seal_frame }
{
    [0, 0, 0, 0, 4, 0, 0]
}
