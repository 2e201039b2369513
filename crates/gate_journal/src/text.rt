// Reads journal text.
ghost use Rattle.std.specs.Prelude.{◌≡◌, ◌≢◌, ◌⊎◌, ◌+◌, ◌<◌, ◌≤◌, ◌^◌, ◌++◌};
ghost use Rattle.std.specs.Prelude.{List, ℕ, length, IfOk, IfErr, Err, MatchOption};
ghost use Rattle.std.specs.Int.{w32, to_be_bytes};
ghost use Rattle.std.specs.List.{AllByRecursion};
ghost use Rattle.gate_journal.specs.Frames.{StandsFor, IsFrame, IsBroken, IsDamaged, behind_gate, blocks};

use crate::opening::StartFault;
use share_model::Blob;
use std::alloc::{AllocError, Global};

const MAX_FRAME: usize = 33554432;

// The number of four bytes.
pub fn word(bytes: &[u8]) -> usize
    requires { length bytes.now ≡ 4 }
    ensures is { to_be_bytes w32 result ≡ bytes.now }
    ensures range { result < 2 ^ 32 }
{
    let mut four = [0; 4];
    four.copy_from_slice(bytes);
    u32::from_be_bytes(four) as usize
}

// The frame behind an open gate, and the bytes from the next gate on.
pub fn next_frame(behind: &[u8]) -> Option<(&[u8], &[u8])>
    ensures { MatchOption result (IsBroken behind.now)
        (λ x. IsFrame x.0.now × (0 < length x.1.now) × (behind.now ≡ behind_gate x.0.now ++ x.1.now)) }
{
    if behind.len() < 5 {
        return None;
    }
    let (head, tail) = behind.split_at(4);
    let len = word(head);
    if len == 0 || len > MAX_FRAME || tail.len() <= len {
        return None;
    }
    let (frame, after) = tail.split_at(len);
    Some((frame, after))
}

// A copy of these bytes.
fn copy_of(alloc: Global, bytes: &[u8]) -> Result<Blob, AllocError>
    ensures { IfOk result (λ b. b ≡ bytes.now) }
{
    let bytes = bytes.to_vec(alloc)?;
    Ok(Blob::new(bytes))
}

// The frames of a text, and the place behind its last gate.
pub fn read_text(alloc: Global, bytes: &[u8]) -> Result<(Vec<Blob>, u64), StartFault>
    requires { length bytes.now < 2 ^ 64 }
    ensures frames { IfOk result (λ x. StandsFor bytes.now x.0.items × AllByRecursion IsFrame x.0.items) }
    ensures end { IfOk result (λ x. x.1 ≡ length (blocks x.0.items) + 1) }
    ensures fits { IfOk result (λ x. length bytes.now ≤ 1 → x.1 ≡ 1) }
    ensures within { IfOk result (λ x. 1 < length bytes.now → x.1 ≤ length bytes.now) }
    ensures damaged { IfErr result (λ e. (place : ℕ) → e ≡ StartFault.Damaged place → IsDamaged bytes.now place) }
    ensures no_device { result ≢ Err StartFault.Device }
{
    let mut frames = Vec::new(alloc);
    if bytes.len() <= 1 {
        return Ok((frames, 1));
    }
    let mut rest = bytes;
    let mut place = 0;
    while let Some((gate, behind)) = rest.split_first() {
        if *gate != 1 {
            return Ok((frames, place + 1));
        }
        let Some((frame, after)) = next_frame(behind) else {
            return Err(StartFault::Damaged { place });
        };
        let Ok(copy) = copy_of(alloc, frame) else {
            return Err(StartFault::NoMemory);
        };
        if let Err(_) = frames.push(copy) {
            return Err(StartFault::NoMemory);
        }
        place += 5 + frame.len() as u64;
        rest = after;
    }
    unreachable!()
}

/// A content stands for one list of frames, or is damaged at one place, and not both.
pub fn journal_text_is_read_one_way()
    ensures either { (c : List ℕ) → ((frames : List (List ℕ)) × StandsFor c frames) ⊎ ((place : ℕ) × IsDamaged c place) }
    ensures frames { (c : List ℕ) (fs gs : List (List ℕ)) → StandsFor c fs → StandsFor c gs → fs ≡ gs }
    ensures damaged { (c : List ℕ) (fs : List (List ℕ)) (place : ℕ) → StandsFor c fs → IsDamaged c place → ⊥ }
    ensures place { (c : List ℕ) (p q : ℕ) → IsDamaged c p → IsDamaged c q → p ≡ q }
{}
