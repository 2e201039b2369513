// Reads one frame.
ghost use Rattle.std.specs.Prelude.{◌≡◌, ◌≢◌, ◌+◌, ◌-◌, ◌≤◌, ◌<◌, ◌^◌, ◌++◌, List, ℕ, length, Some, IfOk, OnOk, OnErr, Err};
ghost use Rattle.std.specs.Prelude.{vec_len, vec_capacity, take, drop};
ghost use Rattle.edge_io.specs.Armed.{RunsOn};
ghost use Rattle.edge_io.specs.Causes.{HasCause, Rose};
ghost use Rattle.edge_io.specs.Counting.{DoesCalls, DoesUpTo, FailsInCalls, MakesUpTo};
ghost use Rattle.edge_io.specs.Disk.{WhereTold};
ghost use Rattle.gate_journal.specs.Reading.{ExtendsWithin, IsFrameIn, LooksAt};

use crate::text::word;
use edge_io::{Disk, Failed};
use share_model::BatchRead;

// The length of the frame whose gate stands at a place.
fn frame_len<D: Disk>(disk: &mut D, place: u64) -> Result<usize, Failed>
    requires within { place + 5 ≤ (D.seen disk.old).size }
    requires fits { place + 5 < 2 ^ 64 }
    ensures is { IfOk result (λ n. (c frame : List ℕ) → (D.seen disk.old).content ≡ Some c → IsFrameIn c place frame → n ≡ length frame) }
    ensures looks { LooksAt D.seen disk.old disk.new }
    ensures runs { RunsOn D.seen disk.old disk.new }
    ensures calls { OnOk result (DoesCalls D.seen 1 disk.old disk.new) }
    ensures fails { OnErr result (FailsInCalls D.seen 1 disk.old disk.new) }
    ensures cause { HasCause (D.seen disk.old).faults (D.seen disk.new).faults result }
{
    let mut head = [0; 4];
    disk.read_at(place + 1, &mut head)?;
    Ok(word(&head))
}

// Appends so many bytes that stand at a place.
pub fn append_at<D: Disk>(
    disk: &mut D,
    place: u64,
    len: usize,
    out: &mut Vec<u8>,
) -> Result<(), BatchRead>
    requires { place + len ≤ (D.seen disk.old).size }
    ensures ok { OnOk result (WhereTold (D.seen disk.old).content (λ c. out.new.items ≡ out.old.items ++ take len (drop place c))) }
    ensures err { OnErr result (out.new.items ≡ out.old.items) }
    ensures spare { OnErr result (vec_capacity out.old - vec_len out.old ≤ vec_capacity out.new - vec_len out.new) }
    ensures less { OnOk result (vec_capacity out.old - vec_len out.old ≤ vec_capacity out.new - vec_len out.new + len) }
    ensures extends { OnOk result (ExtendsWithin len out.old.items out.new.items) }
    ensures len { OnOk result (length out.new.items ≡ length out.old.items + len) }
    ensures spared { len ≤ vec_capacity out.old - vec_len out.old → result ≢ Err BatchRead.NoMemory }
    ensures looks { LooksAt D.seen disk.old disk.new }
    ensures disk { MakesUpTo D.seen 1 disk.old disk.new (result ≡ Err BatchRead.Device) }
{
    let before = out.len();
    if let Err(_) = out.reserve(len) {
        return Err(BatchRead::NoMemory);
    }
    if let Err(_) = out.resize(before + len, 0) {
        return Err(BatchRead::NoMemory);
    }
    if let Err(_) = disk.read_at(place, &mut out[before..]) {
        out.truncate(before);
        return Err(BatchRead::Device);
    }
    Ok(())
}

// Appends the frame whose gate stands at a place, but at most so many bytes.
pub fn append_frame<D: Disk>(
    disk: &mut D,
    place: u64,
    most: usize,
    out: &mut Vec<u8>,
) -> Result<(), BatchRead>
    requires within { place + 5 + most ≤ (D.seen disk.old).size }
    requires fits { place + 5 < 2 ^ 64 }
    ensures ok { OnOk result ((c frame : List ℕ) → (D.seen disk.old).content ≡ Some c → IsFrameIn c place frame → length frame ≤ most →
        (out.new.items ≡ out.old.items ++ frame)
        × (vec_capacity out.old - vec_len out.old ≤ vec_capacity out.new - vec_len out.new + length frame)) }
    ensures extends { OnOk result (ExtendsWithin most out.old.items out.new.items) }
    ensures less { OnOk result (vec_capacity out.old - vec_len out.old ≤ vec_capacity out.new - vec_len out.new + most) }
    ensures err { OnErr result ((out.new.items ≡ out.old.items) × (vec_capacity out.old - vec_len out.old ≤ vec_capacity out.new - vec_len out.new)) }
    ensures spared { (c frame : List ℕ) → (D.seen disk.old).content ≡ Some c → IsFrameIn c place frame →
        length frame ≤ vec_capacity out.old - vec_len out.old → result ≢ Err BatchRead.NoMemory }
    ensures roomy { most ≤ vec_capacity out.old - vec_len out.old → result ≢ Err BatchRead.NoMemory }
    ensures looks { LooksAt D.seen disk.old disk.new }
    ensures disk { MakesUpTo D.seen 2 disk.old disk.new (result ≡ Err BatchRead.Device) }
{
    let Ok(len) = frame_len(disk, place) else {
        return Err(BatchRead::Device);
    };
    append_at(disk, place + 5, len.min(most), out)
}
