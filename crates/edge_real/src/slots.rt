// Which disks of a folder are out, and those that were put back.
ghost use Rattle.std.specs.Prelude.{◌≡◌, ◌≢◌, ◌<◌, ◌-◌};
ghost use Rattle.std.specs.Prelude.{ℕ, List, true, false, IfSome, OnOk, OnErr, length, slice_index_or};
ghost use Rattle.edge_real.specs.Folders.{slot_index, found, out_in, taken_in, AreNamed, Same, Takes, Leaves, Returns};
ghost use Rattle.edge_real.specs.declared.slots.Slot.{Slot};

use crate::file::FileDisk;
use crate::system::OpenedFile;
use edge_io::{Disk, DiskName};
use std::io;

/// A slot for the disk of a name: whether it is out, the disk where it was put back, and the count of faults with
/// which it was taken last.
#[derive(Drop)]
pub struct Slot<F> {
    pub name: DiskName,
    pub is_out: bool,
    pub disk: Option<FileDisk<F>>,
    pub count: u64,
}

// The number of the slot of that name, from 0 on.
fn position<F>(slots: &[Slot<F>], name: &[u8]) -> Option<usize>
    ensures at { result ≡ slot_index slots.now name.now }
    ensures within { IfSome result (λ n. n < length slots.now) }
{
    let Some((first, rest)) = slots.split_first() else {
        return None;
    };
    if first.name.as_bytes() == name {
        return Some(0);
    }
    match position(rest, name) {
        None => None,
        Some(n) => Some(n + 1),
    }
}

// The disk that is kept in a slot, where one is.
fn take_at<F: Drop>(slots: &mut Vec<Slot<F>>, at: usize) -> Option<FileDisk<F>>
    requires { at < length slots.old.items }
    ensures { (d : Slot F) → Takes slots.old.items at d result slots.new.items }
{
    slots[at].disk.take()
}

// Marks a slot as out, with the count of its disk.
fn leave_at<F: Drop>(slots: &mut Vec<Slot<F>>, at: usize, count: u64)
    requires { at < length slots.old.items }
    ensures { (d : Slot F) → Leaves slots.old.items at d count slots.new.items }
{
    let slot = &mut slots[at];
    slot.is_out = true;
    slot.count = count;
}

// A disk, where it has this name.
fn named<F: OpenedFile>(disk: FileDisk<F>, name: &DiskName) -> Option<FileDisk<F>>
    ensures { IfSome result (λ d. d.name ≡ name.now) }
{
    if disk.name().as_bytes() == name.as_bytes() {
        Some(disk)
    } else {
        None
    }
}

// Keeps a disk in a slot that isn't out any more, and answers how much its count rose.
fn return_at<F: OpenedFile>(slots: &mut Vec<Slot<F>>, at: usize, disk: FileDisk<F>) -> u64
    requires { at < length slots.old.items }
    ensures kept { (d : Slot F) → Returns slots.old.items at d slots.new.items }
    ensures rose { (d : Slot F) → result ≡ disk.faults - (slice_index_or slots.old.items at d).count }
{
    let slot = &mut slots[at];
    let rose = disk.faults().saturating_sub(slot.count);
    slot.is_out = false;
    slot.disk = named(disk, &slot.name);
    rose
}

/// The length of the disk of that name, where it was put back.
pub fn kept_len<F: OpenedFile>(slots: &[Slot<F>], name: &DiskName) -> Option<u64> {
    let slot = &slots[position(slots, name.as_bytes())?];
    match &slot.disk {
        Some(disk) => Some(disk.len()),
        None => None,
    }
}

/// The disk of that name, where it was put back. It is out of its slot then.
pub fn take_kept<F: Drop>(slots: &mut Vec<Slot<F>>, name: &DiskName) -> Option<FileDisk<F>>
    ensures is_named { AreNamed slots.old.items → IfSome result (λ d. d.name ≡ name.now) }
    ensures same { (m : List ℕ) → Same slots.old.items slots.new.items m }
    ensures named { AreNamed slots.old.items → AreNamed slots.new.items }
{
    match position(slots, name.as_bytes()) {
        None => None,
        Some(at) => take_at(slots, at),
    }
}

/// Marks the disk of that name as out, with its count. An error is want of memory.
pub fn set_out<F: Drop>(slots: &mut Vec<Slot<F>>, name: &DiskName, count: u64) -> io::Result<()>
    ensures ok { OnOk result ((out_in (found slots.new.items name.now) ≡ true) × (taken_in (found slots.new.items name.now) ≡ count)) }
    ensures err { OnErr result (Same slots.old.items slots.new.items name.now) }
    ensures others { (m : List ℕ) → m ≢ name.now → Same slots.old.items slots.new.items m }
    ensures named { AreNamed slots.old.items → AreNamed slots.new.items }
{
    if let Some(at) = position(slots, name.as_bytes()) {
        leave_at(slots, at, count);
        return Ok(());
    }
    slots.push(Slot {
        name: name.duplicate(),
        is_out: true,
        disk: None,
        count,
    })?;
    Ok(())
}

/// Keeps a disk under a name that was out, and answers how much its count of faults rose since. A disk of another
/// name is closed, and the file of this name is opened when it is taken next.
pub fn set_in<F: OpenedFile>(slots: &mut Vec<Slot<F>>, name: &DiskName, disk: FileDisk<F>) -> u64
    requires { out_in (found slots.old.items name.now) ≡ true }
    ensures is_in { out_in (found slots.new.items name.now) ≡ false }
    ensures taken { taken_in (found slots.new.items name.now) ≡ taken_in (found slots.old.items name.now) }
    ensures rose { result ≡ disk.faults - taken_in (found slots.old.items name.now) }
    ensures others { (m : List ℕ) → m ≢ name.now → Same slots.old.items slots.new.items m }
    ensures named { AreNamed slots.old.items → AreNamed slots.new.items }
{
    match position(slots, name.as_bytes()) {
        None => unreachable!(),
        Some(at) => return_at(slots, at, disk),
    }
}
