// Why a broker's disks were not opened.
ghost use Rattle.std.specs.Prelude.{◌≡◌, ◌⊎◌, true, false};

use edge_io::{Disk, DiskName};

/// Why a broker was not opened.
#[derive(Drop)]
pub enum CoreOpen {
    /// The content of this disk isn't store text: this byte, counted from 0, is the first that the format doesn't
    /// allow.
    Damaged { disk: DiskName, place: u64 },
    /// A call of a disk failed.
    Device,
    /// The bay gave no disk.
    Bay,
    /// There was no memory.
    NoMemory,
}

/// Why a call of a disk failed.
pub fn fault_of_call<D: Disk>(disk: &D) -> CoreOpen
    ensures device { result ≡ CoreOpen.Device → (D.seen disk.now).starved ≡ false }
    ensures memory { (D.seen disk.now).starved ≡ true → result ≡ CoreOpen.NoMemory }
    ensures only { (result ≡ CoreOpen.Device) ⊎ (result ≡ CoreOpen.NoMemory) }
{
    if disk.starved() {
        CoreOpen::NoMemory
    } else {
        CoreOpen::Device
    }
}
