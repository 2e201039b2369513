ghost use Rattle.std.specs.Prelude.{◌≡◌};
ghost use Rattle.share_part.specs.Faults.{fault_of_log, fault_of_states, state_disk};

use edge_io::{Disk, DiskPlace};
use part_log::OpenFault;
use share_coord::CoordOpen;
use thiserror::Error;

/// Why the shard of a partition was not opened. The log's disk is opened first, then the two of the states.
#[derive(Clone, Copy, Debug, Error)]
pub enum PartFault {
    /// The content of a disk stands for no log, or for no states. States that break the rules on a hosted partition
    /// are told of the first state disk and place 0.
    #[error("a disk of the partition is damaged at byte {place}")]
    Damaged { disk: DiskPlace, place: u64 },
    /// A disk failed.
    #[error("a disk of the partition failed")]
    Device { disk: DiskPlace },
    /// There was no memory.
    #[error("out of memory")]
    NoMemory,
}

/// The disks of a partition that was not opened, in the order in which they were handed in, and why.
#[derive(Drop)]
pub struct PartOpen<D: Disk> {
    pub disks: (D, D, D),
    pub fault: PartFault,
}

/// The log was not opened.
pub(crate) fn fault_of_log(fault: OpenFault) -> PartFault
    ensures { result ≡ fault_of_log fault }
{
    match fault {
        OpenFault::Damaged { place } => PartFault::Damaged {
            disk: DiskPlace::Log,
            place,
        },
        OpenFault::Device => PartFault::Device {
            disk: DiskPlace::Log,
        },
        OpenFault::NoMemory => PartFault::NoMemory,
    }
}

fn state_disk(second: bool) -> DiskPlace
    ensures { result ≡ state_disk second }
{
    if second {
        DiskPlace::StateB
    } else {
        DiskPlace::StateA
    }
}

/// The states were not opened.
pub(crate) fn fault_of_states(fault: CoordOpen) -> PartFault
    ensures { result ≡ fault_of_states fault }
{
    match fault {
        CoordOpen::Damaged { second, place } => PartFault::Damaged {
            disk: state_disk(second),
            place,
        },
        CoordOpen::Device { second } => PartFault::Device {
            disk: state_disk(second),
        },
        CoordOpen::NoMemory => PartFault::NoMemory,
    }
}
