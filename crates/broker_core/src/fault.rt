ghost use Rattle.std.specs.Prelude.{◌≡◌, ◌≢◌, ◌⊎◌, List, ℕ, IfErr, OnOk, OnErr};
ghost use Rattle.edge_io.specs.Causes.{Rose};
ghost use Rattle.edge_io.specs.Disk.{IsTold, Within};
ghost use Rattle.broker_hosts.specs.Carried.{GoesOn};
ghost use Rattle.broker_core.specs.Restarts.{IsLost};
ghost use Rattle.broker_core.specs.Causes.{no_memory};

use broker_hosts::{CoreOpen, fault_of_call};
use edge_io::Disk;
use share_model::NoMemory;

/// Why an event was not done. No event may follow it.
#[derive(Drop)]
pub enum CoreFault {
    /// After a power loss the broker was not opened again. It is never `Bay` or `NoMemory`.
    Reopen(CoreOpen),
    /// There was no memory.
    NoMemory,
}

impl From<NoMemory> for CoreFault {
    ghost from_gives = { λ _ e. e ≡ no_memory };

    fn from(_: NoMemory) -> CoreFault {
        CoreFault::NoMemory
    }
}

/// Loses the power of a disk.
pub fn lose<D: Disk>(choice: u64, disk: &mut D) -> Result<(), CoreOpen>
    ensures lost { OnOk result (IsTold (D.seen disk.old).content →
        (c : List ℕ) × IsLost D.seen choice disk.old disk.new c) }
    ensures images { Within (D.seen disk.old).image (D.seen disk.new).image }
    ensures memory { IsTold (D.seen disk.old).content → IfErr result (λ e. e ≡ CoreOpen.NoMemory) }
    ensures only { IfErr result (λ e. (e ≡ CoreOpen.Device) ⊎ (e ≡ CoreOpen.NoMemory)) }
    ensures device { OnErr result (Rose (D.seen disk.old).faults (D.seen disk.new).faults) }
    ensures goes { GoesOn D.seen disk.old disk.new }
{
    match disk.power_loss(choice) {
        Ok(()) => Ok(()),
        Err(_) => Err(fault_of_call(disk)),
    }
}

/// Why a shard was not opened again. Want of memory is told as such, also where it came in a restart.
pub fn told(fault: CoreOpen) -> CoreFault
    ensures reopen { (f : CoreOpen) → result ≡ CoreFault.Reopen f → (f ≡ fault) × (f ≢ CoreOpen.NoMemory) }
    ensures memory { fault ≡ CoreOpen.NoMemory → result ≡ CoreFault.NoMemory }
{
    match fault {
        CoreOpen::NoMemory => CoreFault::NoMemory,
        fault => CoreFault::Reopen(fault),
    }
}
