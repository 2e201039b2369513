// Openings of the shard of foreign state on its two disks.
ghost use Rattle.std.specs.Prelude.{◌≡◌, ◌≢◌, ◌⊎◌, List, ℕ, Bool, Some, IfOk, IfErr, MatchResult, false};
ghost use Rattle.edge_io.specs.declared.fault.Armed.TheVariants.{Nothing};
ghost use Rattle.edge_io.specs.Armed.{RunsOn};
ghost use Rattle.edge_io.specs.Causes.{Rose};
ghost use Rattle.edge_io.specs.Disk.{IsTold};
ghost use Rattle.share_model.specs.ForeignRules.{ShareStates};
ghost use Rattle.broker_model.specs.Machine.{StandForStates};
ghost use Rattle.broker_hosts.specs.Bays.{IsOfDevice};
ghost use Rattle.broker_hosts.specs.Carried.{AreFreshStates, GoesOn};
ghost use Rattle.broker_hosts.specs.Openings.{IsOpened, IsDamagedState, name_of, ImagesStandAs};

use crate::fault::{CoreOpen, fault_of_call};
use edge_io::{Disk, DiskName};
use foreign_coord::ForeignShard;
use share_coord::CoordOpen;
use std::alloc::Global;

// Why the store was not opened, where neither disk has found no memory.
fn fault_of_open(fault: CoordOpen) -> CoreOpen
    ensures no_bay { result ≢ CoreOpen.Bay }
    ensures device { result ≡ CoreOpen.Device → (second : Bool) × (fault ≡ CoordOpen.Device second) }
    ensures damaged { (name : List ℕ) (place : ℕ) → result ≡ CoreOpen.Damaged name place →
        (second : Bool) × (fault ≡ CoordOpen.Damaged second place) × (name ≡ name_of second) }
{
    match fault {
        CoordOpen::Damaged { second, place } => CoreOpen::Damaged {
            disk: if second {
                DiskName::foreign_state_b()
            } else {
                DiskName::foreign_state_a()
            },
            place,
        },
        CoordOpen::Device { .. } => CoreOpen::Device,
        CoordOpen::NoMemory => CoreOpen::NoMemory,
    }
}

/// Opens the shard on its two disks, which come back at an `Err`.
pub fn open_foreign<D: Disk>(
    alloc: Global,
    first: D,
    second: D,
) -> Result<ForeignShard<D>, (D, D, CoreOpen)>
    ensures opens { IfOk result (λ shard. (a b : List ℕ) → (D.seen first).content ≡ Some a → (D.seen second).content ≡ Some b →
        IsOpened D.seen first second a b shard) }
    ensures fresh { IfOk result (AreFreshStates D.seen) }
    // Contents that stand for states are opened, where memory is found and nothing is armed; and these states come.
    ensures recovers { (a b : List ℕ) (states : ShareStates) → (D.seen first).content ≡ Some a → (D.seen second).content ≡ Some b → StandForStates a b states →
        IfErr result (λ e. (name : List ℕ) (place : ℕ) → e.2 ≢ CoreOpen.Damaged name place) }
    ensures sound { IsTold (D.seen first).content → IsTold (D.seen second).content → (D.seen first).armed ≡ Nothing → (D.seen second).armed ≡ Nothing →
        IfErr result (λ e. e.2 ≢ CoreOpen.Device) }
    ensures damaged { IfErr result (λ e. (name : List ℕ) (place : ℕ) → e.2 ≡ CoreOpen.Damaged name place →
        (a b : List ℕ) → (D.seen first).content ≡ Some a → (D.seen second).content ≡ Some b → IsDamagedState a b name place) }
    ensures device { IfErr result (λ e. e.2 ≡ CoreOpen.Device → Rose (D.seen first).faults (D.seen e.0).faults ⊎ Rose (D.seen second).faults (D.seen e.1).faults) }
    ensures no_bay { IfErr result (λ e. e.2 ≢ CoreOpen.Bay) }
    ensures images { MatchResult result (λ new. ImagesStandAs D.seen first second new.journal.first.disk new.journal.second.disk)
        (λ e. ImagesStandAs D.seen first second e.0 e.1) }
    ensures runs { MatchResult result
        (λ new. RunsOn D.seen first new.journal.first.disk × RunsOn D.seen second new.journal.second.disk)
        (λ e. RunsOn D.seen first e.0 × RunsOn D.seen second e.1) }
    ensures fed { IfErr result (λ e. IsOfDevice e.2 → ((D.seen e.0).starved ≡ false) × ((D.seen e.1).starved ≡ false)) }
    ensures first { MatchResult result (λ new. GoesOn D.seen first new.journal.first.disk) (λ e. GoesOn D.seen first e.0) }
    ensures second { MatchResult result (λ new. GoesOn D.seen second new.journal.second.disk) (λ e. GoesOn D.seen second e.1) }
{
    match ForeignShard::open(alloc, first, second) {
        Ok(shard) => {
            if shard.starved() {
                let (first, second) = shard.into_disks();
                return Err((first, second, CoreOpen::NoMemory));
            }
            Ok(shard)
        }
        Err((first, second, fault)) => {
            if first.starved() || second.starved() {
                return Err((first, second, CoreOpen::NoMemory));
            }
            Err((first, second, fault_of_open(fault)))
        }
    }
}
