// Openings of the shard of a hosted partition on its three disks.
ghost use Rattle.std.specs.Prelude.{◌≡◌, ◌≢◌, ◌⊎◌, List, ℕ, false, Some, IfOk, IfErr, MatchResult};
ghost use Rattle.edge_io.specs.declared.fault.Armed.TheVariants.{Nothing};
ghost use Rattle.edge_io.specs.declared.name.DiskPlace.{DiskPlace};
ghost use Rattle.edge_io.specs.Causes.{Rose};
ghost use Rattle.edge_io.specs.Disk.{IsTold};
ghost use Rattle.edge_io.specs.Names.{IsTopicName, hosted_name};
ghost use Rattle.share_model.specs.ForeignRules.{ShareStates};
ghost use Rattle.part_log.specs.Starts.{Log};
ghost use Rattle.share_part.specs.Hosting.{ArePartText};
ghost use Rattle.broker_hosts.specs.Bays.{AreFed, IsOfDevice};
ghost use Rattle.broker_hosts.specs.Carried.{GoesOn, IsFresh};
ghost use Rattle.broker_hosts.specs.Openings.{IsOpenedPart, IsDamagedPart, PartImagesStandAs, PartRunsOn};

use crate::fault::CoreOpen;
use crate::names::disk_name;
use edge_io::Disk;
use share_model::Name;
use share_part::{PartConf, PartFault, PartShard};
use std::alloc::Global;
use window_runs::WindowRuns;

// Why a partition was not opened, where none of its disks has found no memory.
fn fault_of_open(topic: &Name, conf: &PartConf, fault: PartFault) -> CoreOpen
    requires { IsTopicName topic.now }
    ensures no_bay { result ≢ CoreOpen.Bay }
    ensures device { result ≡ CoreOpen.Device → (disk : DiskPlace) × (fault ≡ PartFault.Device disk) }
    ensures damaged { (name : List ℕ) (place : ℕ) → result ≡ CoreOpen.Damaged name place →
        (disk : DiskPlace) × (fault ≡ PartFault.Damaged disk place) × (name ≡ hosted_name topic.now conf.now.part disk) }
{
    match fault {
        PartFault::Damaged { disk, place } => CoreOpen::Damaged {
            disk: disk_name(topic, conf, disk),
            place,
        },
        PartFault::Device { .. } => CoreOpen::Device,
        PartFault::NoMemory => CoreOpen::NoMemory,
    }
}

// Whether one of three disks has found no memory.
fn one_starved<D: Disk>(disks: &(D, D, D)) -> bool
    ensures { result ≡ false → ((D.seen disks.now.0).starved ≡ false) × ((D.seen disks.now.1).starved ≡ false) × ((D.seen disks.now.2).starved ≡ false) }
{
    disks.0.starved() || disks.1.starved() || disks.2.starved()
}

/// Opens the partition of a topic on its disks, which come back at an `Err`: that of its log, and the two of its
/// states.
pub fn open_part<D: Disk>(
    alloc: Global,
    topic: &Name,
    conf: PartConf,
    disks: (D, D, D),
) -> Result<PartShard<D, WindowRuns>, ((D, D, D), CoreOpen)>
    requires { IsTopicName topic.now }
    ensures opens { IfOk result (λ part. (l a b : List ℕ) → (D.seen disks.0).content ≡ Some l → (D.seen disks.1).content ≡ Some a → (D.seen disks.2).content ≡ Some b →
        IsOpenedPart D.seen conf disks.0 disks.1 disks.2 l a b part) }
    ensures fresh { IfOk result (IsFresh D.seen) }
    // Contents that stand for a log and tables are opened, where memory is found and nothing is armed; and these come.
    ensures recovers { (l a b : List ℕ) (log : Log) (states : ShareStates) → (D.seen disks.0).content ≡ Some l → (D.seen disks.1).content ≡ Some a →
        (D.seen disks.2).content ≡ Some b → ArePartText conf l a b log states →
        IfErr result (λ e. (name : List ℕ) (place : ℕ) → e.1 ≢ CoreOpen.Damaged name place) }
    ensures sound { IsTold (D.seen disks.0).content → IsTold (D.seen disks.1).content → IsTold (D.seen disks.2).content →
        (D.seen disks.0).armed ≡ Nothing → (D.seen disks.1).armed ≡ Nothing → (D.seen disks.2).armed ≡ Nothing → IfErr result (λ e. e.1 ≢ CoreOpen.Device) }
    ensures damaged { IfErr result (λ e. (name : List ℕ) (place : ℕ) → e.1 ≡ CoreOpen.Damaged name place →
        (l a b : List ℕ) → (D.seen disks.0).content ≡ Some l → (D.seen disks.1).content ≡ Some a → (D.seen disks.2).content ≡ Some b →
        IsDamagedPart (record { topic = topic.now; conf = conf }) l a b name place) }
    ensures device { IfErr result (λ e. e.1 ≡ CoreOpen.Device →
        Rose (D.seen disks.0).faults (D.seen e.0.0).faults ⊎ (Rose (D.seen disks.1).faults (D.seen e.0.1).faults ⊎ Rose (D.seen disks.2).faults (D.seen e.0.2).faults)) }
    ensures no_bay { IfErr result (λ e. e.1 ≢ CoreOpen.Bay) }
    ensures images { MatchResult result
        (λ part. PartImagesStandAs D.seen disks.0 disks.1 disks.2 part.log.journal.disk part.states.journal.first.disk part.states.journal.second.disk)
        (λ e. PartImagesStandAs D.seen disks.0 disks.1 disks.2 e.0.0 e.0.1 e.0.2) }
    ensures runs { MatchResult result
        (λ part. PartRunsOn D.seen disks.0 disks.1 disks.2 part.log.journal.disk part.states.journal.first.disk part.states.journal.second.disk)
        (λ e. PartRunsOn D.seen disks.0 disks.1 disks.2 e.0.0 e.0.1 e.0.2) }
    ensures fed { MatchResult result
        (λ part. AreFed D.seen part.log.journal.disk part.states.journal.first.disk part.states.journal.second.disk)
        (λ e. IsOfDevice e.1 → AreFed D.seen e.0.0 e.0.1 e.0.2) }
    ensures log { MatchResult result (λ part. GoesOn D.seen disks.0 part.log.journal.disk)
        (λ e. GoesOn D.seen disks.0 e.0.0) }
    ensures first { MatchResult result (λ part. GoesOn D.seen disks.1 part.states.journal.first.disk)
        (λ e. GoesOn D.seen disks.1 e.0.1) }
    ensures second { MatchResult result (λ part. GoesOn D.seen disks.2 part.states.journal.second.disk)
        (λ e. GoesOn D.seen disks.2 e.0.2) }
{
    match PartShard::open(alloc, disks, conf) {
        Ok(part) => {
            if part.starved() {
                return Err((part.into_disks(), CoreOpen::NoMemory));
            }
            Ok(part)
        }
        Err(refused) => {
            if one_starved(&refused.disks) {
                return Err((refused.disks, CoreOpen::NoMemory));
            }
            let fault = fault_of_open(topic, &conf, refused.fault);
            Err((refused.disks, fault))
        }
    }
}
