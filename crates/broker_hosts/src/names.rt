// The names of a hosted partition's disks.
ghost use Rattle.std.specs.Prelude.{◌≡◌};
ghost use Rattle.edge_io.specs.Names.{IsTopicName, hosted_name};
ghost use Rattle.edge_io.specs.declared.name.DiskPlace.TheVariants.{Log, StateA, StateB};

use edge_io::{DiskName, DiskPlace};
use share_model::Name;
use share_part::PartConf;

/// The name of a disk of a hosted partition. It takes no memory.
pub fn disk_name(topic: &Name, conf: &PartConf, place: DiskPlace) -> DiskName
    requires { IsTopicName topic.now }
    ensures { result ≡ hosted_name topic.now conf.now.part place }
{
    match DiskName::hosted(topic.as_bytes(), conf.part(), place) {
        Some(name) => name,
        None => unreachable!(),
    }
}

/// The names of a partition's disks: that of its log, and the two of its states.
#[derive(Drop)]
pub struct PartNames {
    pub log: DiskName,
    pub first: DiskName,
    pub second: DiskName,
}

/// The names of the disks of a hosted partition.
pub fn names_of(topic: &Name, conf: &PartConf) -> PartNames
    requires { IsTopicName topic.now }
    ensures log { result.log ≡ hosted_name topic.now conf.now.part Log }
    ensures first { result.first ≡ hosted_name topic.now conf.now.part StateA }
    ensures second { result.second ≡ hosted_name topic.now conf.now.part StateB }
{
    PartNames {
        log: disk_name(topic, conf, DiskPlace::Log),
        first: disk_name(topic, conf, DiskPlace::StateA),
        second: disk_name(topic, conf, DiskPlace::StateB),
    }
}
