// The loading of a segment into the log of one partition.
ghost use Rattle.std.specs.Prelude.{◌≡◌, ◌≢◌, ◌≤◌, ◌<◌, None, All, List, ℕ, MatchOption, Err, false};
ghost use Rattle.edge_io.specs.Armed.{RunsOn};
ghost use Rattle.edge_io.specs.Bays.{SameSlot};
ghost use Rattle.edge_io.specs.Causes.{Rose};
ghost use Rattle.session_script.specs.Output.{malformed_line};
ghost use Rattle.session_script.specs.Writing.{WritesText};
ghost use Rattle.edge_io.specs.Names.{most_partitions};
ghost use Rattle.share_model.specs.Logs.{Batch};
ghost use Rattle.part_log.specs.Logs.{Keeps};
ghost use Rattle.topic_conf.specs.Topics.{IsTopic, partitions};
ghost use Rattle.share_top.specs.Apart.{RunsDisk};
ghost use Rattle.share_top.specs.Changes.{bay_change, input_change, output_change};
ghost use Rattle.share_top.specs.Loading.{IsLoad, IsLoaded, IsLogDisk, LoadsSegment, NoneIsOut, loaded_line};
ghost use Rattle.share_top.specs.Segments.{HasOneReading};
ghost use Rattle.share_top.specs.Loads.{FailsFed, LacksRoom, LoadsNext, LoadsAll, IsGrown, IsLogRefusal, stop_by};

use crate::segment::{Front, SegmentFault, SegmentReader};
use crate::status::Status;
use edge_io::{Bay, Disk, DiskName, DiskPlace, Sink, Source, write_all};
use part_log::{OpenFault, PartLog};
use session_script::{LineFault, write_damaged, write_malformed};
use share_model::{LogFault, StoreFault};
use std::alloc::Global;
use topic_conf::{Config, Topic};

/// Why a segment was not loaded to its end.
#[derive(Clone, Copy)]
pub enum Stop {
    /// No batch that may stand behind the log begins at this place.
    Refused { place: u64 },
    /// The input failed.
    Read,
    /// The log has no room.
    Full,
    /// The disk failed.
    Device,
    /// No memory was found.
    NoMemory,
}

// Why the log took no batch that stands at this place.
fn stop_of(fault: LogFault, place: u64, starved: bool) -> Stop
    ensures { result ≡ stop_by fault place starved }
{
    match fault {
        LogFault::Batch(_) => Stop::Refused { place },
        LogFault::Behind { .. } => Stop::Refused { place },
        LogFault::Store(StoreFault::Device) => {
            if starved {
                return Stop::NoMemory;
            }
            Stop::Device
        }
        LogFault::Store(StoreFault::Full { .. }) => Stop::Full,
        LogFault::NoMemory => Stop::NoMemory,
    }
}

// Adds the batch at the front of the segment to the log. False where the segment has ended.
fn load_next<D: Disk, I: Source>(
    reader: &mut SegmentReader,
    log: &mut PartLog<D>,
    input: &mut I,
) -> Result<bool, Stop>
    ensures loads { LoadsNext D.seen log.old log.new reader.old reader.new
        (input_change I.left I.ended I.faults input.old input.new) result }
    ensures fed { result ≡ Err Stop.Device → (D.seen log.new.journal.disk).starved ≡ false }
    ensures later { I.faults input.old ≤ I.faults input.new }
    ensures runs { RunsOn D.seen log.old.journal.disk log.new.journal.disk }
{
    let size = match reader.front(input) {
        Ok(Front::Batch { size }) => size,
        Ok(Front::End) => return Ok(false),
        Err(SegmentFault::Refused) => {
            return Err(Stop::Refused {
                place: reader.place(),
            });
        }
        Err(SegmentFault::Read) => return Err(Stop::Read),
        Err(SegmentFault::NoMemory) => return Err(Stop::NoMemory),
    };
    match log.load(reader.first(size)) {
        Ok(_) => {
            reader.skip(size);
            Ok(true)
        }
        Err(fault) => Err(stop_of(fault, reader.place(), log.starved())),
    }
}

// Adds the batches of the segment to the log, one after another.
fn load_all<D: Disk, I: Source>(
    alloc: Global,
    log: &mut PartLog<D>,
    input: &mut I,
) -> Result<(), Stop>
    requires { Keeps D.seen log.old None }
    ensures loads { LoadsAll (input_change I.left I.ended I.faults input.old input.new) (IsGrown D.seen log.old log.new)
        (LacksRoom log.old) (Rose (D.seen log.old.journal.disk).faults (D.seen log.new.journal.disk).faults) result }
    ensures fed { result ≡ Err Stop.Device → (D.seen log.new.journal.disk).starved ≡ false }
    ensures runs { RunsOn D.seen log.old.journal.disk log.new.journal.disk }
{
    let mut reader = SegmentReader::new(alloc);
    'batches: loop {
        match load_next(&mut reader, log, input) {
            Ok(true) => {}
            Ok(false) => return Ok(()),
            Err(stop) => return Err(stop),
        }
    }
}

// Writes the line that tells how many batches were added, and where the log ends.
fn write_loaded<O: Sink>(
    alloc: Global,
    count: u64,
    end: u64,
    output: &mut O,
) -> Result<(), LineFault>
    ensures { WritesText (O.held output.old) (O.held output.new) (O.faults output.old) (O.faults output.new) (loaded_line count end) result }
{
    let text = format!(in alloc; "loaded {count} {end}\n")?;
    match write_all(output, text.as_bytes()) {
        Ok(()) => Ok(()),
        Err(_) => Err(LineFault::Write),
    }
}

// Loads a segment into a log, and tells what came of it. `starved` says that the bay of its disk has found no memory.
fn load_into<D: Disk, I: Source, O: Sink>(
    alloc: Global,
    log: &mut PartLog<D>,
    starved: bool,
    input: &mut I,
    output: &mut O,
) -> Status
    requires { Keeps D.seen log.old None }
    ensures loaded { IsLoaded (input_change I.left I.ended I.faults input.old input.new) (output_change O.held O.faults output.old output.new)
        (IsGrown D.seen log.old log.new) (LacksRoom log.old) (FailsFed D.seen starved log.old.journal.disk log.new.journal.disk) result }
    ensures counted { result ≢ Status.WriteFault → O.faults output.new ≡ O.faults output.old }
    ensures runs { RunsOn D.seen log.old.journal.disk log.new.journal.disk }
{
    let before = log.len();
    match load_all(alloc, log, input) {
        Ok(()) => match write_loaded(alloc, log.len() - before, log.end(), output) {
            Ok(()) => Status::Done,
            Err(LineFault::Write) => Status::WriteFault,
            Err(LineFault::NoMemory) => Status::NoMemory,
        },
        Err(stop) => match stop {
            Stop::Refused { place } => match write_malformed(alloc, place, output) {
                Ok(()) => Status::Malformed,
                Err(LineFault::Write) => Status::WriteFault,
                Err(LineFault::NoMemory) => Status::NoMemory,
            },
            Stop::Read => Status::ReadFault,
            Stop::Full => Status::Device,
            Stop::Device if starved => Status::NoMemory,
            Stop::Device => Status::Device,
            Stop::NoMemory => Status::NoMemory,
        },
    }
}

// Tells why a log was not opened.
fn refuse_log<O: Sink>(
    alloc: Global,
    disk: &DiskName,
    fault: OpenFault,
    starved: bool,
    output: &mut O,
) -> Status
    ensures refusal { IsLogRefusal disk.now fault (output_change O.held O.faults output.old output.new) result }
    ensures fed { result ≡ Status.Device → starved ≡ false }
    ensures counted { result ≢ Status.WriteFault → O.faults output.new ≡ O.faults output.old }
{
    match fault {
        OpenFault::Damaged { place } => match write_damaged(alloc, disk, place, output) {
            Ok(()) => Status::Damaged,
            Err(LineFault::Write) => Status::WriteFault,
            Err(LineFault::NoMemory) => Status::NoMemory,
        },
        OpenFault::Device => {
            if starved {
                return Status::NoMemory;
            }
            Status::Device
        }
        OpenFault::NoMemory => Status::NoMemory,
    }
}

// Loads a segment into the log on the disk of this name.
fn load_on<I: Source, O: Sink, B: Bay>(
    alloc: Global,
    name: &DiskName,
    input: &mut I,
    output: &mut O,
    bay: &mut B,
) -> Status
where
    B::D: Drop,
    requires { NoneIsOut B.seen bay.old }
    ensures loads { IsLoad (bay_change B.seen B.D.seen bay.old bay.new) name.now
        (input_change I.left I.ended I.faults input.old input.new) (output_change O.held O.faults output.old output.new) result }
    ensures counted { result ≢ Status.WriteFault → O.faults output.new ≡ O.faults output.old }
    ensures back { NoneIsOut B.seen bay.new }
    ensures others { (m : List ℕ) → m ≢ name.now → SameSlot B.seen m bay.old bay.new }
    ensures runs { RunsDisk (bay_change B.seen B.D.seen bay.old bay.new) name.now }
{
    let Ok(disk) = bay.take(name) else {
        return if bay.starved() {
            Status::NoMemory
        } else {
            Status::Device
        };
    };
    let starved = bay.starved();
    match PartLog::open(alloc, disk) {
        Ok(mut log) => {
            let status = load_into(alloc, &mut log, starved, input, output);
            bay.put_back(name, log.into_disk());
            status
        }
        Err((disk, fault)) => {
            let starved = starved | disk.starved();
            bay.put_back(name, disk);
            refuse_log(alloc, name, fault, starved, output)
        }
    }
}

// The disk of the log of a shard's partition. `None` where there is no such shard.
fn log_disk(topics: &[Topic], shard: u32) -> Option<DiskName>
    requires each { All IsTopic topics.now }
    requires few { partitions topics.now ≤ most_partitions }
    ensures { MatchOption result (partitions topics.now ≤ shard) (IsLogDisk topics.now shard) }
{
    let Some((topic, others)) = topics.split_first() else {
        return None;
    };
    if shard < topic.parts {
        return DiskName::hosted(topic.name.as_bytes(), shard, DiskPlace::Log);
    }
    log_disk(others, shard - topic.parts)
}

/// Loads a segment from `input` into the log of the partition of this shard, whose disk alone is taken from the bay,
/// and put back.
pub fn load<I: Source, O: Sink, B: Bay>(
    alloc: Global,
    conf: &Config,
    shard: u32,
    input: &mut I,
    output: &mut O,
    bay: &mut B,
) -> Status
where
    B::D: Drop,
    requires hosted { shard < partitions conf.now.topics }
    requires home { NoneIsOut B.seen bay.old }
    ensures loads { LoadsSegment (bay_change B.seen B.D.seen bay.old bay.new)
        (input_change I.left I.ended I.faults input.old input.new)
        (output_change O.held O.faults output.old output.new) conf.now shard result }
    ensures counted { result ≢ Status.WriteFault → O.faults output.new ≡ O.faults output.old }
    ensures back { NoneIsOut B.seen bay.new }
{
    let Some(name) = log_disk(conf.topics(), shard) else {
        unreachable!()
    };
    load_on(alloc, &name, input, output, bay)
}

/// A text is read in one way as batches that may stand behind a log, and a rest that begins with none.
pub fn segments_are_read_one_way()
    ensures { (text : List ℕ) (log : List Batch) → HasOneReading text log }
{}
