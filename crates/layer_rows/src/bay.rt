// A bay of disks in memory.
use crate::plain::word;
use edge_io::{Bay, Disk, DiskName, DiskPlace};
use edge_mem::MemBay;
use std::alloc::Global;
use std::io;

fn place_of(name: &str) -> DiskPlace {
    match name {
        "log-b" => DiskPlace::LogB,
        "state-a" => DiskPlace::StateA,
        "state-b" => DiskPlace::StateB,
        _ => DiskPlace::Log,
    }
}

/// The name of a disk: of a topic, a partition and a place, or of the foreign state.
pub fn named(text: &str) -> Option<DiskName> {
    match text {
        "foreign state-a" => Some(DiskName::foreign_state_a()),
        "foreign state-b" => Some(DiskName::foreign_state_b()),
        _ => {
            let (topic, rest) = text.split_once(' ')?;
            let (number, place) = rest.split_once(' ')?;
            DiskName::hosted(topic.as_bytes(), number.parse().ok()?, place_of(place))
        }
    }
}

/// The name of a disk as text, or `none`.
pub fn name_told(alloc: Global, text: &str) -> io::Result<String> {
    match named(text) {
        Some(name) => word(alloc, str::from_utf8(name.as_bytes()).unwrap_or("no UTF-8")),
        None => word(alloc, "none"),
    }
}

/// The text, where a disk is named so, or `none`.
pub fn name_read(alloc: Global, text: &str) -> io::Result<String> {
    match DiskName::parse(text) {
        Some(name) => word(alloc, name.as_str()),
        None => word(alloc, "none"),
    }
}

/// Takes a disk out and puts it back, of which the second call is to fail; another disk is empty. Gives what doesn't
/// hold.
pub fn bay_told(alloc: Global) -> io::Result<String> {
    let Some(name) = DiskName::hosted(b"orders", 0, DiskPlace::StateA) else {
        return word(alloc, "no name");
    };
    let mut failing = Vec::new(alloc);
    failing.push(1)?;
    let mut bay = MemBay::new(alloc, failing);
    if bay.has(&name) {
        return word(alloc, "a bay of no disks has one");
    }
    let Ok(mut disk) = bay.take(&name) else {
        return word(alloc, "the first call fails");
    };
    if !bay.has(&name) || bay.has(&DiskName::foreign_state_a()) {
        return word(alloc, "a bay hasn't the one disk that was taken");
    }
    let is_written = disk.write_at(0, b"kept").is_ok();
    bay.put_back(&name, disk);
    if !is_written || bay.take(&name).is_ok() {
        return word(alloc, "the second call is answered");
    }
    let Ok(again) = bay.take(&name) else {
        return word(alloc, "the third call fails");
    };
    let is_kept = again.bytes() == b"kept".as_slice();
    bay.put_back(&name, again);
    word(alloc, if is_kept { "ok" } else { "the disk is another" })
}
