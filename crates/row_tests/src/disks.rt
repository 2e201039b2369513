// The disks of a case: what they have before it, and what they are left with.
ghost use Rattle.std.specs.Prelude.{IfOk};
ghost use Rattle.edge_mem.specs.Seen.{bay_view};
ghost use Rattle.share_top.specs.Loading.{NoneIsOut};

use crate::case::{ArmLine, Case, DiskLine};
use crate::runs::content_of_run;
use edge_io::{Bay, Disk, DiskName};
use edge_mem::{MemBay, MemDisk};
use row_text::compared;
use std::alloc::Global;
use std::io;

/// Gives a disk this content.
fn fill(alloc: Global, bay: &mut MemBay, name: &DiskName, bytes: Vec<u8>)
    requires { NoneIsOut bay_view bay.old }
    ensures { NoneIsOut bay_view bay.new }
{
    let Ok(disk) = MemDisk::new(alloc, bytes) else {
        return;
    };
    let Ok(_) = bay.take(name) else {
        return;
    };
    bay.put_back(name, disk);
}

/// Arms a fault of a disk.
fn arm(bay: &mut MemBay, line: &ArmLine)
    requires { NoneIsOut bay_view bay.old }
    ensures { NoneIsOut bay_view bay.new }
{
    let Ok(mut disk) = bay.take(&line.name) else {
        return;
    };
    disk.arm(line.after, line.mode);
    bay.put_back(&line.name, disk);
}

/// The bay of a run of a case.
pub fn bay_of(alloc: Global, case: &Case, run: u64) -> io::Result<MemBay>
    ensures { IfOk result (λ bay. NoneIsOut bay_view bay) }
{
    let taken = (case.disks.len() as u64).saturating_add(case.arms.len() as u64);
    let mut failing = Vec::new(alloc);
    for call in &case.bay_faults {
        failing.push(call.saturating_add(taken))?;
    }
    let mut bay = MemBay::new(alloc, failing);
    let mut number: u64 = 0;
    for line in &case.disks {
        let bytes = content_of_run(alloc, case, line, number, run)?;
        fill(alloc, &mut bay, &line.name, bytes);
        number = number.saturating_add(1);
    }
    for fault in &case.arms {
        arm(&mut bay, fault);
    }
    Ok(bay)
}

/// What differs between the content of a disk and the one that is wanted.
fn compared_disk(alloc: Global, bay: &mut MemBay, line: &DiskLine) -> io::Result<Option<String>>
    requires { NoneIsOut bay_view bay.old }
    ensures { NoneIsOut bay_view bay.new }
{
    let Ok(disk) = bay.take(&line.name) else {
        return Ok(Some(String::from_str(alloc, "the disk isn't there")?));
    };
    let got = hex::encode(alloc, disk.bytes());
    bay.put_back(&line.name, disk);
    let wanted = hex::encode(alloc, line.bytes.as_slice())?;
    compared(alloc, got?.as_str(), wanted.as_str())
}

/// What differs between the disks of a case behind it, and what they are to be left with.
pub fn compared_disks(alloc: Global, bay: &mut MemBay, case: &Case) -> io::Result<Option<String>>
    requires { NoneIsOut bay_view bay.old }
{
    for line in &case.left {
        if let Some(why) = compared_disk(alloc, bay, line)? {
            return Ok(Some(why));
        }
    }
    Ok(None)
}
