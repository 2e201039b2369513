// Rows of passes, one of each lock.
ghost use Rattle.std.specs.Prelude.{◌≡◌, ◌<◌, ◌+◌, ◌++◌, ◌∷◌, [], IfOk, length, map};
ghost use Rattle.std.specs.List.{AllByRecursion, AllZip};
ghost use Rattle.broker_locks.specs.Rows.{IsNew, RowOf, StandsAmong};

use crate::shared::Passes;
use broker_shards::{ForeignHost, MembersHost, PartHost};
use edge_io::Disk;
use shard_lock::{Pass, ShardLock};
use share_model::NoMemory;
use std::alloc::Global;

/// A row for each pass of the members' lock, with one of that of foreign state.
pub fn make_rows<D: Disk + Drop>(
    alloc: Global,
    members: &ShardLock<MembersHost>,
    member_passes: Vec<Pass<MembersHost>>,
    foreign: &ShardLock<ForeignHost<D>>,
    foreign_passes: Vec<Pass<ForeignHost<D>>>,
) -> Result<Vec<Passes<D>>, NoMemory>
    requires members { AllByRecursion (IsNew members.now) member_passes.items }
    requires foreign { AllByRecursion (IsNew foreign.now) foreign_passes.items }
    requires count { length foreign_passes.items ≡ length member_passes.items }
    ensures each { IfOk result (λ rows. AllByRecursion (RowOf [] members.now foreign.now) rows.items) }
    ensures count { IfOk result (λ rows. length rows.items ≡ length member_passes.items) }
{
    let mut member_passes = member_passes;
    let mut foreign_passes = foreign_passes;
    let mut rows = Vec::with_capacity(alloc, member_passes.len())?;
    while let Some(member) = member_passes.pop() {
        let Some(other) = foreign_passes.pop() else {
            unreachable!()
        };
        rows.push(Passes::alone(alloc, member, other, member_passes.len()))?;
    }
    Ok(rows)
}

// Each row gets one pass of the next partition's lock.
fn spread<D: Disk + Drop>(
    alloc: Global,
    rows: Vec<Passes<D>>,
    passes: Vec<Pass<PartHost<D>>>,
    lock: &ShardLock<PartHost<D>>,
    locks: &[ShardLock<PartHost<D>>],
    members: &ShardLock<MembersHost>,
    foreign: &ShardLock<ForeignHost<D>>,
) -> Result<Vec<Passes<D>>, NoMemory>
    requires rows { AllByRecursion (RowOf locks.now members.now foreign.now) rows.items }
    requires passes { AllByRecursion (IsNew lock.now) passes.items }
    requires count { length passes.items ≡ length rows.items }
    ensures each { IfOk result (λ out. AllByRecursion (RowOf (locks.now ++ lock.now ∷ []) members.now foreign.now) out.items) }
    ensures count { IfOk result (λ out. length out.items ≡ length rows.items) }
{
    let mut rows = rows;
    let mut passes = passes;
    let mut out = Vec::with_capacity(alloc, rows.len())?;
    while let Some(row) = rows.pop() {
        let Some(pass) = passes.pop() else {
            unreachable!()
        };
        out.push(row.with(pass)?)?;
    }
    Ok(out)
}

/// A lock around each partition, and a pass of each in each row.
pub fn lock_parts<D: Disk + Drop>(
    alloc: Global,
    hosts: Vec<PartHost<D>>,
    seats: u32,
    rows: Vec<Passes<D>>,
    members: &ShardLock<MembersHost>,
    foreign: &ShardLock<ForeignHost<D>>,
) -> Result<(Vec<ShardLock<PartHost<D>>>, Vec<Passes<D>>), NoMemory>
    requires some { 0 < seats }
    requires rows { AllByRecursion (RowOf [] members.now foreign.now) rows.items }
    requires count { length rows.items ≡ seats }
    ensures locks { IfOk result (λ r. map (λ l. l.first) r.0.items ≡ hosts.items) }
    ensures seats { IfOk result (λ r. AllByRecursion (λ l. l.seats ≡ seats) r.0.items) }
    ensures each { IfOk result (λ r. AllByRecursion (RowOf r.0.items members.now foreign.now) r.1.items) }
    ensures count { IfOk result (λ r. length r.1.items ≡ seats) }
{
    let mut rows = rows;
    let mut locks = Vec::with_capacity(alloc, hosts.len())?;
    for host in hosts {
        let (lock, passes) = ShardLock::make(alloc, host, seats)?;
        rows = spread(alloc, rows, passes, &lock, &locks, members, foreign)?;
        locks.push(lock)?;
    }
    Ok((locks, rows))
}

/// Joins passes into others, place by place.
pub fn join_parts<D: Disk + Drop>(
    locks: &Vec<ShardLock<PartHost<D>>>,
    into: &mut Vec<Pass<PartHost<D>>>,
    others: Vec<Pass<PartHost<D>>>,
)
    requires { (given n : _) × AllZip (StandsAmong given n) locks.now.items into.old.items
        × AllZip (StandsAmong given 1) locks.now.items others.items }
    ensures { (given n : _) → AllZip (StandsAmong given n) locks.now.items into.old.items
        → AllZip (StandsAmong given 1) locks.now.items others.items
        → AllZip (StandsAmong given (n + 1)) locks.now.items into.new.items }
{
    let mut others = others;
    while let Some(other) = others.pop() {
        let place = others.len();
        locks[place].join(&mut into[place], other);
    }
}
