// Locks around all shards, and passes through them.
ghost use Rattle.std.specs.Prelude.{◌≡◌, ◌<◌, ◌+◌, ◌++◌, ◌∷◌, [], IfOk};
ghost use Rattle.std.specs.List.{AllByRecursion};
ghost use Rattle.broker_locks.specs.Rows.{AreAll, IsRow, IsUnused, shards_of};
ghost use Rattle.broker_locks.specs.Shared.{first_shards};

use crate::rows::{join_parts, lock_parts, make_rows};
use crate::waiters::WaitRoom;
use broker_shards::{ForeignHost, MembersHost, PartHost};
use edge_io::Disk;
use shard_lock::{Pass, ShardLock};
use share_model::NoMemory;
use std::alloc::Global;
use std::marker::Model;
use topic_conf::Config;

/// All shards of a broker: those of the hosted partitions in the order of their numbers, the members of all groups,
/// and foreign state.
#[derive(Drop)]
pub struct ShardSet<D: Disk> {
    pub parts: Vec<PartHost<D>>,
    pub members: MembersHost,
    pub foreign: ForeignHost<D>,
}

/// A lock around each shard of a broker, its configuration, and where its threads wait. A contract sees what it sees of
/// the locks.
#[derive(Drop)]
pub struct Shared<D: Disk> {
    pub(crate) conf: Config,
    pub(crate) parts: Vec<ShardLock<PartHost<D>>>,
    pub(crate) members: ShardLock<MembersHost>,
    pub(crate) foreign: ShardLock<ForeignHost<D>>,
    pub(crate) room: WaitRoom,
}

impl<D: Disk> Model for Shared<D> {
    ghost use Rattle.broker_locks.specs.Shared.{SharedParts};

    ghost Value = { SharedParts D };

    ghost view = { λ s. record { conf = s.conf; parts = s.parts.items; members = s.members; foreign = s.foreign } };
}

/// A pass of each lock, and the seat of the thread that has them. A contract sees what it sees of the passes.
#[derive(Drop)]
pub struct Passes<D: Disk> {
    pub(crate) parts: Vec<Pass<PartHost<D>>>,
    pub(crate) members: Pass<MembersHost>,
    pub(crate) foreign: Pass<ForeignHost<D>>,
    pub(crate) seat: usize,
}

impl<D: Disk> Model for Passes<D> {
    ghost use Rattle.broker_locks.specs.Shared.{PassesParts};

    ghost Value = { PassesParts D };

    ghost view = { λ p. record { parts = p.parts.items; members = p.members; foreign = p.foreign } };
}

impl<D: Disk> Shared<D> {
    /// What the broker is configured with.
    pub fn conf(&self) -> &Config
        ensures { result.now ≡ self.now.conf }
    {
        &self.conf
    }
}

impl<D: Disk> Passes<D> {
    // A pass of the members' lock and of that of foreign state, and none of a partition's.
    pub(crate) fn alone(
        alloc: Global,
        members: Pass<MembersHost>,
        foreign: Pass<ForeignHost<D>>,
        seat: usize,
    ) -> Passes<D>
        ensures parts { result.parts ≡ [] }
        ensures members { result.members ≡ members }
        ensures foreign { result.foreign ≡ foreign }
    {
        Passes {
            parts: Vec::new(alloc),
            members,
            foreign,
            seat,
        }
    }

    // With a pass of one more partition.
    pub(crate) fn with(self, pass: Pass<PartHost<D>>) -> Result<Passes<D>, NoMemory>
    where
        D: Drop,
        ensures parts { IfOk result (λ p. p.parts ≡ self.parts ++ pass ∷ []) }
        ensures members { IfOk result (λ p. p.members ≡ self.members) }
        ensures foreign { IfOk result (λ p. p.foreign ≡ self.foreign) }
    {
        let Passes {
            mut parts,
            members,
            foreign,
            seat,
        } = self;
        parts.push(pass)?;
        Ok(Passes {
            parts,
            members,
            foreign,
            seat,
        })
    }
}

/// A lock around each of the shards, and so many passes of each. Where no memory is found the shards are dropped.
pub fn lock_shards<D: Disk + Drop>(
    alloc: Global,
    conf: Config,
    shards: ShardSet<D>,
    seats: u32,
) -> Result<(Shared<D>, Vec<Passes<D>>), NoMemory>
    requires { 0 < seats }
    ensures locks { IfOk result (λ r. first_shards r.0 ≡ shards_of shards) }
    ensures conf { IfOk result (λ r. r.0.conf ≡ conf) }
    ensures passes { IfOk result (λ r. AreAll r.0 seats r.1.items) }
    ensures unused { IfOk result (λ r. AllByRecursion IsUnused r.1.items) }
{
    let ShardSet {
        parts,
        members,
        foreign,
    } = shards;
    let room = WaitRoom::new(alloc, parts.len(), seats)?;
    let (members, member_passes) = ShardLock::make(alloc, members, seats)?;
    let (foreign, foreign_passes) = ShardLock::make(alloc, foreign, seats)?;
    let rows = make_rows(alloc, &members, member_passes, &foreign, foreign_passes)?;
    let (parts, rows) = lock_parts(alloc, parts, seats, rows, &members, &foreign)?;
    let shared = Shared {
        conf,
        parts,
        members,
        foreign,
        room,
    };
    Ok((shared, rows))
}

// Joins one row of passes into another.
fn merge<D: Disk + Drop>(shared: &Shared<D>, into: &mut Passes<D>, other: Passes<D>)
    requires { (rows n : _) × IsRow rows n shared.now into.old × IsRow rows 1 shared.now other }
    ensures { (rows n : _) → IsRow rows n shared.now into.old → IsRow rows 1 shared.now other
        → IsRow rows (n + 1) shared.now into.new }
{
    let Passes {
        parts,
        members,
        foreign,
        ..
    } = other;
    join_parts(&shared.parts, &mut into.parts, parts);
    shared.members.join(&mut into.members, members);
    shared.foreign.join(&mut into.foreign, foreign);
}

/// Joins all rows into one, whose passes stand for those of the rows.
pub fn gather<D: Disk + Drop>(shared: &Shared<D>, passes: Vec<Passes<D>>) -> Passes<D>
    requires { (seats : _) × AreAll shared.now seats passes.items × (0 < seats) }
    ensures { (seats : _) → AreAll shared.now seats passes.items → IsRow passes.items seats shared.now result }
{
    let mut passes = passes;
    let Some(first) = passes.pop() else {
        unreachable!()
    };
    let mut into = first;
    while let Some(other) = passes.pop() {
        merge(shared, &mut into, other);
    }
    into
}
