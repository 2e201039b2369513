ghost use Rattle.std.specs.Prelude.{◌≡◌, IfOk};
ghost use Rattle.std.specs.HashSet.{keys};

use crate::step::Caller;
use indexmap::IndexSet;
use share_model::{Name, NoMemory};
use std::marker::Model;

/// A share session: the group and the member that it is of, the epoch that its next request has, and the numbers of the
/// shards of its partitions, in the order in which they joined. A contract sees the record of these.
#[derive(Drop)]
pub struct Session {
    group: Name,
    member: Name,
    epoch: i32,
    partitions: IndexSet<u32>,
}

impl Model for Session {
    ghost use Rattle.share_session.specs.SessionParts.{SessionParts};

    ghost Value = { SessionParts };

    ghost view = { λ s. record { group = s.group; member = s.member; epoch = s.epoch; partitions = s.partitions.keys } };
}

impl Session {
    ghost use Rattle.share_session.specs.Sessions.{is_of};
    ghost use Rattle.share_session.specs.Undone.{has_partition, without_first};

    /// The session of these parts. It takes no memory.
    pub fn new(group: Name, member: Name, epoch: i32, partitions: IndexSet<u32>) -> Session
        ensures { result ≡ record { group = group; member = member; epoch = epoch; partitions = partitions.keys } }
    {
        Session {
            group,
            member,
            epoch,
            partitions,
        }
    }

    /// The group.
    pub fn group(&self) -> &Name
        ensures { result.now ≡ self.now.group }
    {
        &self.group
    }

    /// The member.
    pub fn member(&self) -> &Name
        ensures { result.now ≡ self.now.member }
    {
        &self.member
    }

    /// The epoch that its next request has.
    pub fn epoch(&self) -> i32
        ensures { result ≡ self.now.epoch }
    {
        self.epoch
    }

    /// The shards of its partitions, in the order in which they joined.
    pub fn partitions(&self) -> &[u32]
        ensures { result.now ≡ self.now.partitions }
    {
        self.partitions.as_slice()
    }

    /// A copy of its list of partitions.
    pub fn copied_partitions(&self) -> Result<IndexSet<u32>, NoMemory>
        ensures { IfOk result (λ list. list.keys ≡ self.now.partitions) }
    {
        Ok(self.partitions.clone()?)
    }

    /// The member that it is of.
    pub fn caller(&self) -> Caller
        ensures { result ≡ record { group = self.now.group; member = self.now.member } }
    {
        Caller {
            group: self.group,
            member: self.member,
        }
    }

    /// Whether it has a partition.
    pub fn has_partition(&self) -> bool
        ensures { result ≡ has_partition self.now }
    {
        !self.partitions.as_slice().is_empty()
    }

    /// Its first partition goes, where it has one. It takes no memory.
    pub fn leave_first(&mut self)
        ensures { self.new ≡ without_first self.old }
    {
        let _ = self.partitions.shift_remove_index(0);
    }

    /// Whether it is that of this member of this group.
    pub fn is_of(&self, group: &Name, member: &Name) -> bool
        ensures { result ≡ is_of group.now member.now self.now }
    {
        self.group == *group && self.member == *member
    }
}
