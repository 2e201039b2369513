ghost use Rattle.std.specs.Prelude.{◌≡◌, ◌≢◌, ◌⊎◌, ◌≤◌, [], List, ℕ, true, false, All, IfOk, IfErr, OnOk, OnErr, Err, length};
ghost use Rattle.edge_io.specs.Bays.{IsSound, SameSlot};
ghost use Rattle.edge_io.specs.Causes.{Rose};
ghost use Rattle.session_script.specs.declared.event.Event.TheVariants.{Power};
ghost use Rattle.session_script.specs.Output.{IsTold};
ghost use Rattle.topic_conf.specs.Topics.{partitions};
ghost use Rattle.broker_model.specs.Hosted.{IsOneOf, IsTaken};
ghost use Rattle.broker_model.specs.Machine.{Machine};
ghost use Rattle.broker_model.specs.Disks.{Disks};
ghost use Rattle.broker_hosts.specs.Hosts.{AreApart, AreFresh, AreHeld, AreOpen, IsFreshForeign, all_names, disks_in, hosted_slots, parts_of, IsWhole};
ghost use Rattle.broker_core.specs.Calls.{GoOn, OneRose, StaysHosted};
ghost use Rattle.broker_hosts.specs.Openings.{IsDamagedDisk};
ghost use Rattle.broker_hosts.specs.Bays.{AreOut, ArePutBack, AreTakenFrom, HasLastCount, HasRisen, IsFirst, IsOfDevice, StandForAll, StaysAs, TellsDisks, TellsStill};
ghost use Rattle.broker_core.specs.Cores.{Advances, HasMoment, IsCore, StopsIn, core_of, state_of};

use crate::arms::arm;
use crate::client::{connect, disconnect, one, send, serve};
use crate::fault::CoreFault;
use crate::power::lose_power;
use crate::timers::{expire, tick};
use broker_hosts::{CoreOpen, ForeignSlot, Hosts, PartSlot, open_hosts, put_hosts_back};
use conn_core::Conn;
use edge_io::{Bay, Disk};
use session_script::{Event, Outcome};
use std::alloc::Global;
use std::collections::BTreeMap;
use std::marker::Model;
use topic_conf::Config;

/// The broker over its disks: who is connected, and the shards.
///
/// It is opened by [`Core::start`], does one event at a time, and gives its disks back by [`Core::finish`]. A
/// contract sees its configuration, the connections in the order of their numbers, the hosted partitions in the order
/// of their shards, the members of all groups, and foreign state.
#[derive(Drop)]
pub struct Core<D: Disk> {
    conf: Config,
    clients: BTreeMap<u32, Conn>,
    hosts: Hosts<D>,
    alloc: Global,
}

impl<D: Disk> Model for Core<D> {
    ghost use Rattle.broker_hosts.specs.Hosts.{parts_of};
    ghost use Rattle.broker_core.specs.Cores.{CoreParts};
    ghost use Rattle.broker_hosts.specs.Hosts.{IsWhole};

    ghost Value = { CoreParts D };

    ghost view = { λ c. record { conf = c.conf; connections = c.clients.entries; hosts = parts_of c.hosts } };

    ghost invariant = { λ c. IsWhole c.conf (parts_of c.hosts) };
}

// Does one event.
#[tactic(auto, using(crate::proofs::Events::open_held))]
fn advance<D: Disk + Drop>(
    alloc: Global,
    conf: &Config,
    event: &Event,
    clients: &mut BTreeMap<u32, Conn>,
    hosts: &mut Hosts<D>,
) -> Result<Vec<Outcome>, CoreFault>
    requires open { AreOpen (parts_of hosts.old) }
    requires moment { HasMoment event.now }
    requires whole { IsWhole conf.now (parts_of hosts.old) }
    requires apart { AreApart (parts_of hosts.old) }
    requires hosted { length hosts.old.parts.items ≡ partitions conf.now.topics }
    ensures ok { IfOk result (λ outcomes. Advances D.seen
        (core_of conf.now clients.old.entries (parts_of hosts.old)) event.now outcomes.items
        (core_of conf.now clients.new.entries (parts_of hosts.new))) }
    ensures told { IfOk result (λ outcomes. All (IsTold conf.now.topics) outcomes.items) }
    ensures open { OnOk result (AreOpen (parts_of hosts.new)) }
    ensures held { AreHeld (parts_of hosts.new) }
    ensures stays { StaysHosted (parts_of hosts.old) (parts_of hosts.new) }
    ensures stopped { IfErr result (λ e. (m : Machine)
        → IsCore D.seen (core_of conf.now clients.old.entries (parts_of hosts.old)) m
        → StopsIn D.seen (core_of conf.now clients.old.entries (parts_of hosts.old)) m event.now
        (core_of conf.now clients.new.entries (parts_of hosts.new)) × (e ≡ CoreFault.NoMemory)) }
    ensures reopen { (f : CoreOpen) → result ≡ Err (CoreFault.Reopen f) →
        ((choice : ℕ) × (event.now ≡ Power choice)) × (f ≢ CoreOpen.Bay) × (f ≢ CoreOpen.NoMemory) }
    ensures device { result ≡ Err (CoreFault.Reopen CoreOpen.Device) →
        OneRose D.seen (disks_in (parts_of hosts.old)) (disks_in (parts_of hosts.new)) }
    ensures disks { GoOn D.seen (disks_in (parts_of hosts.old)) (disks_in (parts_of hosts.new)) }
{
    match event {
        Event::Open { conn } => {
            connect(alloc, *conn, clients)?;
            Ok(Vec::new(alloc))
        }
        Event::Bytes { conn, bytes } => {
            send(*conn, bytes.as_slice(), clients)?;
            Ok(Vec::new(alloc))
        }
        Event::Close { conn } => {
            disconnect(*conn, clients);
            Ok(Vec::new(alloc))
        }
        Event::Step { conn, now } => {
            let outcomes = serve(alloc, conf, *conn, *now, clients, hosts)?;
            Ok(outcomes)
        }
        Event::Expire { topic, part, now } => {
            let outcomes = expire(alloc, conf, topic, *part, *now, hosts)?;
            Ok(outcomes)
        }
        Event::Tick { now } => {
            tick(*now, hosts);
            Ok(Vec::new(alloc))
        }
        Event::Arm { disk, after, mode } => {
            arm(disk, *after, *mode, hosts);
            Ok(Vec::new(alloc))
        }
        Event::Power { choice } => {
            let outcomes = one(alloc, Outcome::Restarted)?;
            lose_power(alloc, conf, *choice, hosts)?;
            *clients = BTreeMap::new(alloc);
            Ok(outcomes)
        }
    }
}

impl<D: Disk + Drop> Core<D> {
    /// Takes the broker's disks from the bay, and opens its shards: those that the disks stand for, with nothing
    /// pending, to which nobody is connected. The hosted partitions come first, in the order of the configuration,
    /// and foreign state last.
    ///
    /// After a refusal each disk is back in the bay.
    pub fn start<B: Bay<D = D>>(
        alloc: Global,
        bay: &mut B,
        conf: Config,
    ) -> Result<Core<D>, CoreOpen>
        requires { AreOut B.seen [] bay.old }
        ensures opens { IfOk result (λ core. (contents : List ℕ → List ℕ) (was : Disks) →
            TellsDisks B.seen D.seen conf bay.old contents was →
            (m : Machine) × IsCore D.seen core m
            × IsFirst conf contents was (state_of D.seen m core)) }
        ensures open { IfOk result (λ core. AreOpen core.hosts × (core.conf ≡ conf)) }
        // Each partition and foreign state stand for what they have in memory, also on disks that don't tell their
        // contents.
        ensures fresh { IfOk result (λ core. AreFresh D.seen core.hosts.parts × IsFreshForeign D.seen core.hosts.foreign) }
        ensures taken { IfOk result (λ core. AreOut B.seen (all_names (hosted_slots core.hosts.parts)) bay.new) }
        ensures counts { IfOk result (λ core. AreTakenFrom B.seen D.seen conf bay.old bay.new (disks_in core.hosts)) }
        ensures back { OnErr result (AreOut B.seen [] bay.new) }
        // After a refusal each image of a disk is one that it had, or stands for the frames of one. No power is lost
        // and no fault is armed. Where a fault of a disk or of the bay is told, no call on a disk found no memory,
        // and the bay has found it at each.
        ensures stays { IfErr result (λ e. (name : List ℕ) → StaysAs B.seen D.seen (IsOfDevice e) name bay.old bay.new) }
        ensures fed { IfErr result (λ e. IsOfDevice e → (B.seen bay.new).starved ≡ false) }
        // A disk that isn't the broker's is as it was.
        ensures others { (name : List ℕ) → (IsTaken conf name → ⊥) → SameSlot B.seen name bay.old bay.new }

        // Each refusal has its cause. Contents that stand for logs, tables and states are never damaged.
        ensures damaged { (disk : List ℕ) (place : ℕ) → result ≡ Err (CoreOpen.Damaged disk place) → (contents : List ℕ → List ℕ) (was : Disks) →
            TellsDisks B.seen D.seen conf bay.old contents was → IsDamagedDisk conf contents disk place }
        ensures recovers { (contents : List ℕ → List ℕ) (was : Disks) →
            TellsDisks B.seen D.seen conf bay.old contents was → StandForAll conf contents →
            (disk : List ℕ) (place : ℕ) → result ≢ Err (CoreOpen.Damaged disk place) }
        ensures bay { result ≡ Err CoreOpen.Bay → Rose (B.seen bay.old).faults (B.seen bay.new).faults }
        // The bay's count rose, or a disk was taken with one at its last value.
        ensures device { result ≡ Err CoreOpen.Device → Rose (B.seen bay.old).faults (B.seen bay.new).faults ⊎ HasLastCount B.seen conf bay.new }
        ensures later { (B.seen bay.old).faults ≤ (B.seen bay.new).faults }
        ensures told { TellsStill B.seen bay.old bay.new }
        ensures sound { IsSound B.seen D.seen bay.old →
            (result ≢ Err CoreOpen.Bay) × (result ≢ Err CoreOpen.Device) }
    {
        match open_hosts(alloc, bay, &conf) {
            Ok(hosts) => Ok(Core {
                conf,
                clients: BTreeMap::new(alloc),
                hosts,
                alloc,
            }),
            Err(fault) => Err(fault),
        }
    }

    /// Puts the disks back into the bay from which they were taken, and in which they are still out.
    pub fn finish<B: Bay<D = D>>(self, bay: &mut B)
        requires { (name : List ℕ) → IsOneOf (all_names (hosted_slots self.hosts.parts)) name → (B.seen bay.old).out name ≡ true }
        ensures back { ArePutBack B.seen bay.old bay.new (disks_in self.hosts) }
        ensures are_in { (name : List ℕ) → IsOneOf (all_names (hosted_slots self.hosts.parts)) name → (B.seen bay.new).out name ≡ false }
        ensures none_out { AreOut B.seen (all_names (hosted_slots self.hosts.parts)) bay.old → AreOut B.seen [] bay.new }
        ensures noted { (name : List ℕ) → (B.seen bay.new).taken name ≡ (B.seen bay.old).taken name }
        ensures others { (name : List ℕ) → (IsTaken self.conf name → ⊥) → SameSlot B.seen name bay.old bay.new }
        ensures rises { HasRisen B.seen D.seen bay.old (disks_in self.hosts) → Rose (B.seen bay.old).faults (B.seen bay.new).faults }
        ensures later { (B.seen bay.old).faults ≤ (B.seen bay.new).faults }
        ensures told { TellsStill B.seen bay.old bay.new }
    {
        let Core { hosts, .. } = self;
        put_hosts_back(hosts, bay);
    }

    /// Its configuration.
    pub fn conf(&self) -> &Config
        ensures { result.now ≡ self.now.conf }
    {
        &self.conf
    }

    /// The hosted partitions with their shards, in the order of the configuration.
    pub fn parts(&self) -> &[PartSlot<D>]
        ensures { result.now ≡ self.now.hosts.parts }
    {
        self.hosts.parts.as_slice()
    }

    /// The shard of foreign state.
    pub fn foreign(&self) -> &ForeignSlot<D>
        ensures { result.now ≡ self.now.hosts.foreign }
    {
        &self.hosts.foreign
    }

    /// Does one event, and gives what comes of it, in order.
    ///
    /// An event on a connection, a partition or a disk that isn't there, and an open of a connection that is, change
    /// nothing and give nothing. At an `Err` the part in hand was done whole, or not at all; no event may follow, and
    /// `finish` puts the disks back.
    pub fn event(&mut self, event: &Event) -> Result<Vec<Outcome>, CoreFault>
        requires open { AreOpen self.old.hosts }
        requires moment { HasMoment event.now }

        // It is a step of the machine that the broker stands for, where its disks tell their contents.
        ensures ok { IfOk result (λ outcomes.
            Advances D.seen self.old event.now outcomes.items self.new) }
        ensures open { OnOk result (AreOpen self.new.hosts) }

        // On such disks it fails for want of memory alone, and the disks stand for the machine before the event, or
        // behind it.
        ensures stopped { IfErr result (λ e. (m : Machine) → IsCore D.seen self.old m →
            StopsIn D.seen self.old m event.now self.new × (e ≡ CoreFault.NoMemory)) }

        // On any disks: a fault that is told is that of a hosted partition. Why it was not opened again, which comes
        // of a power loss alone.
        ensures told { IfOk result (λ outcomes. All (IsTold self.old.conf.topics) outcomes.items) }
        ensures reopen { (f : CoreOpen) → result ≡ Err (CoreFault.Reopen f) →
            ((choice : ℕ) × (event.now ≡ Power choice)) × (f ≢ CoreOpen.Bay) × (f ≢ CoreOpen.NoMemory) }
        ensures device { result ≡ Err (CoreFault.Reopen CoreOpen.Device) → OneRose D.seen (disks_in self.old.hosts) (disks_in self.new.hosts) }
        ensures disks { GoOn D.seen (disks_in self.old.hosts) (disks_in self.new.hosts) }
        ensures conf { self.new.conf ≡ self.old.conf }
    {
        advance(
            self.alloc,
            &self.conf,
            event,
            &mut self.clients,
            &mut self.hosts,
        )
    }
}
