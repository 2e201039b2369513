// Whether a fetch would find a record.
ghost use Rattle.std.specs.Prelude.{◌≡◌, []};
ghost use Rattle.part_log.specs.Logs.{IsStoredLog, log_in};
ghost use Rattle.share_coord.specs.States.{states_of};
ghost use Rattle.share_model.specs.ForeignRules.{share_state_at};
ghost use Rattle.share_part.specs.Hosting.{AreHosted, HoldsWell, key_of};
ghost use Rattle.share_part.specs.Offering.{offer_of};
ghost use Rattle.share_part.specs.Shards.{held_in};

use crate::conf::PartConf;
use crate::fetch::start_of;
use crate::walk::least_available;
use edge_io::Disk;
use lock_index::Window;
use part_log::PartLog;
use share_coord::Coord;
use share_model::{Name, Offer};
use std::alloc::Global;
use std::collections::BTreeMap;

/// The window of a group, or where it has none one that holds nothing.
pub fn window_of<'a, W: Window>(windows: &'a BTreeMap<Name, W>, empty: &'a W, group: &Name) -> &'a W
    requires { W.held empty.now ≡ [] }
    ensures { W.held result.now ≡ held_in W.held windows.now.entries group.now }
{
    match windows.get(group) {
        Some(window) => window,
        None => empty,
    }
}

/// What a fetch of a group would find now: the least slot that it may acquire, if it has a table.
pub fn offer<D: Disk, W: Window>(
    alloc: Global,
    conf: &PartConf,
    log: &PartLog<D>,
    states: &Coord<D>,
    windows: &BTreeMap<Name, W>,
    group: &Name,
) -> Offer
    requires sound { IsStoredLog log.now.batches }
    requires hosted { AreHosted conf.now (log_in log.now) (states_of states.now.entries) }
    requires well { HoldsWell log.now.batches
        (share_state_at (states_of states.now.entries) (key_of conf.now group.now))
        (held_in W.held windows.now.entries group.now) }
    ensures { result ≡ offer_of log.now.batches (held_in W.held windows.now.entries group.now)
        (share_state_at (states_of states.now.entries) (key_of conf.now group.now)) }
{
    let Some(view) = states.look(&conf.key(group)) else {
        return Offer::NoTable;
    };
    let empty = W::new(alloc);
    let window = window_of(windows, &empty, group);
    match least_available(log, start_of(view), &view.runs, window) {
        Some(offset) => Offer::Slot { offset },
        None => Offer::Nothing,
    }
}
