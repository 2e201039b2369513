// What the numbers of a call are refused for.
ghost use Rattle.std.specs.Prelude.{◌≡◌, true, ◌↔◌};
ghost use Rattle.std.specs.List.{list_all};
ghost use Rattle.share_model.specs.ShareStates.{is_writable};
ghost use Rattle.share_coord.specs.Calls.{fenced_state, fenced, fenced_init, fenced_write, init_refusal, write_refusal};
ghost use Rattle.share_coord.specs.Tables.{found, shown};

use crate::fault::CoordFault;
use crate::view::Kept;
use share_model::Run;

fn is_writable(run: &Run) -> bool
    ensures { result ≡ is_writable run.now }
{
    run.first <= run.last && run.last < 1 << 63 && run.count < 1 << 15
}

fn all_writable(runs: &[Run]) -> bool
    ensures { result ≡ list_all is_writable runs.now }
{
    runs.iter().all(|run| is_writable(run))
}

fn fenced_state(kept: &Kept, state_epoch: i32) -> Option<CoordFault>
    ensures { result ≡ fenced_state (shown kept.now) state_epoch }
{
    let known = kept.view.state_epoch;
    if state_epoch < known {
        return Some(CoordFault::FencedState { known });
    }
    None
}

fn fenced(kept: &Kept, state_epoch: i32, leader_epoch: i32) -> Option<CoordFault>
    ensures { result ≡ fenced (shown kept.now) state_epoch leader_epoch }
{
    let known = kept.view.leader_epoch;
    if leader_epoch < known {
        return Some(CoordFault::FencedLeader { known });
    }
    fenced_state(kept, state_epoch)
}

fn fenced_init(known: Option<&Kept>, state_epoch: i32) -> Option<CoordFault>
    ensures { result ≡ fenced_init (found known.entry) state_epoch }
{
    match known {
        Some(kept) => fenced_state(kept, state_epoch),
        None => None,
    }
}

fn fenced_write(known: Option<&Kept>, state_epoch: i32, leader_epoch: i32) -> Option<CoordFault>
    ensures { result ≡ fenced_write (found known.entry) state_epoch leader_epoch }
{
    match known {
        Some(kept) => fenced(kept, state_epoch, leader_epoch),
        None => Some(CoordFault::Unknown),
    }
}

pub(crate) fn init_refusal(known: Option<&Kept>, state_epoch: i32, start: i64) -> Option<CoordFault>
    ensures { result ≡ init_refusal (found known.entry) state_epoch start }
{
    if state_epoch < 0 || start < -1 {
        return Some(CoordFault::Invalid);
    }
    fenced_init(known, state_epoch)
}

pub(crate) fn write_refusal(
    known: Option<&Kept>,
    state_epoch: i32,
    leader_epoch: i32,
    start: i64,
    runs: &[Run],
) -> Option<CoordFault>
    ensures { result ≡ write_refusal (found known.entry) state_epoch leader_epoch start runs.now }
{
    if (state_epoch < 0 || leader_epoch < 0) || (start < -1 || !all_writable(runs)) {
        return Some(CoordFault::Invalid);
    }
    fenced_write(known, state_epoch, leader_epoch)
}
