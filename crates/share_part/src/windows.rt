// The windows of the groups of a partition.
ghost use Rattle.std.specs.Prelude.{◌≡◌, ◌≤◌, ◌<◌, ◌+◌, ◌-◌, ◌^◌, ℕ, List, [], OnOk, OnErr, IsSome, IfSome, IfOk, length, if◌then◌else◌};
ghost use Rattle.std.specs.BTreeMap.{is_at};
ghost use Rattle.std.specs.Cmp.Lexicographic.{slice_cmp};
ghost use Rattle.std.specs.List.{AllByRecursion};
ghost use Rattle.std.specs.List.Sorted.{IsStrictlySortedBy};
ghost use Rattle.std.specs.Map.{keys_of, lookup};
ghost use Rattle.std.specs.Ordering.{nat_cmp};
ghost use Rattle.share_part.specs.Once.{IsNothingDue};
ghost use Rattle.share_part.specs.Releasing.{due_groups, has_due};
ghost use Rattle.share_part.specs.Shards.{held_in, with_held};
ghost use Rattle.share_part.specs.Tables.{with_holds};
ghost use Rattle.share_part.specs.Walks.{AreApart, IsSmallGrant, offsets_with, written_out};
ghost use Rattle.lock_index.specs.Windows.{IsRising};

use lock_index::Window;
use share_model::{Grant, Hold, Name, NoMemory};
use std::alloc::Global;
use std::collections::BTreeMap;

/// Makes the window of a group, which holds nothing, where it isn't there yet.
pub fn add_window<W: Window>(
    alloc: Global,
    windows: &mut BTreeMap<Name, W>,
    group: &Name,
) -> Result<(), NoMemory>
    ensures there { OnOk result (IsSome (lookup (is_at (slice_cmp nat_cmp group.now)) windows.new.entries)) }
    ensures held { (other : List ℕ) → held_in W.held windows.new.entries other ≡ held_in W.held windows.old.entries other }
{
    if windows.contains_key(group) {
        return Ok(());
    }
    windows.insert(*group, W::new(alloc))?;
    Ok(())
}

/// Sets memory aside for so many more holds of a group whose window is there.
pub fn set_aside<W: Window>(
    windows: &mut BTreeMap<Name, W>,
    group: &Name,
    count: u32,
) -> Result<(), NoMemory>
    requires { IsSome (lookup (is_at (slice_cmp nat_cmp group.now)) windows.old.entries) }
    ensures there { IsSome (lookup (is_at (slice_cmp nat_cmp group.now)) windows.new.entries) }
    ensures spare { OnOk result (IfSome (lookup (is_at (slice_cmp nat_cmp group.now)) windows.new.entries) (λ w. count ≤ W.spare w)) }
    ensures held { (other : List ℕ) → held_in W.held windows.new.entries other ≡ held_in W.held windows.old.entries other }
{
    match windows.get_mut(group) {
        Some(window) => window.reserve(count),
        None => unreachable!(),
    }
}

// Holds the offsets of a grant.
fn hold_grant<W: Window>(window: &mut W, member: &Name, end: u64, grant: Grant)
    requires range { grant.first ≤ grant.last }
    requires below { grant.last < 2 ^ 62 }
    requires spare { (grant.last + 1) - grant.first ≤ W.spare window.old }
    ensures held { W.held window.new ≡ with_holds member.now end
        (offsets_with grant.first ((grant.last + 1) - grant.first) grant.count) (W.held window.old) }
    ensures spare { W.spare window.old ≤ W.spare window.new + ((grant.last + 1) - grant.first) }
{
    let hold = Hold {
        member: *member,
        end,
        count: grant.count,
    };
    if let Err(_) = window.hold_range(grant.first, grant.last, hold) {
        unreachable!()
    }
}

// Holds the offsets of grants.
fn hold_all<W: Window>(window: &mut W, member: &Name, end: u64, grants: &[Grant])
    requires ranges { AreApart grants.now }
    requires small { AllByRecursion IsSmallGrant grants.now }
    requires spare { length (written_out grants.now) ≤ W.spare window.old }
    ensures { W.held window.new ≡ with_holds member.now end (written_out grants.now) (W.held window.old) }
{
    for grant in grants {
        hold_grant(window, member, end, *grant);
    }
}

/// Holds the offsets of grants for a member of a group whose window is there, and has memory set aside for them.
pub fn hold<W: Window>(
    windows: &mut BTreeMap<Name, W>,
    group: &Name,
    member: &Name,
    end: u64,
    grants: &[Grant],
)
    requires ranges { AreApart grants.now }
    requires small { AllByRecursion IsSmallGrant grants.now }
    requires there { IsSome (lookup (is_at (slice_cmp nat_cmp group.now)) windows.old.entries) }
    requires spare { IfSome (lookup (is_at (slice_cmp nat_cmp group.now)) windows.old.entries) (λ w. length (written_out grants.now) ≤ W.spare w) }
    ensures { (other : List ℕ) → held_in W.held windows.new.entries other ≡ with_held (held_in W.held windows.old.entries) group.now
        (with_holds member.now end (written_out grants.now) (held_in W.held windows.old.entries group.now)) other }
{
    match windows.get_mut(group) {
        Some(window) => hold_all(window, member, end, grants),
        None => unreachable!(),
    }
}

// Whether a lock of a window has ended.
fn is_due<W: Window>(window: &W, clock: u64) -> bool
    ensures due { result ≡ has_due clock (W.held window.now) }
    ensures rising { IsRising (W.held window.now) }
{
    window.known();
    window.due(clock).is_some()
}

/// The groups that hold something by a lock that has ended, in byte order. Where there are none, no memory is taken,
/// and no window is walked.
pub fn due_groups<W: Window>(
    alloc: Global,
    windows: &BTreeMap<Name, W>,
    clock: u64,
) -> Result<Vec<Name>, NoMemory>
    ensures due { IfOk result (λ due. due.items ≡ due_groups W.held clock windows.now.entries) }
    ensures some { OnErr result (IsNothingDue W.held windows.now.entries clock → ⊥) }
    ensures rising { OnOk result (AllByRecursion (λ entry. IsRising (W.held entry.1)) windows.now.entries) }
    ensures ordered { IsStrictlySortedBy (slice_cmp nat_cmp) (keys_of windows.now.entries) }
{
    let mut due = Vec::new(alloc);
    for (group, window) in windows.iter() {
        if is_due(window, clock) {
            due.push(*group)?;
        }
    }
    Ok(due)
}
