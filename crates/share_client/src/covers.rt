// Which acquired records stand in the batches of a partition.
ghost use Rattle.std.specs.Prelude.{◌≡◌, ◌≤◌, ◌+◌, ◌<◌, ◌^◌, ◌<ℤ◌, ℕ, pos, IfNone, IfSome, MatchOption};
ghost use Rattle.share_client.specs.Grants.{AreGrants, Covers, GrantsNone};
ghost use Rattle.share_client.specs.Spans.{Ascend, IsCovered, IsGrant, IsToldAt};

use crate::batches::Span;
use crate::fault::{ClientFault, strange};
use crate::located::Located;
use msgs_share::AcquiredRecords;

/// Granted offsets, `first` and `last` with them.
#[derive(Clone, Copy)]
pub struct Run {
    pub first: u64,
    pub last: u64,
}

// The least offset that is neither below the needed one nor up to the last one of a batch.
fn further(need: u64, last: u64) -> u64
    requires { last + 1 < 2 ^ 64 }
    ensures from { need ≤ result }
    ensures behind { last + 1 ≤ result }
    ensures least { (n : ℕ) → need ≤ n → last + 1 ≤ n → result ≤ n }
{
    if need <= last { last + 1 } else { need }
}

// The batches from the one on that has the last one of these offsets. `None` where an offset isn't in a batch.
#[tactic(auto, using(crate::proofs::Covering::look_starts, crate::proofs::Covering::look_goes_on, crate::proofs::Covering::look_fails, crate::proofs::Covering::look_finds, crate::proofs::Covering::look_ends))]
fn cover(spans: &[Span], first: u64, last: u64) -> Option<&[Span]>
    requires order { first ≤ last }
    requires ascend { (next : ℕ) × Ascend next spans.now }
    ensures none { IfNone result (Covers spans.now first last → ⊥) }
    ensures some { IfSome result (λ rest. IsCovered first last spans.now rest.now) }
{
    let mut need = first;
    let mut rest = spans;
    while let Some((span, others)) = rest.split_first() {
        if need < span.base {
            return None;
        }
        if last <= span.last {
            return Some(rest);
        }
        need = further(need, span.last);
        rest = others;
    }
    None
}

// The offset, unless it is below 0.
fn offset_of(number: i64) -> Option<u64>
    ensures is { MatchOption result (number <ℤ pos 0) (λ n. number ≡ pos n) }
    ensures low { IfSome result (λ n. n < 2 ^ 63) }
{
    if number < 0 {
        None
    } else {
        Some(number as u64)
    }
}

// What an element grants, and the batches that are left behind it.
#[tactic(auto, using(crate::proofs::Covering::grants_none_below, crate::proofs::Covering::grants_none_ends_below, crate::proofs::Covering::grants_none_where, crate::proofs::Covering::grants_none_uncovered, crate::proofs::Covering::grants_these))]
fn grant<'a>(
    spans: &'a [Span],
    next: u64,
    left: u32,
    acquired: &AcquiredRecords,
) -> Option<(Run, &'a [Span])>
    requires ascend { (next : ℕ) × Ascend next spans.now }
    ensures none { IfNone result (GrantsNone spans.now next left acquired.now) }
    ensures some { IfSome result (λ x. IsGrant spans.now next left acquired.now x.0 x.1.now) }
    ensures low { IfSome result (λ x. x.0.last < 2 ^ 63) }
{
    let first = offset_of(acquired.first_offset)?;
    let last = offset_of(acquired.last_offset)?;
    if last < first || first < next || u64::from(left) <= last - first {
        return None;
    }
    let rest = cover(spans, first, last)?;
    Some((Run { first, last }, rest))
}

/// How many offsets are left behind what the elements grant, where each of them can be.
#[tactic(auto, using(crate::proofs::Covering::going_starts, crate::proofs::Covering::going_fails, crate::proofs::Covering::going_on, crate::proofs::Covering::going_ends))]
pub fn grants(
    acquired: &[Located<AcquiredRecords>],
    spans: &[Span],
    left: u32,
) -> Result<u32, ClientFault>
    requires ascend { Ascend 0 spans.now }
    ensures { IsToldAt (AreGrants spans.now 0 left acquired.now) result }
{
    let mut left = left;
    let mut next = 0;
    let mut batches = spans;
    let mut rest = acquired;
    while let Some((located, others)) = rest.split_first() {
        let Some((run, behind)) = grant(batches, next, left, &located.item) else {
            return Err(strange(located.place));
        };
        left -= (run.last - run.first) as u32 + 1;
        next = run.last + 1;
        batches = behind;
        rest = others;
    }
    Ok(left)
}
