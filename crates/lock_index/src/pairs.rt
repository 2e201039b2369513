// Pairs of a lock end and a first offset, in order.
ghost use Rattle.std.specs.Prelude.{◌≡◌, ◌≤◌, length, Option, None};
ghost use Rattle.lock_index.specs.Locks.{IsOrdered, comes_before};
ghost use Rattle.lock_index.specs.Places.{before_count, least_due, lesser};

// Whether a pair comes before the one with this end and this first offset.
#[tactic(auto, unfolding(crate::specs::Locks::comes_before))]
fn comes_before(pair: &(u64, u64), end: u64, first: u64) -> bool
    ensures { result ≡ comes_before pair.now (end, first) }
{
    pair.0 < end || (pair.0 == end && pair.1 < first)
}

// How many pairs come before one.
pub(crate) fn count_before(pairs: &[(u64, u64)], end: u64, first: u64) -> usize
    requires { IsOrdered pairs.now }
    ensures count { result ≡ before_count pairs.now (end, first) }
    ensures within { result ≤ length pairs.now }
{
    pairs.partition_point(|pair| comes_before(pair, end, first))
}

// The less of a first offset and the least one so far.
fn lesser(least: Option<u64>, first: u64) -> u64
    ensures { result ≡ lesser least first }
{
    match least {
        Some(other) => other.min(first),
        None => first,
    }
}

// The least first offset of the pairs that end by a moment. Those that end later aren't walked.
pub(crate) fn find_due(mut pairs: &[(u64, u64)], now: u64) -> Option<u64>
    ensures { result ≡ least_due now None pairs.entry.now }
{
    let mut least = None;
    while let Some((pair, others)) = pairs.split_first() {
        if now < pair.0 {
            return least;
        }
        least = Some(lesser(least, pair.1));
        pairs = others;
    }
    least
}
