// What a fetch may still take, and how much it has taken.
ghost use Rattle.std.specs.Prelude.{◌≡◌, ◌≤◌, ◌<◌, ◌+◌, ◌-◌, ◌^◌, nat_le, ◌||◌, true, false, MatchOption, IfSome, Bool, ℕ};
ghost use Rattle.share_part.specs.Budgets.{IsInRange};

use crate::limits::Limits;

/// The limits that are left; the number of records that were taken, and that of the bytes of their batches.
#[derive(Clone, Copy)]
pub struct Budget {
    pub records: u32,
    pub bytes: u32,
    pub first: bool,
    pub count: u32,
    pub size: u32,
    ghost in_range: { IsInRange records bytes first count size },
}

impl Budget {
    pub fn new(limits: Limits) -> Budget
        ensures limits { (result.records ≡ limits.records) × (result.bytes ≡ limits.bytes) × (result.first ≡ limits.first) }
        ensures none { (result.count ≡ 0) × (result.size ≡ 0) }
    {
        Budget {
            records: limits.records,
            bytes: limits.bytes,
            first: limits.first,
            count: 0,
            size: 0,
        }
    }

    /// One more batch of so many bytes. `None` where it doesn't fit.
    pub fn with_batch(self, size: u32) -> Option<Budget>
        ensures fits { MatchOption result ((self.first || nat_le size self.bytes) ≡ false) (λ _. (self.first || nat_le size self.bytes) ≡ true) }
        ensures left { IfSome result (λ b. (b.records ≡ self.records) × (b.bytes ≡ self.bytes - size) × (b.first ≡ false)) }
        ensures taken { IfSome result (λ b. (b.count ≡ self.count) × (b.size ≡ self.size + size)) }
    {
        if !self.first && size > self.bytes {
            return None;
        }
        Some(Budget {
            records: self.records,
            bytes: self.bytes.saturating_sub(size),
            first: false,
            count: self.count,
            size: self.size + size,
        })
    }

    /// So many more records.
    pub fn with_records(self, n: u32) -> Budget
        requires { n ≤ self.records }
        ensures left { (result.records ≡ self.records - n) × (result.bytes ≡ self.bytes) × (result.first ≡ self.first) }
        ensures taken { (result.count ≡ self.count + n) × (result.size ≡ self.size) }
    {
        Budget {
            records: self.records - n,
            bytes: self.bytes,
            first: self.first,
            count: self.count + n,
            size: self.size,
        }
    }
}
