// Rows of a reply, under the topics of its request.
ghost use Rattle.std.specs.Prelude.{◌≡◌, ◌+◌, ◌<◌, ◌^◌, take, drop, IfOk, OnOk};

use flex_fields::Items;
use share_model::NoMemory;
use std::alloc::Global;
use std::collections::VecDeque;

/// The first rows, so many of them, or all where there are fewer; the others are left. After want of memory some may
/// be gone.
#[tactic(auto, using(crate::proofs::Steps::take_none, crate::proofs::Steps::drop_none))]
pub fn next_rows<R: Drop>(
    alloc: Global,
    count: u32,
    rows: &mut VecDeque<R>,
) -> Result<Items<R>, NoMemory>
    requires { count + 1 < 2 ^ 32 }
    ensures first { IfOk result (λ first. first ≡ take count rows.old.items) }
    ensures left { OnOk result (rows.new.items ≡ drop count rows.old.items) }
{
    let mut first = Vec::with_capacity(alloc, rows.len().min(count as usize))?;
    for _ in 0..count {
        let Some(row) = rows.pop_front() else {
            return Ok(Items::new(first));
        };
        first.push(row)?;
    }
    Ok(Items::new(first))
}
