// One pass over the records of a batch.
ghost use Rattle.std.specs.Prelude.{◌≡◌, ◌+ℤ◌, pos, ◌<◌, ◌^◌, IsTrue, ◌↔◌, IfOk, IfErr};
ghost use Rattle.rec_batch.specs.Batches.{IsBadRecord, MayFollow};
ghost use Rattle.rec_batch.specs.Verdicts.{DueAfter, Walks};

use crate::form::Form;
use crate::passing::record;

fn may_follow(form: Form, last: i32, next: i64, delta: i32) -> bool
    ensures { IsTrue result ↔ MayFollow form last next delta }
{
    match form {
        Form::Produced => i64::from(delta) == next,
        Form::Stored => next <= i64::from(delta) && delta <= last,
    }
}

// The delta that is due behind this one, or nothing where it or one before it doesn't follow.
fn due_after(form: Form, last: i32, due: Option<i64>, delta: i32) -> Option<i64>
    ensures { DueAfter form last due delta result }
{
    match due {
        None => None,
        Some(next) => {
            if may_follow(form, last, next, delta) {
                Some(i64::from(delta) + 1)
            } else {
                None
            }
        }
    }
}

/// Whether the offset deltas of so many records follow; else the index of the record that isn't one.
pub fn walk(form: Form, last: i32, count: u32, content: &[u8]) -> Result<bool, u32>
    ensures ok { IfOk result (Walks form last content.now count) }
    ensures err { IfErr result (IsBadRecord content.now count) }
{
    let mut due = Some(0);
    let mut rest = content;
    for index in 0..count {
        let Some((delta, after)) = record(rest) else {
            return Err(index);
        };
        due = due_after(form, last, due, delta);
        rest = after;
    }
    if rest.is_empty() {
        Ok(due.is_some())
    } else {
        Err(count)
    }
}
