// The law of all calls, over its definitions.
ghost use Rattle.call_fold.specs.Talks.{MeansItsEntries};

use crate::call::Call;

/// A call asks a part for each of its questions, in order, and each row of its reply is made of its own entry and of
/// the answer to that entry's own question.
pub fn each_row_is_of_its_own_entry<C: Call>()
    ensures { MeansItsEntries C.acts }
{}
