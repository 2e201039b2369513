// The law of ShareGroupDescribe, over its definitions.
ghost use Rattle.group_calls.specs.MembersTold.{TellsItsGroup};

/// The reply to a ShareGroupDescribe has the groups of the request, in order, each told by the answers to its own
/// questions.
pub fn each_group_is_told_by_its_own_shards()
    ensures { TellsItsGroup }
{}
