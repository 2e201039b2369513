ghost use Rattle.std.specs.Prelude.{◌≡◌, ◌≤◌, ◌+◌, ◌<◌, ◌^◌, ◌++◌, Some, None, IfOk, length};
ghost use Rattle.std.specs.Option.{option_copied};
ghost use Rattle.std.specs.List.{list_any};
ghost use Rattle.std.specs.Str.{bytes_eq};
ghost use Rattle.share_members.specs.Heartbeats.{places_named, new_subscription};

use crate::member::Member;
use crate::places::Places;
use flex_fields::{Items, NoMemory, Text};
use share_model::Name;
use std::alloc::Global;
use topic_conf::Topic;

fn is_named(topic: &Name, names: &[Text]) -> bool
    ensures { result ≡ list_any (λ name. bytes_eq name topic.now) names.now }
{
    names.iter().any(|name| name.as_str() == topic.as_str())
}

// The places of the hosted topics that are named.
fn places_named(alloc: Global, names: &[Text], topics: &[Topic]) -> Result<Places, NoMemory>
    requires { length topics.now ≤ 64 }
    ensures { IfOk result (λ places. places ≡ places_named names.now 0 topics.now) }
{
    let mut places = Vec::new(alloc);
    let mut place = 0;
    let mut rest = topics;
    while let Some((topic, others)) = rest.split_first() {
        if is_named(&topic.name, names) {
            places.push(place)?;
        }
        place += 1;
        rest = others;
    }
    Ok(Places::new(Items::new(places)))
}

/// The subscription that changes the member's group. `None` where it stays.
pub fn new_subscription(
    alloc: Global,
    topics: &[Topic],
    names: &Option<Items<Text>>,
    member: Option<&Member>,
) -> Result<Option<Places>, NoMemory>
    requires { length topics.now ≤ 64 }
    ensures { IfOk result (λ change. change ≡ new_subscription topics.now names.now (option_copied member.entry)) }
{
    let Some(names) = names else {
        return Ok(match member {
            Some(_) => None,
            None => Some(Places::none(alloc)),
        });
    };
    let places = places_named(alloc, names.as_slice(), topics)?;
    match member {
        Some(member) if places.as_slice() == member.topics.as_slice() => Ok(None),
        _ => Ok(Some(places)),
    }
}
