// What goes next, again and again.
ghost use Rattle.std.specs.Prelude.{◌≡◌, ◌<◌, ◌^◌, ◌++◌, ℕ, List, OnOk, length};
ghost use Rattle.tape_merge.specs.declared.moves.Move.{Move};
ghost use Rattle.tape_merge.specs.Matching.{AreApart, AreMatched};
ghost use Rattle.tape_merge.specs.Moves.{GoOn, IsCounted, after, begin};
ghost use Rattle.tape_merge.specs.Telling.{told};
ghost use Rattle.tape_merge.specs.Waiting.{IsStuck};

use crate::moves::Move;
use crate::progress::Progress;
use crate::ready::{first_ready, look_behind, take_next};
use crate::tell::tell_move;
use session_script::Event;
use share_model::NoMemory;
use share_record::{LinkTape, ShardTape};
use std::alloc::Global;
use topic_conf::Config;

// A move has gone.
fn advance(counts: &mut Progress, went: Move)
    requires { IsCounted counts.old went }
    ensures { counts.new ≡ after counts.old went }
{
    match went {
        Move::Steps { link, tape: None } => {
            counts.step_gone(link);
        }
        Move::Steps {
            link,
            tape: Some(tape),
        } => {
            counts.step_gone(link);
            counts.tag_passed(tape);
        }
        Move::Alone { tape } => {
            counts.tag_passed(tape);
        }
    }
}

// Goes on until nothing may go.
pub fn go_on(
    alloc: Global,
    conf: &Config,
    tapes: &[ShardTape],
    links: &[LinkTape],
    counts: &mut Progress,
    events: &mut Vec<Event>,
) -> Result<(), NoMemory>
    requires apart { AreApart tapes.now }
    requires few { length links.now < 2 ^ 32 }
    requires first { counts.old ≡ begin tapes.now links.now }
    ensures goes { OnOk result ((moves : List Move)
        × GoOn tapes.now links.now (begin tapes.now links.now) moves counts.new
        × (events.new.items ≡ events.old.items
        ++ told conf.now.topics tapes.now links.now (begin tapes.now links.now) moves)) }
    ensures stuck { OnOk result (AreMatched tapes.now links.now → IsStuck tapes.now links.now counts.new) }
{
    let mut ready = first_ready(alloc, tapes, links, counts)?;
    while let Some(goes) = take_next(tapes, links, counts, &mut ready) {
        tell_move(conf, tapes, links, counts, goes, events)?;
        advance(counts, goes);
        look_behind(tapes, links, counts, goes, &mut ready)?;
    }
    Ok(())
}
