// The words of a server.
ghost use Rattle.std.specs.Prelude.{◌∷◌, IfOk, MatchOption, codes};
ghost use Rattle.share_top.specs.Words.{AreServeWords, texts};
ghost use Rattle.share_top.specs.WordReading.{AreNoServeWords, HasNoServeOptions, ReadsServe};

use super::address::Address;
use super::partition::behind_folder;
use super::setting::{Settings, read_settings};
use super::topic::read_topics;
use flex_fields::NoMemory;
use std::alloc::Global;
use topic_conf::Config;

/// What a server is told beside its folder and the address at which it listens.
#[derive(Drop)]
pub struct ServeWords {
    /// What its broker is configured with. Clients are told the host and the port of it.
    pub conf: Config,
    /// How many connections are served at a time, 1 to 256. The others wait until a worker is free.
    pub workers: u32,
    /// After how many connections it ends, 1 to 4294967295.
    pub accept: u32,
    /// After how many milliseconds of silence a connection is idle, 0 to 86400000.
    pub idle_ms: u32,
}

// What the options say, among which the folder has to stand, and the words behind them.
fn read_options<'a>(words: &'a [String]) -> Option<(Settings, &'a [String])>
    ensures { MatchOption result (HasNoServeOptions (texts words.now)) (λ x. ReadsServe (texts words.now) (texts x.1.now) x.0) }
{
    let Some((before, rest)) = read_settings(Settings::NONE, words) else {
        return None;
    };
    let Some(behind) = behind_folder(rest) else {
        return None;
    };
    read_settings(before, behind)
}

/// What the words behind `serve` give: the address at which the server listens, and the rest of what it is told.
pub fn read_serve(
    alloc: Global,
    words: &[String],
) -> Result<Option<(Address, ServeWords)>, NoMemory>
    ensures { IfOk result (λ found. MatchOption found (AreNoServeWords (codes "serve" ∷ texts words.now))
        (λ x. AreServeWords (codes "serve" ∷ texts words.now) x.0 x.1)) }
{
    let Some((given, rest)) = read_options(words) else {
        return Ok(None);
    };
    let Some((listen, told)) = given.addresses() else {
        return Ok(None);
    };
    match read_topics(alloc, rest)? {
        Some(topics) => Ok(Some((listen, given.serve_words(topics, told)))),
        None => Ok(None),
    }
}
