// The bay over which words are to be run.
ghost use Rattle.std.specs.Prelude.{◌<◌, IfSome, MatchBool, MatchOption, length};
ghost use Rattle.share_top.specs.Words.{IsBayChoice, WantsFolder, texts};
ghost use Rattle.share_top.specs.WordReading.{IsBehindDir, HasNoDir};

/// The bay over which words are to be run.
#[derive(Clone, Copy)]
pub enum BayChoice {
    /// A fresh bay in memory.
    Memory,
    /// A bay over the folder that the word at this place names, counted from 0.
    Folder { word: usize },
}

fn wants_folder(command: &str) -> bool
    ensures { MatchBool result (WantsFolder command.now) (WantsFolder command.now → ⊥) }
{
    matches!(command, "load" | "dump-state" | "serve")
}

// The place of the word behind the first `--dir`.
fn folder_place(words: &[String]) -> Option<usize>
    ensures place { MatchOption result (HasNoDir (texts words.now)) (IsBehindDir (texts words.now)) }
    ensures within { IfSome result (λ place. place < length words.now) }
{
    let Some((word, behind)) = words.split_first() else {
        return None;
    };
    if word.as_str() == "--dir" {
        return if behind.is_empty() { None } else { Some(1) };
    }
    match folder_place(behind) {
        Some(place) => Some(place + 1),
        None => None,
    }
}

/// Tells which bay the words want: one over a folder where they begin with `load`, `dump-state` or `serve` and a word
/// behind that, but not the last one, is `--dir`; the folder's word stands behind the first such one. Else they want
/// a fresh one in memory.
///
/// Whether the words are a command isn't looked at. It takes no memory.
pub fn bay_choice(words: &[String]) -> BayChoice
    ensures { IsBayChoice (texts words.now) result }
{
    let Some((command, behind)) = words.split_first() else {
        return BayChoice::Memory;
    };
    if !wants_folder(command.as_str()) {
        return BayChoice::Memory;
    }
    match folder_place(behind) {
        Some(place) => BayChoice::Folder { word: place + 1 },
        None => BayChoice::Memory,
    }
}
