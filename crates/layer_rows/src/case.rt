// The layer that lines are about, and what they give.
use crate::adapters::Adapters;
use crate::consumers::Consumers;
use crate::formats::Formats;
use crate::links::Links;
use crate::merges::Merges;
use crate::parts::Parts;
use crate::queues::queue_told;
use crate::runs::StoredRuns;
use crate::stores::Stores;
use crate::texts::Texts;
use crate::waits::Waits;
use crate::windows::Windows;
use row_text::{Rows, Taken, compared, shortened};
use std::alloc::Global;
use std::io;

#[derive(Clone, Copy)]
enum Layer {
    Formats,
    Stores,
    Adapters,
    Links,
    Windows,
    Runs,
    Parts,
    Waits,
    Merges,
    Texts,
    Queues,
    Consumers,
}

#[derive(Drop)]
pub struct Case {
    layer: Layer,
    formats: Formats,
    stores: Stores,
    adapters: Adapters,
    links: Links,
    windows: Windows,
    runs: StoredRuns,
    parts: Parts,
    waits: Waits,
    merges: Merges,
    texts: Texts,
    consumers: Consumers,
}

fn layer_of(name: &str) -> Option<Layer> {
    match name {
        "formats" => Some(Layer::Formats),
        "stores" => Some(Layer::Stores),
        "adapters" => Some(Layer::Adapters),
        "links" => Some(Layer::Links),
        "windows" => Some(Layer::Windows),
        "runs" => Some(Layer::Runs),
        "parts" => Some(Layer::Parts),
        "waits" => Some(Layer::Waits),
        "merges" => Some(Layer::Merges),
        "texts" => Some(Layer::Texts),
        "queues" => Some(Layer::Queues),
        "consumers" => Some(Layer::Consumers),
        _ => None,
    }
}

/// What a line does, and the text that it is to give, `ok` where none is written.
fn parted(text: &str) -> (&str, &str) {
    match text.strip_prefix("gives ") {
        Some(wanted) => ("", wanted),
        None => text.split_once(" gives ").unwrap_or((text, "ok")),
    }
}

impl Case {
    pub fn new(alloc: Global) -> io::Result<Case> {
        Ok(Case {
            layer: Layer::Formats,
            formats: Formats::new(alloc),
            stores: Stores::new(alloc),
            adapters: Adapters::None,
            links: Links::new(alloc)?,
            windows: Windows::new(alloc),
            runs: StoredRuns::new(alloc),
            parts: Parts::None,
            waits: Waits::new(alloc),
            merges: Merges::new(alloc),
            texts: Texts::new(alloc),
            consumers: Consumers::None,
        })
    }

    /// Takes the name of a layer, or a change of bytes. Whether the line was one of these.
    fn notes(&mut self, alloc: Global, kind: &str, text: &str) -> io::Result<bool> {
        match (kind, self.layer, layer_of(text)) {
            ("layer", _, Some(layer)) => {
                self.layer = layer;
                Ok(true)
            }
            (_, Layer::Formats, _) => self.formats.change(alloc, kind, text),
            _ => Ok(false),
        }
    }

    /// What a line gives. `None` where there is no such line.
    fn told(&mut self, alloc: Global, kind: &str, words: &str) -> io::Result<Option<String>> {
        match self.layer {
            Layer::Formats => self.formats.told(alloc, kind, words),
            Layer::Stores => self.stores.told(alloc, kind, words),
            Layer::Adapters => self.adapters.told(alloc, kind, words),
            Layer::Links => self.links.told(alloc, kind, words),
            Layer::Windows => self.windows.told(alloc, kind, words),
            Layer::Runs => self.runs.told(alloc, kind, words),
            Layer::Parts => self.parts.told(alloc, kind, words),
            Layer::Waits => self.waits.told(alloc, kind, words),
            Layer::Merges => self.merges.told(alloc, kind, words),
            Layer::Texts => self.texts.told(alloc, kind, words),
            Layer::Queues => queue_told(alloc, kind, words),
            Layer::Consumers => self.consumers.told(alloc, kind, words),
        }
    }
}

impl Rows for Case {
    fn begin(&mut self, alloc: Global) -> io::Result<()> {
        self.stores.set(Stores::new(alloc));
        self.adapters.set(Adapters::None);
        self.links.set(Links::new(alloc)?);
        self.windows.set(Windows::new(alloc));
        self.runs.set(StoredRuns::new(alloc));
        self.parts.set(Parts::None);
        self.waits.set(Waits::new(alloc));
        self.merges.set(Merges::new(alloc));
        self.texts.set(Texts::new(alloc));
        self.consumers.set(Consumers::None);
        self.formats.begin(alloc)
    }

    fn take(&mut self, rt: &HostRuntime, kind: &str, text: &str) -> io::Result<Taken> {
        let alloc = rt.alloc();
        if self.notes(alloc, kind, text)? {
            return Ok(Taken::Noted);
        }
        let (words, wanted) = match self.layer {
            Layer::Formats => (text, text),
            _ => parted(text),
        };
        let Some(told) = self.told(alloc, kind, words)? else {
            return Ok(Taken::Unknown);
        };
        match compared(alloc, told.as_str(), wanted)? {
            None => Ok(Taken::Passed),
            Some(why) => {
                let words = shortened(words);
                let why = format!(in alloc; "{kind} {words}: {why}")?;
                Ok(Taken::Failed { why })
            }
        }
    }
}
