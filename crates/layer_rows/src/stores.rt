// Stores: disks, journals, logs and streams. A line is done. The heads of `disks.rt`, `logs.rt` and `streams.rt` say
// which there are.
use crate::bay::{bay_told, name_read, name_told};
use crate::disks::Store;
use crate::streams::Streams;
use std::alloc::Global;
use std::{io, mem};

#[derive(Drop)]
pub struct Stores {
    store: Store,
    streams: Streams,
}

impl Stores {
    pub fn new(alloc: Global) -> Stores {
        Stores {
            store: Store::None,
            streams: Streams::new(alloc),
        }
    }

    /// Puts others in place of these.
    pub fn set(&mut self, stores: Stores) {
        drop(mem::replace(self, stores));
    }

    /// What a line on streams or a store gives. `None` where there is no such line.
    fn on_stores(&mut self, alloc: Global, kind: &str, text: &str) -> io::Result<Option<String>> {
        match self.streams.told(alloc, kind, text) {
            Ok(None) => match self.store.on_log(alloc, kind, text) {
                Ok(None) => self.store.told(alloc, kind, text),
                told => told,
            },
            told => told,
        }
    }

    /// What a line gives. `None` where there is no such line.
    pub fn told(&mut self, alloc: Global, kind: &str, text: &str) -> io::Result<Option<String>> {
        let told = match kind {
            "disk-name" => name_told(alloc, text),
            "disk-read" => name_read(alloc, text),
            "bay" => bay_told(alloc),
            _ => return self.on_stores(alloc, kind, text),
        };
        Ok(Some(told?))
    }
}
