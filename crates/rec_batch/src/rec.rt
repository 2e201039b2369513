use share_model::Blob;

/// A record to be written: its key and its value, each of which is null where it is `None`.
#[derive(Drop)]
pub struct Rec {
    pub key: Option<Blob>,
    pub value: Option<Blob>,
}
